//! `replay IMAGE JOURNAL [--config FILE] [--seed N]`

ghost use Rattle.std.specs.Prelude.{◌≡◌};
ghost use Rattle.sim_config.specs.Inner.{given_found, lent_form};
ghost use Rattle.sim_config.specs.Request.{TellsRequest};
ghost use Rattle.sim_config.specs.Request.Replay.{replay_form, replay_of};

use crate::faults::RequestFault;
use crate::forms::Form;
use crate::matched::{optional_number_at, text_at};
use crate::request::Request;
use clap::ArgMatches;
use std::alloc::Global;

static POSITIONALS: [&str; 2] = ["image", "journal"];

static OPTIONS: [&str; 2] = ["config", "seed"];

/// The form of the words after `replay`.
pub(crate) fn form() -> Form
    ensures { lent_form result ≡ replay_form }
{
    Form {
        positionals: POSITIONALS.as_slice(),
        options: OPTIONS.as_slice(),
        flags: &[],
    }
}

/// The request that `replay` makes.
pub(crate) fn read(alloc: Global, matches: &ArgMatches<'_>) -> Result<Request, RequestFault>
    ensures { TellsRequest result (replay_of (given_found replay_form matches.now)) }
{
    let image = text_at(alloc, matches, "image")?.ok_or(RequestFault::Usage)?;
    let journal = text_at(alloc, matches, "journal")?.ok_or(RequestFault::Usage)?;
    let config = text_at(alloc, matches, "config")?;
    let seed = optional_number_at(matches, "seed")?;
    Ok(Request::Replay {
        image,
        journal,
        config,
        seed,
    })
}
