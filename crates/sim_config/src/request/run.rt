//! `run IMAGE [--config FILE] [--seed N] [--journal FILE]`

ghost use Rattle.std.specs.Prelude.{◌≡◌};
ghost use Rattle.sim_config.specs.Inner.{given_found, lent_form};
ghost use Rattle.sim_config.specs.Request.{TellsRequest};
ghost use Rattle.sim_config.specs.Request.Run.{run_form, run_of};

use crate::faults::RequestFault;
use crate::forms::Form;
use crate::matched::{optional_number_at, text_at};
use crate::request::Request;
use clap::ArgMatches;
use std::alloc::Global;

static POSITIONALS: [&str; 1] = ["image"];

static OPTIONS: [&str; 3] = ["config", "seed", "journal"];

/// The form of the words after `run`.
pub(crate) fn form() -> Form
    ensures { lent_form result ≡ run_form }
{
    Form {
        positionals: POSITIONALS.as_slice(),
        options: OPTIONS.as_slice(),
        flags: &[],
    }
}

/// The request that `run` makes.
pub(crate) fn read(alloc: Global, matches: &ArgMatches<'_>) -> Result<Request, RequestFault>
    ensures { TellsRequest result (run_of (given_found run_form matches.now)) }
{
    let image = text_at(alloc, matches, "image")?.ok_or(RequestFault::Usage)?;
    let config = text_at(alloc, matches, "config")?;
    let seed = optional_number_at(matches, "seed")?;
    let journal = text_at(alloc, matches, "journal")?;
    Ok(Request::Run {
        image,
        config,
        seed,
        journal,
    })
}
