//! `gen KIND SEED OUT`, of the kind `lock`, `barrier`, `pipeline` or `reduce`

ghost use Rattle.std.specs.Prelude.{◌≡◌, option_and_then, codes};
ghost use Rattle.std.specs.Option.{ok_or};
ghost use Rattle.clap.specs.Words.{first_value, found_of};
ghost use Rattle.sim_config.specs.Inner.{given_found, lent_form};
ghost use Rattle.sim_config.specs.Request.{TellsRequest};
ghost use Rattle.sim_config.specs.Request.Gen.{gen_form, gen_of, kind_of};
ghost use Rattle.sim_config.specs.declared.faults.RequestFault.TheVariants.{Usage};

use crate::faults::RequestFault;
use crate::forms::Form;
use crate::matched::{number_at, text_at};
use crate::request::Request;
use clap::ArgMatches;
use sim_base::Kind;
use std::alloc::Global;

static POSITIONALS: [&str; 3] = ["kind", "seed", "out"];

/// The form of the words after `gen`.
pub(crate) fn form() -> Form
    ensures { lent_form result ≡ gen_form }
{
    Form {
        positionals: POSITIONALS.as_slice(),
        options: &[],
        flags: &[],
    }
}

/// The request that `gen` makes.
pub(crate) fn read(alloc: Global, matches: &ArgMatches<'_>) -> Result<Request, RequestFault>
    ensures { TellsRequest result (gen_of (given_found gen_form matches.now)) }
{
    let kind = kind_at(matches)?;
    let seed = number_at(matches, "seed")?;
    let out = text_at(alloc, matches, "out")?.ok_or(RequestFault::Usage)?;
    Ok(Request::Gen { kind, seed, out })
}

/// The kind of workload. Words that give none have no meaning.
fn kind_at(matches: &ArgMatches<'_>) -> Result<Kind, RequestFault>
    ensures { result ≡ ok_or (option_and_then kind_of (first_value (found_of matches.now) (codes "kind"))) Usage }
{
    match matches.get_str("kind") {
        Some(word) => kind_of(word).ok_or(RequestFault::Usage),
        None => Err(RequestFault::Usage),
    }
}

/// The kind of workload of a name.
fn kind_of(word: &str) -> Option<Kind>
    ensures { result ≡ kind_of word.now }
{
    if word == "lock" {
        Some(Kind::Lock)
    } else if word == "barrier" {
        Some(Kind::Barrier)
    } else if word == "pipeline" {
        Some(Kind::Pipeline)
    } else if word == "reduce" {
        Some(Kind::Reduce)
    } else {
        None
    }
}
