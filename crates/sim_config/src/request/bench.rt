//! `bench SEED`

ghost use Rattle.std.specs.Prelude.{◌≡◌};
ghost use Rattle.sim_config.specs.Inner.{given_found, lent_form};
ghost use Rattle.sim_config.specs.Request.{TellsRequest};
ghost use Rattle.sim_config.specs.Request.Bench.{bench_form, bench_of};

use crate::faults::RequestFault;
use crate::forms::Form;
use crate::matched::number_at;
use crate::request::Request;
use clap::ArgMatches;

static POSITIONALS: [&str; 1] = ["seed"];

/// The form of the words after `bench`.
pub(crate) fn form() -> Form
    ensures { lent_form result ≡ bench_form }
{
    Form {
        positionals: POSITIONALS.as_slice(),
        options: &[],
        flags: &[],
    }
}

/// The request that `bench` makes.
pub(crate) fn read(matches: &ArgMatches<'_>) -> Result<Request, RequestFault>
    ensures { TellsRequest result (bench_of (given_found bench_form matches.now)) }
{
    let seed = number_at(matches, "seed")?;
    Ok(Request::Bench { seed })
}
