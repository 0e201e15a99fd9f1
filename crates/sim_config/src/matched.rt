//! What clap finds, by its name: texts, numbers, flags.

ghost use Rattle.std.specs.Prelude.{◌≡◌, option_and_then, IfOk};
ghost use Rattle.std.specs.Option.{ok_or};
ghost use Rattle.clap.specs.Words.{first_value, found_of};
ghost use Rattle.sim_config.specs.Words.{optional_number, word_number};
ghost use Rattle.sim_config.specs.Inner.{is_true};
ghost use Rattle.sim_config.specs.declared.faults.RequestFault.TheVariants.{Usage};

use crate::faults::RequestFault;
use crate::numbers::number_of;
use clap::ArgMatches;
use sim_base::{NoMemory, Text};
use std::alloc::Global;

/// The value of a name, if the words give one.
pub(crate) fn text_at(
    alloc: Global,
    matches: &ArgMatches<'_>,
    name: &str,
) -> Result<Option<Text>, NoMemory>
    ensures { IfOk result (λ text. text ≡ first_value (found_of matches.now) name.now) }
{
    match matches.get_str(name) {
        Some(word) => Ok(Some(Text::new(alloc, word)?)),
        None => Ok(None),
    }
}

/// The number of a name. Words that give none have no meaning.
pub(crate) fn number_at(matches: &ArgMatches<'_>, name: &str) -> Result<u64, RequestFault>
    ensures { result ≡ ok_or (option_and_then word_number (first_value (found_of matches.now) name.now)) Usage }
{
    match matches.get_str(name) {
        Some(word) => number_of(word).ok_or(RequestFault::Usage),
        None => Err(RequestFault::Usage),
    }
}

/// The number of a name, if the words give one. A word that is no number has no meaning.
pub(crate) fn optional_number_at(
    matches: &ArgMatches<'_>,
    name: &str,
) -> Result<Option<u64>, RequestFault>
    ensures { result ≡ ok_or (optional_number (first_value (found_of matches.now) name.now)) Usage }
{
    match matches.get_str(name) {
        Some(word) => Ok(Some(number_of(word).ok_or(RequestFault::Usage)?)),
        None => Ok(None),
    }
}

/// Whether a flag stands: clap gives it the value `true` then, and else `false`. It waits for `--threads` of `run`.
pub(crate) fn flag_at(matches: &ArgMatches<'_>, name: &str) -> bool
    ensures { result ≡ is_true (first_value (found_of matches.now) name.now) }
{
    match matches.get_str(name) {
        Some(value) => value == "true",
        None => false,
    }
}
