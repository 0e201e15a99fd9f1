//! From the words of the command line to the request that they mean.

ghost use Rattle.sim_config.specs.Words.{given_in};
ghost use Rattle.sim_config.specs.Request.{TellsRequest, command_meaning, meaning};
ghost use Rattle.sim_config.specs.Inner.{IsTakenByClap, TellsGiven, lent_form};

use crate::faults::RequestFault;
use crate::forms::Form;
use crate::matching::matches_of;
use crate::request::{Command, Request};
use crate::rules::keeps_rules;
use clap::ArgMatches;
use sim_base::Text;
use std::alloc::Global;

/// The request that the words after the program's name mean. The first is the command:
///
/// - `run IMAGE [--config FILE] [--seed N] [--journal FILE]`
/// - `replay IMAGE JOURNAL [--config FILE] [--seed N]`
/// - `gen KIND SEED OUT`, of the kind `lock`, `barrier`, `pipeline` or `reduce`
/// - `bench SEED`
///
/// An option stands anywhere after the command, at most once, with its value in the next word or as `--name=value`. No
/// value is empty, and none begins with a dash but after `=`. A seed is decimal digits, without a sign or a zero in front
/// but for `0` itself, at most 2^64 - 1. Any other words have no meaning, and the answer is `Usage`.
#[tactic(auto, unfolding(crate::specs::Request::meaning))]
pub fn request_of(alloc: Global, words: &[Text]) -> Result<Request, RequestFault>
    ensures { TellsRequest result (meaning words.now) }
{
    match words {
        [name, words @ ..] => match Command::named(name.as_str()) {
            Some(command) => command_request(alloc, command, words),
            None => Err(RequestFault::Usage),
        },
        [] => Err(RequestFault::Usage),
    }
}

/// The request of a command with the words after it.
fn command_request(alloc: Global, command: Command, words: &[Text]) -> Result<Request, RequestFault>
    ensures { TellsRequest result (command_meaning command words.now) }
{
    let matches = read(alloc, &command.form(), words)?;
    command.read(alloc, &matches)
}

/// What the words after a command give, where they keep the rules of its form.
fn read<'a>(alloc: Global, form: &Form, words: &'a [Text]) -> Result<ArgMatches<'a>, RequestFault>
    requires { IsTakenByClap (lent_form form.now) }
    ensures { TellsGiven (lent_form form.now) result (given_in (lent_form form.now) words.now) }
{
    if !keeps_rules(form, words) {
        return Err(RequestFault::Usage);
    }
    match matches_of(alloc, form, words) {
        Ok(matches) => Ok(matches),
        Err(_) => Err(RequestFault::NoMemory),
    }
}
