//! What clap finds in words that keep the rules.

ghost use Rattle.std.specs.Prelude.{◌≡◌, Some, IfOk, IfErr, map, true, is_some};
ghost use Rattle.clap.specs.Words.{app_of, kind_of, new_rule};
ghost use Rattle.clap.specs.declared.error.kind.ErrorKind.TheVariants.{OutOfMemory};
ghost use Rattle.sim_config.specs.Words.{Given, given_in, uses_in};
ghost use Rattle.sim_config.specs.Inner.{lent_form, names_of, with_rules, option_rule, flag_rule, app_of_form, given_found, IsTakenByClap};

use crate::forms::Form;
use clap::{Arg, ArgAction, ArgMatches, Command, Error};
use sim_base::Text;
use std::alloc::{AllocError, Global};

/// What clap finds in words that keep the rules of a form. It then fails only for want of memory.
pub(crate) fn matches_of<'a>(
    alloc: Global,
    form: &Form,
    words: &'a [Text],
) -> Result<ArgMatches<'a>, Error>
    requires form { IsTakenByClap (lent_form form.now) }
    requires rules { is_some (uses_in (lent_form form.now) words.now) ≡ true }
    ensures given { IfOk result (λ matches. given_in (lent_form form.now) words.now ≡ Some (given_found (lent_form form.now) matches)) }
    ensures memory { IfErr result (λ error. kind_of error ≡ OutOfMemory) }
{
    let command = command_of(alloc, form)?;
    command.try_get_matches_from(words)
}

/// The command of a form: each positional is found by its name, and each option and each flag too.
fn command_of<'a>(alloc: Global, form: &Form) -> Result<Command<'a>, AllocError>
    ensures { IfOk result (λ command. app_of command ≡ app_of_form (lent_form form.now)) }
{
    let command = Command::new(alloc, "tilesim")
        .no_binary_name(true)
        .disable_help_flag(true);
    let command = with_positionals(alloc, command, form.positionals)?;
    let command = with_options(alloc, command, form.options)?;
    with_flags(alloc, command, form.flags)
}

/// The command with positionals more.
fn with_positionals<'a>(
    alloc: Global,
    command: Command<'a>,
    names: &'static [&'static str],
) -> Result<Command<'a>, AllocError>
    ensures { IfOk result (λ more. app_of more ≡ with_rules (app_of command.entry) (map new_rule (names_of names.now))) }
{
    let mut command = command;
    for name in names {
        command = command.arg(Arg::new(alloc, name))?;
    }
    Ok(command)
}

/// The command with options more, each of which has a value.
fn with_options<'a>(
    alloc: Global,
    command: Command<'a>,
    names: &'static [&'static str],
) -> Result<Command<'a>, AllocError>
    ensures { IfOk result (λ more. app_of more ≡ with_rules (app_of command.entry) (map option_rule (names_of names.now))) }
{
    let mut command = command;
    for name in names {
        command = command.arg(Arg::new(alloc, name).long(name))?;
    }
    Ok(command)
}

/// The command with flags more, each of which has the value `true` where it stands.
fn with_flags<'a>(
    alloc: Global,
    command: Command<'a>,
    names: &'static [&'static str],
) -> Result<Command<'a>, AllocError>
    ensures { IfOk result (λ more. app_of more ≡ with_rules (app_of command.entry) (map flag_rule (names_of names.now))) }
{
    let mut command = command;
    for name in names {
        command = command.arg(Arg::new(alloc, name).long(name).action(ArgAction::SetTrue))?;
    }
    Ok(command)
}
