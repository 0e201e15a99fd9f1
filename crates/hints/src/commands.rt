//! The table of commands: what each does, its words and its options, with a line each.

use sim_base::NoMemory;
use std::alloc::Global;

/// A command.
#[derive(Clone, Copy)]
pub(crate) struct Command {
    pub(crate) name: &'static str,
    /// The words that it needs, in order, as the table shows them.
    pub(crate) words: &'static [&'static str],
    /// The names of its options.
    pub(crate) options: &'static [&'static str],
    /// What it does.
    pub(crate) what: &'static str,
}

/// An option, with its value as the table shows it.
struct Choice {
    name: &'static str,
    value: &'static str,
    what: &'static str,
}

static RUN_WORDS: [&str; 1] = ["IMAGE"];

static RUN_OPTIONS: [&str; 3] = ["config", "seed", "journal"];

static REPLAY_WORDS: [&str; 2] = ["IMAGE", "JOURNAL"];

static REPLAY_OPTIONS: [&str; 2] = ["config", "seed"];

static GEN_WORDS: [&str; 3] = ["KIND", "SEED", "OUT"];

static BENCH_WORDS: [&str; 1] = ["SEED"];

/// The names of the commands, in the order of the table.
static NAMES: [&str; 4] = ["run", "replay", "gen", "bench"];

/// The command of a name: its row of the table.
pub(crate) fn command_of(name: &str) -> Option<Command> {
    match name {
        "run" => Some(Command {
            name: "run",
            words: RUN_WORDS.as_slice(),
            options: RUN_OPTIONS.as_slice(),
            what: "runs a program, prints its output and a report",
        }),
        "replay" => Some(Command {
            name: "replay",
            words: REPLAY_WORDS.as_slice(),
            options: REPLAY_OPTIONS.as_slice(),
            what: "makes the run of a journal again",
        }),
        "gen" => Some(Command {
            name: "gen",
            words: GEN_WORDS.as_slice(),
            options: &[],
            what: "writes the image of a workload: lock, barrier, pipeline or reduce",
        }),
        "bench" => Some(Command {
            name: "bench",
            words: BENCH_WORDS.as_slice(),
            options: &[],
            what: "runs the workload reduce on 16 tiles",
        }),
        _ => None,
    }
}

/// The options.
static CHOICES: [Choice; 3] = [
    Choice {
        name: "config",
        value: "FILE",
        what: "the settings (docs/SETTINGS.md); without it the default ones",
    },
    Choice {
        name: "seed",
        value: "N",
        what: "0 to 2^64 - 1, in place of the setting seed",
    },
    Choice {
        name: "journal",
        value: "FILE",
        what: "where the run's events are written",
    },
];

/// Appends the table, a line for each command and each option.
pub(crate) fn push_table(alloc: Global, text: &mut String) -> Result<(), NoMemory> {
    for name in NAMES.iter() {
        if let Some(command) = command_of(name) {
            push_command(alloc, text, &command)?;
        }
    }
    for choice in CHOICES.iter() {
        let Choice { name, value, what } = choice;
        text.push_str(format!(in alloc; "    --{name} {value}: {what}\n")?.as_str())?;
    }
    Ok(())
}

/// Appends the line of a command.
fn push_command(alloc: Global, text: &mut String, command: &Command) -> Result<(), NoMemory> {
    text.push_str("  tilesim ")?;
    text.push_str(command.name)?;
    for word in command.words.iter() {
        text.push_str(" ")?;
        text.push_str(word)?;
    }
    for option in command.options.iter() {
        let value = value_of(option);
        text.push_str(format!(in alloc; " [--{option} {value}]")?.as_str())?;
    }
    text.push_str(": ")?;
    text.push_str(command.what)?;
    text.push_str("\n")?;
    Ok(())
}

/// The value of an option, as the table shows it.
fn value_of(name: &str) -> &'static str {
    match CHOICES.iter().find(|choice| choice.name == name) {
        Some(choice) => choice.value,
        None => "",
    }
}
