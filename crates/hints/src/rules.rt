//! Which rule the words of the command line break, the first that is found.

use crate::commands::{Command, command_of};
use sim_base::{NoMemory, Text};
use std::alloc::Global;

/// A rule that words break.
#[derive(Clone, Copy)]
pub(crate) enum Broken<'a> {
    /// There is no word.
    NoWords,
    /// The words ask for help.
    Help,
    /// The words ask for a version.
    Version,
    /// The first word is no command.
    NoCommand { word: &'a str },
    /// A word is empty, or it couldn't be read as text.
    EmptyWord,
    /// The command has no such option.
    NoOption { word: &'a str },
    /// An option stands twice.
    Twice { name: &'a str },
    /// An option has no value.
    NoValue { name: &'a str },
    /// A word is missing.
    Missing { word: &'static str },
    /// There is a word too many.
    TooMany { word: &'a str },
    /// A seed is no number.
    NoSeed { word: &'a str },
    /// A kind of workload is none.
    NoKind { word: &'a str },
    /// None that is known here.
    Other,
}

/// The first rule that words break.
pub(crate) fn broken_rule(words: &[Text]) -> Broken<'_> {
    match words {
        [] => Broken::NoWords,
        [first, rest @ ..] => match command_of(first.as_str()) {
            Some(command) => broken_after(&command, rest),
            None => broken_first(first.as_str()),
        },
    }
}

/// The rule that a first word breaks which is no command.
fn broken_first(word: &str) -> Broken<'_> {
    if word == "--help" || word == "-h" || word == "help" {
        Broken::Help
    } else if word == "--version" || word == "-V" {
        Broken::Version
    } else if word.is_empty() {
        Broken::EmptyWord
    } else {
        Broken::NoCommand { word }
    }
}

/// The rule that the words after a command break.
fn broken_after<'a>(command: &Command, words: &'a [Text]) -> Broken<'a> {
    let mut left = command.words;
    let mut awaited: Option<&'a str> = None;
    for (at, word) in words.iter().enumerate() {
        let word = word.as_str();
        let later = &words[at + 1..];
        let step = match awaited {
            Some(name) => after_name(name, word),
            None if is_plain(word) => after_plain(left, word),
            None => after_option(command, word, later),
        };
        match step {
            Step::Breaks { rule } => return rule,
            Step::Awaits { name } => awaited = Some(name),
            Step::Takes => awaited = None,
            Step::TakesWord => {
                left = match left {
                    [_, others @ ..] => others,
                    [] => left,
                };
            }
        }
    }
    match (awaited, left) {
        (Some(name), _) => Broken::NoValue { name },
        (None, [word, ..]) => Broken::Missing { word },
        (None, []) => Broken::Other,
    }
}

/// What a word after a command is.
enum Step<'a> {
    /// It breaks a rule.
    Breaks { rule: Broken<'a> },
    /// It is an option whose value is the next word.
    Awaits { name: &'a str },
    /// It is a value, or an option with its value.
    Takes,
    /// It is the next word of the command.
    TakesWord,
}

/// What a word is behind an option that awaits its value.
fn after_name<'a>(name: &'a str, word: &'a str) -> Step<'a> {
    if !is_plain(word) {
        Step::Breaks {
            rule: Broken::NoValue { name },
        }
    } else if name == "seed" && !is_seed(word) {
        Step::Breaks {
            rule: Broken::NoSeed { word },
        }
    } else {
        Step::Takes
    }
}

/// What a word is that begins with no dash, where these words are still to come.
fn after_plain<'a>(left: &[&'static str], word: &'a str) -> Step<'a> {
    match left {
        [] => Step::Breaks {
            rule: Broken::TooMany { word },
        },
        [name, ..] => {
            if *name == "SEED" && !is_seed(word) {
                Step::Breaks {
                    rule: Broken::NoSeed { word },
                }
            } else if *name == "KIND" && !is_kind(word) {
                Step::Breaks {
                    rule: Broken::NoKind { word },
                }
            } else {
                Step::TakesWord
            }
        }
    }
}

/// What a word is that is empty or begins with a dash.
fn after_option<'a>(command: &Command, word: &'a str, later: &'a [Text]) -> Step<'a> {
    if word.is_empty() {
        return Step::Breaks {
            rule: Broken::EmptyWord,
        };
    }
    if word == "--help" || word == "-h" {
        return Step::Breaks { rule: Broken::Help };
    }
    let Some(option) = word.strip_prefix("--") else {
        return Step::Breaks {
            rule: Broken::NoOption { word },
        };
    };
    let (name, value) = match option.split_once('=') {
        Some((name, value)) => (name, Some(value)),
        None => (option, None),
    };
    if !command.options.iter().any(|other| *other == name) {
        return Step::Breaks {
            rule: Broken::NoOption { word },
        };
    }
    if later.iter().any(|other| is_use_of(name, other.as_str())) {
        return Step::Breaks {
            rule: Broken::Twice { name },
        };
    }
    after_value(name, value)
}

/// What an option is with the value that stands in its word, if one does.
fn after_value<'a>(name: &'a str, value: Option<&'a str>) -> Step<'a> {
    match value {
        None => Step::Awaits { name },
        Some("") => Step::Breaks {
            rule: Broken::NoValue { name },
        },
        Some(value) => {
            if name == "seed" && !is_seed(value) {
                Step::Breaks {
                    rule: Broken::NoSeed { word: value },
                }
            } else {
                Step::Takes
            }
        }
    }
}

/// Whether a word uses an option.
fn is_use_of(name: &str, word: &str) -> bool {
    match word.strip_prefix("--") {
        Some(option) => match option.split_once('=') {
            Some((other, _)) => other == name,
            None => option == name,
        },
        None => false,
    }
}

/// Whether a word isn't empty and begins with no dash.
fn is_plain(word: &str) -> bool {
    !word.is_empty() && !word.starts_with('-')
}

/// Whether a word is a seed: decimal digits without a zero in front, below 2^64.
fn is_seed(word: &str) -> bool {
    let has_digits = word.as_bytes().iter().all(|byte| byte.is_ascii_digit());
    let has_front_zero = word.len() > 1 && word.starts_with('0');
    has_digits && !has_front_zero && word.parse::<u64>().is_ok()
}

/// Whether a word is a kind of workload.
fn is_kind(word: &str) -> bool {
    word == "lock" || word == "barrier" || word == "pipeline" || word == "reduce"
}

/// Appends the line of a broken rule. There is none where the words only ask for help.
pub(crate) fn push_rule(
    alloc: Global,
    text: &mut String,
    rule: Broken<'_>,
) -> Result<(), NoMemory> {
    match rule {
        Broken::Help | Broken::Other => {}
        Broken::NoWords => text.push_str("There is no command.\n")?,
        Broken::Version => {
            text.push_str(
                "There is no version number: the commit that was built says which one it is.\n",
            )?;
        }
        Broken::EmptyWord => text.push_str("A word is empty, or is no text.\n")?,
        Broken::NoCommand { word } => {
            text.push_str(format!(in alloc; "There is no command '{word}'.\n")?.as_str())?;
        }
        rule => push_later_rule(alloc, text, rule)?,
    }
    Ok(())
}

/// Appends the line of a rule that words after a command break.
fn push_later_rule(alloc: Global, text: &mut String, rule: Broken<'_>) -> Result<(), NoMemory> {
    let line = match rule {
        Broken::NoOption { word } => {
            format!(in alloc; "This command has no option '{word}'.\n")?
        }
        Broken::Twice { name } => format!(in alloc; "The option --{name} stands twice.\n")?,
        Broken::NoValue { name } => {
            format!(in alloc;
                "The option --{name} has no value. One that begins with a dash follows '='.\n"
            )?
        }
        Broken::Missing { word } => format!(in alloc; "The word {word} is missing.\n")?,
        Broken::TooMany { word } => format!(in alloc; "The word '{word}' is one too many.\n")?,
        Broken::NoSeed { word } => {
            format!(in alloc;
                "'{word}' is no seed: decimal digits, no zero in front, at most 2^64 - 1.\n"
            )?
        }
        Broken::NoKind { word } => {
            format!(in alloc; "'{word}' is no workload: lock, barrier, pipeline or reduce.\n")?
        }
        _ => String::new(alloc),
    };
    text.push_str(line.as_str())?;
    Ok(())
}
