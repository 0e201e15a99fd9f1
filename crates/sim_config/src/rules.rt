//! The rules of the words after a command, tested before clap sees them, without taking memory.

ghost use Rattle.std.specs.Prelude.{◌≡◌, ◌∷◌, ℕ, List, None, true, false, is_some, option_copied, option_map};
ghost use Rattle.std.specs.List.{list_any, position};
ghost use Rattle.sim_config.specs.Words.{CommandForm, is_equals_sign, is_plain, is_use_of, has_name, name_and_value, dashed_name, uses_from, uses_in, with_option};
ghost use Rattle.sim_config.specs.Inner.{first_use_of, is_of_name, lent_form, lent_use, names_of, uses_after, uses_at};

use crate::forms::Form;
use sim_base::Text;

/// A place between two words after a command.
#[derive(Drop)]
pub(crate) struct Reading<'a> {
    /// The names of the positionals that are still to come.
    left: &'static [&'static str],
    /// The name of an option that awaits its value.
    awaited: Option<&'a [u8]>,
}

/// What words use: a positional or an option by its name and its value, or a flag by its name alone.
#[derive(Drop)]
pub(crate) struct Use<'a> {
    name: &'a [u8],
    pub(crate) value: Option<&'a [u8]>,
}

/// What a word does: what is used with it, unless it is an option that awaits its value, and the place after it.
#[derive(Drop)]
pub(crate) struct Turn<'a> {
    used: Option<Use<'a>>,
    next: Reading<'a>,
}

/// Whether the words after a command keep the rules: each is a positional, an option `--name` with its value in the next
/// word, or `--name=value`, or a flag `--name`; there are no more positionals than the form has; each option and each flag
/// is one of the form's and stands once. A positional or a value in a word of its own isn't empty and doesn't begin with a
/// dash; a value after `=` isn't empty. This simulator's own rules.
pub(crate) fn keeps_rules(form: &Form, words: &[Text]) -> bool
    ensures { result ≡ is_some (uses_in (lent_form form.now) words.now) }
{
    let mut reading = start(form);
    for (at, word) in words.iter().enumerate() {
        let later = &words[at + 1..];
        match after_word(form, &reading, word.as_str().as_bytes(), later) {
            Some(turn) => reading = turn.next,
            None => return false,
        }
    }
    reading.awaited.is_none()
}

/// The first use of a name, in words that keep the rules.
pub(crate) fn first_use<'a>(form: &Form, name: &[u8], words: &'a [Text]) -> Option<Use<'a>>
    ensures { option_map lent_use result ≡ first_use_of name.now (uses_in (lent_form form.now) words.now) }
{
    if !keeps_rules(form, words) {
        return None;
    }
    let mut reading = start(form);
    for (at, word) in words.iter().enumerate() {
        let later = &words[at + 1..];
        let Some(turn) = after_word(form, &reading, word.as_str().as_bytes(), later) else {
            return None;
        };
        if is_of_name(&turn, name) {
            return turn.used;
        }
        reading = turn.next;
    }
    None
}

/// Whether a use of this name ends with the word.
fn is_of_name(turn: &Turn, name: &[u8]) -> bool
    ensures { result ≡ is_of_name name.now turn.now.used }
{
    match &turn.used {
        Some(used) => used.name == name,
        None => false,
    }
}

/// The place before the first word.
fn start(form: &Form) -> Reading<'static>
    ensures { (lent : CommandForm) (words : List (List ℕ)) → uses_at lent result words ≡ uses_from lent (lent_form form.now).positionals None words }
{
    Reading {
        left: form.positionals,
        awaited: None,
    }
}

/// What a word does, if it may stand at a place, before later words.
fn after_word<'a>(
    form: &Form,
    reading: &Reading<'a>,
    word: &'a [u8],
    later: &[Text],
) -> Option<Turn<'a>>
    ensures { uses_at (lent_form form.now) reading.now (word.now ∷ later.now) ≡ uses_after (lent_form form.now) result later.now }
{
    if is_plain(word) {
        after_plain(reading, word)
    } else if reading.awaited.is_none() {
        after_dashed(form, reading.left, word, later)
    } else {
        None
    }
}

/// What a value or a positional does.
fn after_plain<'a>(reading: &Reading<'a>, word: &'a [u8]) -> Option<Turn<'a>>
    ensures { (form : CommandForm) (words : List (List ℕ)) → is_plain word.now ≡ true
        → uses_at form reading.now (word.now ∷ words) ≡ uses_after form result words }
{
    match (reading.awaited, reading.left) {
        (Some(name), left) => Some(Turn {
            used: Some(Use {
                name,
                value: Some(word),
            }),
            next: Reading {
                left,
                awaited: None,
            },
        }),
        (None, [name, left @ ..]) => Some(Turn {
            used: Some(Use {
                name: name.as_bytes(),
                value: Some(word),
            }),
            next: Reading {
                left,
                awaited: None,
            },
        }),
        (None, []) => None,
    }
}

/// What a word that begins with a dash does.
fn after_dashed<'a>(
    form: &Form,
    left: &'static [&'static str],
    word: &'a [u8],
    later: &[Text],
) -> Option<Turn<'a>>
    requires { is_plain word.now ≡ false }
    ensures { uses_from (lent_form form.now) (names_of left.now) None (word.now ∷ later.now) ≡ uses_after (lent_form form.now) result later.now }
{
    let (name, value) = dashed_name(word)?;
    if is_used(name, later) {
        return None;
    }
    if has_name(form.options, name) {
        after_option(left, name, value)
    } else if has_name(form.flags, name) && value.is_none() {
        Some(Turn {
            used: Some(Use { name, value: None }),
            next: Reading {
                left,
                awaited: None,
            },
        })
    } else {
        None
    }
}

/// What an option does, with the value that stands in its word.
fn after_option<'a>(
    left: &'static [&'static str],
    name: &'a [u8],
    value: Option<&'a [u8]>,
) -> Option<Turn<'a>>
    ensures { (form : CommandForm) (words : List (List ℕ))
        → with_option name.now (option_copied value.entry) (λ awaited. uses_from form (names_of left.now) awaited words)
        ≡ uses_after form result words }
{
    match value {
        None => Some(Turn {
            used: None,
            next: Reading {
                left,
                awaited: Some(name),
            },
        }),
        Some([]) => None,
        Some(_) => Some(Turn {
            used: Some(Use { name, value }),
            next: Reading {
                left,
                awaited: None,
            },
        }),
    }
}

/// Whether some word uses the option or the flag of this name.
fn is_used(name: &[u8], words: &[Text]) -> bool
    ensures { result ≡ list_any (is_use_of name.now) words.now }
{
    words
        .iter()
        .any(|word| is_use_of(name, word.as_str().as_bytes()))
}

/// Whether one of the names is this one.
fn has_name(names: &[&str], name: &[u8]) -> bool
    ensures { result ≡ has_name (names_of names.now) name.now }
{
    names.iter().any(|other| other.as_bytes() == name)
}

/// Whether a word uses the option or the flag of this name.
fn is_use_of(name: &[u8], word: &[u8]) -> bool
    ensures { result ≡ is_use_of name.now word.now }
{
    match dashed_name(word) {
        Some((other, _)) => other == name,
        None => false,
    }
}

/// The name in a word `--name`, or the name and the value in `--name=value`.
fn dashed_name(word: &[u8]) -> Option<(&[u8], Option<&[u8]>)>
    ensures { option_map (λ dashed. (dashed.0.now, option_copied dashed.1)) result ≡ dashed_name word.now }
{
    match word {
        [b'-', b'-', text @ ..] => Some(name_and_value(text)),
        _ => None,
    }
}

/// What stands before the first `=`, and what follows it if there is one.
fn name_and_value(text: &[u8]) -> (&[u8], Option<&[u8]>)
    ensures { (result.0.now, option_copied result.1) ≡ name_and_value text.now }
{
    match equals_sign(text) {
        Some(at) => (&text[..at], Some(&text[at + 1..])),
        None => (text, None),
    }
}

/// Where the first `=` stands, if one does.
fn equals_sign(text: &[u8]) -> Option<usize>
    ensures { result ≡ position is_equals_sign text.now }
{
    text.iter().position(|byte| *byte == b'=')
}

/// Whether a word may be a positional, or the value of the option before it: it isn't empty and doesn't begin with a dash.
fn is_plain(word: &[u8]) -> bool
    ensures { result ≡ is_plain word.now }
{
    match word {
        [] => false,
        [first, ..] => *first != b'-',
    }
}
