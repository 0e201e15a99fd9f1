//! What words give, read without taking memory: the value of a name, and whether a flag stands. It waits for `--threads` of
//! `run`, which is looked for before there is memory.

ghost use Rattle.std.specs.Prelude.{◌≡◌, false, option_and_then, option_copied};
ghost use Rattle.std.specs.Option.{option_map_or};
ghost use Rattle.sim_config.specs.Words.{given_in};
ghost use Rattle.sim_config.specs.Inner.{lent_form};

use crate::forms::Form;
use crate::rules::first_use;
use sim_base::Text;

/// The value of a positional or an option, where the words keep the rules and give one.
pub(crate) fn value_in<'a>(form: &Form, name: &str, words: &'a [Text]) -> Option<&'a [u8]>
    ensures { option_copied result ≡ option_and_then (λ given. given.value name.now) (given_in (lent_form form.now) words.now) }
{
    first_use(form, name.as_bytes(), words)?.value
}

/// Whether the words keep the rules, and a flag stands.
pub(crate) fn has_flag(form: &Form, name: &str, words: &[Text]) -> bool
    ensures { result ≡ option_map_or (λ given. given.flag name.now) (given_in (lent_form form.now) words.now) false }
{
    match first_use(form, name.as_bytes(), words) {
        Some(used) => used.value.is_none(),
        None => false,
    }
}
