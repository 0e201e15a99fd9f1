//! A text, seen as the list of its bytes.

ghost use Rattle.std.specs.Prelude.{◌≡◌, ◌++◌, ◌∷◌, [], IfOk, length};

use crate::memory::NoMemory;
use std::alloc::Global;
use std::convert::AsStr;
use std::marker::Model;

/// A text, which contracts see as the list of its UTF-8 bytes.
#[derive(Drop)]
pub struct Text {
    chars: String,
}

impl Model for Text {
    ghost use Rattle.std.specs.Prelude.{ℕ, List};
    ghost use Rattle.std.specs.String.{string_bytes};

    ghost Value = { List ℕ };

    ghost view = { λ t. string_bytes t.chars };
}

impl Text {
    /// The text of a word.
    pub fn new(alloc: Global, word: &str) -> Result<Text, NoMemory>
        ensures { IfOk result (λ text. text ≡ word.now) }
    {
        let chars = String::from_str(alloc, word)?;
        Ok(Text { chars })
    }

    /// Lends the text.
    pub fn as_str(&self) -> &str
        ensures { result.now ≡ self.now }
    {
        self.chars.as_str()
    }
}

impl AsStr for Text {
    ghost text = { λ t. t };

    fn as_str(&self) -> &str {
        self.chars.as_str()
    }
}
