// A text that contracts see as the list of its bytes.
ghost use Rattle.std.specs.Prelude.{◌≡◌, List, ℕ, IfOk, string_bytes};

use crate::OutOfMemory;
use std::alloc::Global;
use std::marker::Model;

/// A text, which contracts see as the list of its bytes.
pub struct Text {
    held: String,
}

impl Model for Text {
    ghost Value = { List ℕ };

    ghost view = { λ a. string_bytes a.held };
}

// By hand, so that the drops of its parts are proved here alone.
impl Drop for Text {
    fn drop(self) {
        let Text { held: _ } = self;
    }
}

impl Text {
    /// A copy of the text. Linear in its length.
    pub fn of(alloc: Global, text: &str) -> Result<Text, OutOfMemory>
        ensures { IfOk result (λ t. t ≡ text.now) }
    {
        Ok(Text {
            held: String::from_str(alloc, text)?,
        })
    }

    /// The text itself, at no cost.
    pub fn as_str(&self) -> &str
        ensures { result.now ≡ self.now }
    {
        self.held.as_str()
    }
}
