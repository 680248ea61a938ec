ghost use Rattle.std.specs.Prelude.{◌≡◌, ◌↔◌, IfOk, IsTrue};

use crate::Mem;
use std::alloc::Global;
use std::marker::Model;

/// A text that contracts see as its UTF-8 bytes.
#[derive(Debug, Drop)]
pub struct Text {
    text: String,
}

impl Model for Text {
    ghost use Rattle.std.specs.Prelude.{List, ℕ, string_bytes};

    ghost Value = { List ℕ };

    ghost view = { λ t. string_bytes t.text };
}

impl Text {
    pub fn from_str(alloc: Global, text: &str) -> Result<Text, Mem>
        ensures { IfOk result (λ t. t ≡ text.now) }
    {
        Ok(Text {
            text: text.to_string(alloc)?,
        })
    }

    pub fn as_str(&self) -> &str
        ensures { result.now ≡ self.now }
    {
        self.text.as_str()
    }

    /// Whether two texts have the same bytes.
    pub fn equals(&self, other: &Text) -> bool
        ensures { IsTrue result ↔ (self.now ≡ other.now) }
    {
        self.as_str() == other.as_str()
    }
}
