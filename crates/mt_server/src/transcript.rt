// What sessions were answered, as text.
use std::marker::Model;

/// What a session was answered, a line each. Contracts see its bytes.
#[derive(Debug, Drop)]
pub struct Transcript {
    text: Vec<u8>,
}

impl Model for Transcript {
    ghost use Rattle.std.specs.Prelude.{ℕ, List};

    ghost Value = { List ℕ };

    ghost view = { λ t. t.text.items };
}

ghost use Rattle.std.specs.Prelude.{◌≡◌};

impl Transcript {
    pub(crate) fn new(text: Vec<u8>) -> Transcript
        ensures { result ≡ text.items }
    {
        Transcript { text }
    }

    /// The lines, each with the line feed after it.
    pub fn as_bytes(&self) -> &[u8]
        ensures { result.now ≡ self.now }
    {
        self.text.as_slice()
    }
}
