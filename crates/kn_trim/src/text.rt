//! What `trim` hands out: bytes that spell a proof again.
ghost use Rattle.std.specs.Prelude.{◌≡◌};

use std::marker::Model;

/// The text of a trimmed proof.
#[derive(Debug, Drop)]
pub struct TrimText {
    bytes: Vec<u8>,
}

impl Model for TrimText {
    ghost use Rattle.std.specs.Prelude.{ℕ, List};

    ghost Value = { List ℕ };

    ghost view = { λ t. t.bytes.items };
}

impl TrimText {
    /// The text of these bytes.
    pub(crate) fn new(bytes: Vec<u8>) -> TrimText
        ensures { result ≡ bytes.items }
    {
        TrimText { bytes }
    }

    /// The bytes, given back.
    pub fn into_bytes(self) -> Vec<u8>
        ensures { result.items ≡ self }
    {
        self.bytes
    }

    /// The bytes of the text.
    pub fn bytes(&self) -> &[u8]
        ensures { result.now ≡ self.now }
    {
        &self.bytes
    }
}
