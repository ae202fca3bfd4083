ghost use Rattle.std.specs.Prelude.{◌≡◌, List, ℕ};

use std::marker::Model;

/// The text of an application's operations, as a list of bytes that an event or a script line holds.
#[derive(Drop)]
pub struct OpText {
    bytes: Vec<u8>,
}

impl Model for OpText {
    ghost Value = { List ℕ };

    ghost view = { λ t. t.bytes.items };
}

impl OpText {
    pub fn new(bytes: Vec<u8>) -> OpText
        ensures { result ≡ bytes.items }
    {
        OpText { bytes }
    }

    pub fn items(&self) -> &[u8]
        ensures { result.now ≡ self.now }
    {
        &self.bytes
    }
}
