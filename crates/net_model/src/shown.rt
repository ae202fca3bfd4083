ghost use Rattle.std.specs.Prelude.{◌≡◌};

use crate::{Brief, Party};
use std::marker::Model;

/// An envelope that an event made: its number, from whom it goes to whom, and what is told of its message.
#[derive(Drop)]
pub struct Item {
    pub number: u32,
    pub from: Party,
    pub to: Party,
    pub brief: Brief,
}

/// The envelopes of an outcome.
#[derive(Drop)]
pub struct Items {
    items: Vec<Item>,
}

impl Model for Items {
    ghost use Rattle.std.specs.Prelude.{List};
    ghost use Rattle.net_model.specs.declared.shown.Item.{Item as ItemValue};

    ghost Value = { List ItemValue };

    ghost view = { λ i. i.items.items };
}

impl Items {
    pub fn new(items: Vec<Item>) -> Items
        ensures { result ≡ items.items }
    {
        Items { items }
    }

    pub fn items(&self) -> &[Item]
        ensures { result.now ≡ self.now }
    {
        &self.items
    }
}

/// A record of the one log without its payload.
#[derive(Clone, Copy, PartialEq, Eq)]
pub struct Entry {
    pub id: u64,
    pub session: u64,
    pub client: u64,
    pub request: u64,
}

/// The entries of an outcome.
#[derive(Drop)]
pub struct Entries {
    items: Vec<Entry>,
}

impl Model for Entries {
    ghost use Rattle.std.specs.Prelude.{List};
    ghost use Rattle.net_model.specs.declared.shown.Entry.{Entry as EntryValue};

    ghost Value = { List EntryValue };

    ghost view = { λ e. e.items.items };
}

impl Entries {
    pub fn new(items: Vec<Entry>) -> Entries
        ensures { result ≡ items.items }
    {
        Entries { items }
    }

    pub fn items(&self) -> &[Entry]
        ensures { result.now ≡ self.now }
    {
        &self.items
    }
}

/// An application as text: a space and `key=value` for each key, in byte order.
#[derive(Drop)]
pub struct AppText {
    bytes: Vec<u8>,
}

impl Model for AppText {
    ghost use Rattle.std.specs.Prelude.{List, ℕ};

    ghost Value = { List ℕ };

    ghost view = { λ t. t.bytes.items };
}

impl AppText {
    pub fn new(bytes: Vec<u8>) -> AppText
        ensures { result ≡ bytes.items }
    {
        AppText { bytes }
    }

    pub fn items(&self) -> &[u8]
        ensures { result.now ≡ self.now }
    {
        &self.bytes
    }
}

/// Bytes of a file.
#[derive(Drop)]
pub struct Bytes {
    bytes: Vec<u8>,
}

impl Model for Bytes {
    ghost use Rattle.std.specs.Prelude.{List, ℕ};

    ghost Value = { List ℕ };

    ghost view = { λ b. b.bytes.items };
}

impl Bytes {
    pub fn new(bytes: Vec<u8>) -> Bytes
        ensures { result ≡ bytes.items }
    {
        Bytes { bytes }
    }

    pub fn items(&self) -> &[u8]
        ensures { result.now ≡ self.now }
    {
        &self.bytes
    }
}
