//! The laws of the format, as contracts of functions that do nothing.
ghost use Rattle.std.specs.Prelude.{◌≡◌, ◌≤◌, ◌++◌, ℕ, List, length};
ghost use Rattle.wire_codec.specs.declared.message.Message.{Message};
ghost use Rattle.wire_codec.specs.Spelling.{SpellsMessage};

use crate::reading::MAX_FRAME;

/// A message has one spelling, and none begins the spelling of another message.
pub fn messages_have_one_spelling()
    ensures one { (a b : List ℕ) (m : Message) → SpellsMessage a m → SpellsMessage b m → a ≡ b }
    ensures apart { (a b x y : List ℕ) (m n : Message) →
        SpellsMessage a m → SpellsMessage b n → a ++ x ≡ b ++ y → (m ≡ n) × (a ≡ b) }
{}

/// A frame has 6 to 600,004 bytes, so a buffer of `MAX_FRAME` bytes is long enough for each.
pub fn frames_are_short()
    ensures least { (a : List ℕ) (m : Message) → SpellsMessage a m → 6 ≤ length a }
    ensures most { (a : List ℕ) (m : Message) → SpellsMessage a m → length a ≤ MAX_FRAME }
{}
