use crate::Envelope;
use std::alloc::{AllocError, Global};
use std::marker::Model;

/// The envelopes that were sent, which are numbered from 1 and kept, and the cursor: the number of the one to be delivered
/// next.
#[derive(Drop)]
pub struct Pool {
    sent: Vec<Envelope>,
    cursor: u32,
}

impl Model for Pool {
    ghost use Rattle.std.specs.Prelude.{◌+◌, ◌≤◌, ◌<◌, ◌^◌, length};
    ghost use Rattle.net_model.specs.Pools.{Post};

    ghost Value = { Post };

    ghost view = { λ p. record { sent = p.sent.items; cursor = p.cursor } };

    ghost invariant = { λ p. (length p.sent.items < 2 ^ 32) × (1 ≤ p.cursor) × (p.cursor ≤ length p.sent.items + 1) };
}

impl Pool {
    ghost use Rattle.std.specs.Prelude.{◌≡◌, ◌+◌, ◌≤◌, ◌<◌, ◌++◌, ◌∷◌, [], length, Some, None, IfSome, IfNone, IfOk, OnOk, OnErr};
    ghost use Rattle.net_model.specs.Pools.{envelope_at, moved_on};

    pub fn new(alloc: Global) -> Pool
        ensures { result ≡ record { sent = []; cursor = 1 } }
    {
        Pool {
            sent: Vec::new(alloc),
            cursor: 1,
        }
    }

    /// Keeps an envelope, and answers its number.
    pub fn add(&mut self, envelope: Envelope) -> Result<u32, AllocError>
        requires { length self.old.sent < 4294967295 }
        ensures kept { OnOk result (self.new ≡ record self.old { sent = self.old.sent ++ envelope ∷ [] }) }
        ensures number { IfOk result (λ number. number ≡ length self.old.sent + 1) }
        ensures memory { OnErr result (self.new ≡ self.old) }
    {
        self.sent.push(envelope)?;
        Ok(self.sent.len() as u32)
    }

    /// The envelope of a number.
    pub fn get(&self, number: u32) -> Option<&Envelope>
        ensures some { IfSome result (λ envelope. envelope_at self.now number ≡ Some envelope.now) }
        ensures none { IfNone result (envelope_at self.now number ≡ None) }
    {
        if number == 0 {
            return None;
        }
        self.sent.get(number as usize - 1)
    }

    /// The number of the envelope to be delivered next.
    pub fn cursor(&self) -> u32
        ensures value { result ≡ self.now.cursor }
        ensures place { (1 ≤ result) × (result ≤ length self.now.sent + 1) }
    {
        self.cursor
    }

    /// Goes past the envelope at the cursor. The cursor stays where there is none, and at the greatest number.
    pub fn advance(&mut self)
        ensures { self.new ≡ moved_on self.old }
    {
        if self.cursor < u32::MAX && self.cursor as usize <= self.sent.len() {
            self.cursor += 1;
        }
    }
}
