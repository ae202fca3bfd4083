ghost use Rattle.std.specs.Prelude.{◌≡◌, ◌≢◌, ◌↔◌, [], ◌∷◌, ◌++◌, length, drop, Err, IfOk, OnOk, OnErr, MatchResult, IsTrue};
ghost use Rattle.io_core.specs.Causes.{HasCauseOrMemory, HasWant, counted};
ghost use Rattle.io_core.specs.Links.{exchanged, FitsBack, Nothing};
ghost use Rattle.io_core.specs.MemLink.{MustFailNext, back_of, heard_of, exchange_after};
ghost use Rattle.io_core.specs.Rooms.{first_of, shown_in};

use crate::kept::{Past, add_both};
use crate::room::show;
use crate::{Back, Fault, Link};
use std::alloc::{AllocError, Global};
use std::marker::Model;

/// A link in memory, whose replies are given. Calls of chosen numbers fail, and so does each one once no reply is left:
/// such a call sends nothing, takes no reply, and leaves the buffer as it was.
#[derive(Drop)]
pub struct MemLink {
    alloc: Global,
    replies: Vec<Vec<u8>>,
    sent: Vec<Vec<u8>>,
    past: Vec<Past>,
    fails: Vec<u64>,
    calls: u64,
    faults: u64,
    wants: u64,
}

impl Model for MemLink {
    ghost use Rattle.std.specs.Prelude.{◌≡◌, ◌≤◌, drop, length, map};
    ghost use Rattle.std.specs.Vec.{vec_items};
    ghost use Rattle.io_core.specs.MemLink.{LinkState};
    ghost use Rattle.io_core.specs.Keeping.{transcript_of, replied_count};

    ghost Value = { LinkState };

    ghost view = { λ l. record {
      replies = drop (length l.sent.items) (map vec_items l.replies.items);
      transcript = transcript_of l.past.items
          (map vec_items l.sent.items) (map vec_items l.replies.items);
      fails = l.fails.items;
      calls = l.calls;
      faults = l.faults;
      wants = l.wants;
    } };

    ghost invariant = { λ l. (length l.sent.items ≤ length l.replies.items)
        × (replied_count l.past.items ≡ length l.sent.items) };
}

impl MemLink {
    ghost use Rattle.std.specs.Prelude.{map};
    ghost use Rattle.std.specs.Vec.{vec_items};
    ghost use Rattle.io_core.specs.MemLink.{sent_bytes};

    /// A link with these replies, which come in order. Call number k, counted from 1 and up to the greatest `u64`,
    /// fails where k stands in `fails`, and where no reply is left. A call that runs out of memory is no such call: its
    /// number goes to the next one. A call that fails may run out of memory too, since its bytes are told.
    pub fn new(alloc: Global, replies: Vec<Vec<u8>>, fails: Vec<u64>) -> MemLink
        ensures { result ≡ record {
          replies = map vec_items replies.items;
          transcript = [];
          fails = fails.items;
          calls = 0;
          faults = 0;
          wants = 0;
        } }
    {
        MemLink {
            alloc,
            replies,
            sent: Vec::new(alloc),
            past: Vec::new(alloc),
            fails,
            calls: 0,
            faults: 0,
            wants: 0,
        }
    }

    /// What was sent in each exchange in which a reply came, in order.
    pub fn sent(&self) -> &[Vec<u8>]
        ensures { map vec_items result.now ≡ sent_bytes self.now.transcript }
    {
        &self.sent
    }

    // Whether no reply is left.
    fn is_spent(&self) -> bool
        ensures { IsTrue result ↔ (self.now.replies ≡ []) }
    {
        self.sent.len() == self.replies.len()
    }

    // Whether the next call fails.
    fn must_fail(&self) -> bool
        ensures { IsTrue result ↔ MustFailNext self.now }
    {
        let call = self.calls.saturating_add(1);
        if self.fails.contains(&call) {
            return true;
        }
        self.is_spent()
    }

    // Keeps an exchange that takes the next reply, and shows that reply.
    fn take_reply(&mut self, port: u16, bytes: &[u8], into: &mut [u8]) -> Result<Back, AllocError>
        requires { self.old.replies ≢ [] }
        ensures back { IfOk result (λ back.
            back ≡ back_of (first_of self.old.replies) (length into.old)) }
        ensures room { MatchResult result
            (λ _. into.new ≡ shown_in into.old (first_of self.old.replies))
            (λ _. into.new ≡ into.old) }
        ensures ok { OnOk result (self.new ≡ record self.old {
          replies = drop 1 self.old.replies;
          transcript = self.old.transcript ++ record {
            port = port;
            sent = bytes.now;
            heard = heard_of (first_of self.old.replies) (length into.old);
          } ∷ [];
        }) }
        ensures err { OnErr result (self.new ≡ self.old) }
    {
        let reply = &self.replies[self.sent.len()];
        let past = Past::Replied(port, into.len());
        add_both(self.alloc, &mut self.sent, bytes, &mut self.past, past)?;
        Ok(show_reply(into, reply))
    }

    // Keeps an exchange that fails.
    fn keep_unheard(&mut self, port: u16, bytes: &[u8]) -> Result<(), AllocError>
        ensures ok { OnOk result (self.new ≡ record self.old {
          transcript = self.old.transcript
              ++ record { port = port; sent = bytes.now; heard = Nothing } ∷ [];
        }) }
        ensures err { OnErr result (self.new ≡ self.old) }
    {
        let copy = Vec::from_slice(self.alloc, bytes)?;
        self.past.push(Past::Unheard(port, copy))?;
        Ok(())
    }

    // Makes an exchange, and counts no call that runs out of memory.
    fn try_exchange(&mut self, port: u16, bytes: &[u8], into: &mut [u8]) -> Result<Back, Fault>
        ensures fails { (result ≢ Err Fault.Memory) →
            ((result ≡ Err Fault.Failed) ↔ MustFailNext self.old) }
        ensures back { IfOk result (λ back.
            back ≡ back_of (first_of self.old.replies) (length into.old)) }
        ensures room { MatchResult result
            (λ _. into.new ≡ shown_in into.old (first_of self.old.replies))
            (λ _. into.new ≡ into.old) }
        ensures done { (result ≢ Err Fault.Memory) →
            self.new ≡ exchange_after self.old port bytes.now (length into.old) result }
        ensures memory { result ≡ Err Fault.Memory → self.new ≡ self.old }
        ensures cause { HasCauseOrMemory self.old.faults self.new.faults result }
    {
        let call = self.calls.saturating_add(1);
        if self.must_fail() {
            self.keep_unheard(port, bytes)?;
            self.calls = call;
            self.faults = self.faults.saturating_add(1);
            return Err(Fault::Failed);
        }
        let back = self.take_reply(port, bytes, into)?;
        self.calls = call;
        Ok(back)
    }
}

impl Link for MemLink {
    ghost tells = { Unit {0} };

    ghost transcript = { λ l. l.transcript };

    ghost faults = { λ l. l.faults };

    ghost wants = { λ l. l.wants };

    fn exchange(&mut self, port: u16, bytes: &[u8], into: &mut [u8]) -> Result<Back, Fault>
        ensures bound { IfOk result (λ back. FitsBack back (length into.new)) }
        ensures told { Unit {0} → self.new.transcript
            ≡ exchanged self.old.transcript port bytes.now into.new result }
        ensures cause { HasCauseOrMemory self.old.faults self.new.faults result }
        ensures want { HasWant self.old.wants self.new.wants result }

        ensures fails { (result ≢ Err Fault.Memory) →
            ((result ≡ Err Fault.Failed) ↔ MustFailNext self.old) }
        ensures back { IfOk result (λ back.
            back ≡ back_of (first_of self.old.replies) (length into.old)) }
        ensures after { self.new
            ≡ exchange_after self.old port bytes.now (length into.old) result }

        // Behind the reply, and where none is shown, the buffer is as it was.
        ensures room { MatchResult result
            (λ _. into.new ≡ shown_in into.old (first_of self.old.replies))
            (λ _. into.new ≡ into.old) }
    {
        match self.try_exchange(port, bytes, into) {
            Ok(back) => Ok(back),
            Err(Fault::Failed) => Err(Fault::Failed),
            Err(Fault::Memory) => {
                self.wants = self.wants.saturating_add(1);
                Err(Fault::Memory)
            }
        }
    }
}

// Shows a reply, where it fits.
fn show_reply(into: &mut [u8], reply: &[u8]) -> Back
    ensures back { result ≡ back_of reply.now (length into.old) }
    ensures room { into.new ≡ shown_in into.old reply.now }
{
    match show(into, reply) {
        Some(count) => Back::Got(count),
        None => Back::TooLong,
    }
}
