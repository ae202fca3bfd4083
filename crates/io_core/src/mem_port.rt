ghost use Rattle.std.specs.Prelude.{◌≡◌, ◌≢◌, ◌↔◌, [], ◌∷◌, ◌++◌, true, false, length, drop, Err, IfOk, IsErr, OnOk, OnErr, MatchResult, Contains};
ghost use Rattle.io_core.specs.Causes.{HasCause, HasCauseOrMemory, HasWant, counted};
ghost use Rattle.io_core.specs.Ports.{answered, FitsTurn, TakesTurn};
ghost use Rattle.io_core.specs.MemPort.{turn_of, listen_after, next_after, answer_after};
ghost use Rattle.io_core.specs.Rooms.{first_of, shown_in};

use crate::kept::{Attempt, add_both};
use crate::room::show;
use crate::{Failed, Fault, Port, Turn};
use std::alloc::{AllocError, Global};
use std::marker::Model;

/// A port in memory, to which given requests come. Calls of chosen numbers fail: such a call takes no request, gives no
/// answer, and leaves the buffer as it was.
#[derive(Drop)]
pub struct MemPort {
    alloc: Global,
    requests: Vec<Vec<u8>>,
    at: usize,
    answers: Vec<Vec<u8>>,
    past: Vec<Attempt>,
    fails: Vec<u64>,
    calls: u64,
    faults: u64,
    lost: u64,
    wants: u64,
}

impl Model for MemPort {
    ghost use Rattle.std.specs.Prelude.{◌≡◌, ◌≤◌, drop, length, map};
    ghost use Rattle.std.specs.Vec.{vec_items};
    ghost use Rattle.io_core.specs.MemPort.{PortState};
    ghost use Rattle.io_core.specs.Keeping.{answers_of, given_count};

    ghost Value = { PortState };

    ghost view = { λ p. record {
      coming = drop p.at (map vec_items p.requests.items);
      answers = answers_of p.past.items (map vec_items p.answers.items);
      fails = p.fails.items;
      calls = p.calls;
      faults = p.faults;
      lost = p.lost;
      wants = p.wants;
    } };

    ghost invariant = { λ p. (p.at ≤ length p.requests.items)
        × (given_count p.past.items ≡ length p.answers.items) };
}

impl MemPort {
    ghost use Rattle.std.specs.Prelude.{map};
    ghost use Rattle.std.specs.Vec.{vec_items};
    ghost use Rattle.io_core.specs.MemPort.{given_bytes};

    /// A port to which these requests come. Call number k, counted from 1 over all three calls and up to the greatest
    /// `u64`, fails exactly where k stands in `fails`. A call that runs out of memory is no such call: its number goes
    /// to the next one. A failed `answer` may run out of memory too, since its bytes are told.
    pub fn new(alloc: Global, requests: Vec<Vec<u8>>, fails: Vec<u64>) -> MemPort
        ensures { result ≡ record {
          coming = map vec_items requests.items;
          answers = [];
          fails = fails.items;
          calls = 0;
          faults = 0;
          lost = 0;
          wants = 0;
        } }
    {
        MemPort {
            alloc,
            requests,
            at: 0,
            answers: Vec::new(alloc),
            past: Vec::new(alloc),
            fails,
            calls: 0,
            faults: 0,
            lost: 0,
            wants: 0,
        }
    }

    /// The answers that were given, in order.
    pub fn answers(&self) -> &[Vec<u8>]
        ensures { map vec_items result.now ≡ given_bytes self.now.answers }
    {
        &self.answers
    }

    // Counts a call of `listen` or `next`, which fails where its number was chosen.
    fn count(&mut self) -> Result<(), Failed>
        ensures fails { IsErr result ↔ Contains self.old.fails (counted self.old.calls) }
        ensures after { self.new ≡ listen_after self.old result }
        ensures cause { HasCause self.old.faults self.new.faults result }
    {
        self.calls = self.calls.saturating_add(1);
        if self.fails.contains(&self.calls) {
            self.faults = self.faults.saturating_add(1);
            return Err(Failed);
        }
        Ok(())
    }

    // Shows the first request to come, and goes on behind it.
    fn take(&mut self, into: &mut [u8]) -> Turn
        ensures turn { result ≡ turn_of self.old.coming (length into.old) }
        ensures room { into.new ≡ shown_in into.old (first_of self.old.coming) }
        ensures after { self.new ≡ record self.old { coming = drop 1 self.old.coming } }
    {
        if self.at == self.requests.len() {
            return Turn::End;
        }
        let turn = show_request(into, &self.requests[self.at]);
        self.at += 1;
        turn
    }

    // Keeps an answer that is given.
    fn keep_given(&mut self, bytes: &[u8]) -> Result<(), AllocError>
        ensures ok { OnOk result (self.new ≡ record self.old {
          answers = self.old.answers ++ record { bytes = bytes.now; given = true } ∷ [];
        }) }
        ensures err { OnErr result (self.new ≡ self.old) }
    {
        add_both(
            self.alloc,
            &mut self.answers,
            bytes,
            &mut self.past,
            Attempt::Given,
        )?;
        Ok(())
    }

    // Keeps an answer that is lost.
    fn keep_lost(&mut self, bytes: &[u8]) -> Result<(), AllocError>
        ensures ok { OnOk result (self.new ≡ record self.old {
          answers = self.old.answers ++ record { bytes = bytes.now; given = false } ∷ [];
        }) }
        ensures err { OnErr result (self.new ≡ self.old) }
    {
        let copy = Vec::from_slice(self.alloc, bytes)?;
        self.past.push(Attempt::Lost(copy))?;
        Ok(())
    }

    // Answers, and counts no call that runs out of memory.
    fn try_answer(&mut self, bytes: &[u8]) -> Result<(), Fault>
        ensures fails { (result ≢ Err Fault.Memory) →
            ((result ≡ Err Fault.Failed) ↔ Contains self.old.fails (counted self.old.calls)) }
        ensures done { (result ≢ Err Fault.Memory) →
            self.new ≡ answer_after self.old bytes.now result }
        ensures memory { result ≡ Err Fault.Memory → self.new ≡ self.old }
        ensures cause { HasCauseOrMemory self.old.lost self.new.lost result }
    {
        let call = self.calls.saturating_add(1);
        if self.fails.contains(&call) {
            self.keep_lost(bytes)?;
            self.calls = call;
            self.lost = self.lost.saturating_add(1);
            return Err(Fault::Failed);
        }
        self.keep_given(bytes)?;
        self.calls = call;
        Ok(())
    }
}

impl Port for MemPort {
    ghost tells = { Unit {0} };

    ghost coming = { λ p. p.coming };

    ghost answers = { λ p. p.answers };

    ghost faults = { λ p. p.faults };

    ghost lost = { λ p. p.lost };

    ghost wants = { λ p. p.wants };

    fn listen(&mut self, _port: u16) -> Result<(), Failed>
        ensures coming { Unit {0} → self.new.coming ≡ self.old.coming }
        ensures answers { Unit {0} → self.new.answers ≡ self.old.answers }
        ensures cause { HasCause self.old.faults self.new.faults result }
        ensures lost { self.new.lost ≡ self.old.lost }
        ensures wants { self.new.wants ≡ self.old.wants }

        ensures fails { IsErr result ↔ Contains self.old.fails (counted self.old.calls) }
        ensures after { self.new ≡ listen_after self.old result }
    {
        self.count()
    }

    fn next(&mut self, into: &mut [u8]) -> Result<Turn, Failed>
        ensures bound { IfOk result (λ turn. FitsTurn turn (length into.new)) }
        ensures taken { IfOk result (λ turn. Unit {0} →
            TakesTurn self.old.coming self.new.coming into.new turn) }
        ensures failed { IsErr result → Unit {0} → self.new.coming ≡ self.old.coming }
        ensures answers { Unit {0} → self.new.answers ≡ self.old.answers }
        ensures cause { HasCause self.old.faults self.new.faults result }
        ensures lost { self.new.lost ≡ self.old.lost }
        ensures wants { self.new.wants ≡ self.old.wants }

        ensures fails { IsErr result ↔ Contains self.old.fails (counted self.old.calls) }
        ensures turn { IfOk result (λ turn. turn ≡ turn_of self.old.coming (length into.old)) }
        ensures after { self.new ≡ next_after self.old result }

        // Behind the request, and where none is shown, the buffer is as it was.
        ensures room { MatchResult result
            (λ _. into.new ≡ shown_in into.old (first_of self.old.coming))
            (λ _. into.new ≡ into.old) }
    {
        self.count()?;
        Ok(self.take(into))
    }

    fn answer(&mut self, bytes: &[u8]) -> Result<(), Fault>
        ensures coming { Unit {0} → self.new.coming ≡ self.old.coming }
        ensures answers { Unit {0} → self.new.answers ≡ answered self.old.answers bytes.now result }
        ensures faults { self.new.faults ≡ self.old.faults }
        ensures cause { HasCauseOrMemory self.old.lost self.new.lost result }
        ensures want { HasWant self.old.wants self.new.wants result }

        ensures fails { (result ≢ Err Fault.Memory) →
            ((result ≡ Err Fault.Failed) ↔ Contains self.old.fails (counted self.old.calls)) }
        ensures after { self.new ≡ answer_after self.old bytes.now result }
    {
        match self.try_answer(bytes) {
            Ok(()) => Ok(()),
            Err(Fault::Failed) => Err(Fault::Failed),
            Err(Fault::Memory) => {
                self.wants = self.wants.saturating_add(1);
                Err(Fault::Memory)
            }
        }
    }
}

// Shows a request, where it fits.
fn show_request(into: &mut [u8], request: &[u8]) -> Turn
    ensures turn { result ≡ turn_of (request.now ∷ []) (length into.old) }
    ensures room { into.new ≡ shown_in into.old request.now }
{
    match show(into, request) {
        Some(count) => Turn::Got(count),
        None => Turn::TooLong,
    }
}
