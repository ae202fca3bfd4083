//! An application of 10,000 keys takes transactions of four ops each.
ghost use Rattle.std.specs.Prelude.{◌≤◌, ◌+◌, length};

use crate::work::Tally;
use kv_app::{App, KvApp};
use std::alloc::Global;
use std::io;

/// Four ops. Each key has four digits, of which the first ones stand at 5, 17, 29 and 41.
const OPS: [u8; 47] = *b"add k0000 1;add k0000 1;add k0000 1;add k0000 1";

const KEYS: u64 = 10_000;

// The next number of a sequence that looks like chance.
fn stirred(state: u64) -> u64 {
    state
        .wrapping_mul(6_364_136_223_846_793_005)
        .wrapping_add(1_442_695_040_888_963_407)
}

fn digit(number: u64) -> u8 {
    b'0' + (number % 10) as u8
}

// Puts the last four digits of a number at a place.
fn put_digits(text: &mut [u8], at: usize, number: u64)
    requires { at + 4 ≤ length text.old }
{
    text[at] = digit(number / 1000);
    text[at + 1] = digit(number / 100);
    text[at + 2] = digit(number / 10);
    text[at + 3] = digit(number);
}

// Puts four keys into the ops, and answers the state after the last of them.
fn put_keys(ops: &mut [u8; 47], state: u64) -> u64 {
    let mut state = state;
    for op in 0..4 {
        state = stirred(state);
        put_digits(ops, op * 12 + 5, (state >> 33) % KEYS);
    }
    state
}

/// Applies so many transactions. The sum is the length of the application's text.
pub fn apply(alloc: Global, times: u64) -> io::Result<Tally> {
    let mut app = KvApp::new(alloc);
    let mut ops = OPS;
    let mut state = 1;
    let mut tally = Tally::new();
    for _ in 0..times {
        state = put_keys(&mut ops, state);
        app.apply(&ops)?;
        tally.add(ops.len(), 0);
    }
    tally.add(0, app.text()?.len() as u64);
    Ok(tally)
}
