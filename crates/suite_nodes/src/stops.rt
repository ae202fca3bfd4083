use crate::asks::{Ask, Turn};
use crate::beside::{plain_answer, plain_status};
use crate::nodes::{answer_of, node_after, status_of, tear};
use crate::stores::store_left;
use std::alloc::Global;
use std::test::Fail;

// What is left: promised, adopted, low, length, what tells the records apart, and the id of the record to be staged next.
pub type Left = [u64; 6];

// What is stopped: a node, or its store alone.
#[derive(Clone, Copy)]
enum Over {
    Node,
    Store,
}

pub fn left_of(status: [u64; 4], log: u64, next: u64) -> Left {
    let [promised, adopted, low, length] = status;
    [promised, adopted, low, length, log, next]
}

// The session in which a node is asked, from 1 on.
fn session_of(status: [u64; 4]) -> u8 {
    status[0].max(1).min(255) as u8
}

// A plain replica that took these messages.
fn plain_after(alloc: Global, turns: &[Turn]) -> Result<plain_node::Node, Fail> {
    let mut plain = plain_node::Node::new(alloc);
    for turn in turns {
        plain_answer(alloc, &mut plain, *turn)?;
    }
    Ok(plain)
}

// What is left of a plain replica that took these messages and one more, and lost what is staged.
fn plain_left(alloc: Global, turns: &[Turn], last: Turn) -> Result<Left, Fail> {
    let mut plain = plain_after(alloc, turns)?;
    plain_answer(alloc, &mut plain, last)?;
    let status = plain_status(&plain);
    let log = plain_answer(alloc, &mut plain, (session_of(status), Ask::Fetch(1, 8)))?;
    Ok(left_of(status, log[4], status[2].saturating_add(1)))
}

// What is left of a node that took these messages, and stopped within one more.
fn node_left(alloc: Global, turns: &[Turn], last: Turn, keep: u64) -> Result<Left, Fail> {
    let mut node = node_after(alloc, turns)?;
    tear(alloc, &mut node, last, keep)?;
    let status = status_of(&node);
    let session = session_of(status);
    let log = answer_of(alloc, &mut node, (session, Ask::Fetch(1, 8)))?;
    let staged = answer_of(alloc, &mut node, (session, Ask::Stage(1000, 1)))?;
    Ok(left_of(status, log[4], next_of(status, staged)))
}

// The id of the record to be staged next, by the answer to one that is not: another answer comes where none can be staged.
fn next_of(status: [u64; 4], answer: [u64; 5]) -> u64 {
    if answer[0] == 5 {
        return answer[2];
    }
    status[2].saturating_add(1)
}

// What may be left, from the old state to the new one.
#[derive(Drop)]
struct Allowed {
    list: Vec<Left>,
}

impl Allowed {
    fn add(&mut self, left: Left) -> Result<(), Fail> {
        if self.place(&left) == self.list.len() {
            self.list.push(left)?;
        }
        Ok(())
    }

    // The place of what is left, or a place behind all.
    fn place(&self, left: &Left) -> usize {
        for place in 0..self.list.len() {
            if self.list[place] == *left {
                return place;
            }
        }
        self.list.len()
    }
}

// The first records of an append, so many. Of another message nothing.
fn part_of(ask: Ask, part: u8) -> Ask {
    match ask {
        Ask::Append(first, count) if part < count => Ask::Append(first, part.max(1)),
        _ => Ask::Fetch(1, 1),
    }
}

// What may be left by a message that comes after these: the old state, an append in part, and the new state.
fn all_allowed(alloc: Global, turns: &[Turn], last: Turn) -> Result<Allowed, Fail> {
    let (session, ask) = last;
    let mut all = Allowed {
        list: Vec::new(alloc),
    };
    all.add(plain_left(alloc, turns, (session, Ask::Fetch(1, 1)))?)?;
    for part in 1..8 {
        all.add(plain_left(alloc, turns, (session, part_of(ask, part)))?)?;
    }
    all.add(plain_left(alloc, turns, last)?)?;
    Ok(all)
}

// What is left where the last of these messages stops once so many bytes are written.
fn left_by(alloc: Global, over: Over, turns: &[Turn], last: Turn, keep: u64) -> Result<Left, Fail> {
    match over {
        Over::Node => node_left(alloc, turns, last, keep),
        Over::Store => store_left(alloc, turns, last, keep),
    }
}

// Stops within one message, after more and more bytes: what may be left, what was left last, and how often it was right.
#[derive(Drop)]
struct Stops {
    allowed: Allowed,
    place: usize,
    right: u64,
}

impl Stops {
    // It is right where it is allowed, no earlier state than before, and not further than there are bytes.
    fn note(&mut self, keep: u64, left: &Left) {
        let place = self.allowed.place(left);
        if self.place <= place && place < self.allowed.list.len() && place as u64 <= keep {
            self.right = self.right.saturating_add(1);
        }
        self.place = place;
    }

    // How often it was right, and once more where the new state was left last.
    fn right(&self) -> u64 {
        let is_last = self.allowed.list.len() == self.place.saturating_add(1);
        self.right.saturating_add(u64::from(is_last))
    }
}

// How many bytes a message writes that does what it asks for.
fn bytes_of(ask: Ask) -> u64 {
    match ask {
        Ask::Open | Ask::Low(_) => 21,
        Ask::Adopt(_) => 41,
        Ask::Stage(_, count) | Ask::Append(_, count) => 68 * u64::from(count),
        Ask::Fetch(_, _) => 0,
    }
}

// How many stops within a message that comes after these leave what they should.
fn right_stops(alloc: Global, over: Over, turns: &[Turn], last: Turn) -> Result<u64, Fail> {
    let mut stops = Stops {
        allowed: all_allowed(alloc, turns, last)?,
        place: 0,
        right: 0,
    };
    for keep in 0..=bytes_of(last.1) {
        stops.note(keep, &left_by(alloc, over, turns, last, keep)?);
    }
    Ok(stops.right())
}

// Whether that is so after each number of bytes.
fn is_right(alloc: Global, over: Over, turns: &[Turn], last: Turn) -> Result<bool, Fail> {
    let right = right_stops(alloc, over, turns, last)?;
    Ok(right == bytes_of(last.1).saturating_add(2))
}

// How many of these messages are stopped rightly.
fn right_turns(alloc: Global, over: Over, turns: &[Turn]) -> Result<usize, Fail> {
    let mut right = 0usize;
    for place in 0..turns.len() {
        if is_right(alloc, over, &turns[..place], turns[place])? {
            right = right.saturating_add(1);
        }
    }
    Ok(right)
}

const ONE_FILE: [Turn; 6] = [
    (1, Ask::Open),
    (1, Ask::Adopt(0)),
    (1, Ask::Append(1, 1)),
    (1, Ask::Append(2, 2)),
    (1, Ask::Low(2)),
    (3, Ask::Open),
];

const THREE_FILES: [Turn; 12] = [
    (1, Ask::Open),
    (1, Ask::Adopt(0)),
    (1, Ask::Append(1, 2)),
    (2, Ask::Open),
    (2, Ask::Stage(1, 1)),
    (2, Ask::Adopt(1)),
    (2, Ask::Append(2, 1)),
    (2, Ask::Low(1)),
    (5, Ask::Open),
    (5, Ask::Stage(2, 1)),
    (5, Ask::Adopt(2)),
    (5, Ask::Append(3, 2)),
];

#[test]
fn a_store_of_one_file_may_stop_after_any_byte(rt: HostRuntime) -> Result<(), Fail> {
    assert!(rt; right_turns(rt.alloc(), Over::Store, &ONE_FILE)? == 6);
    Ok(())
}

#[test]
fn a_store_of_three_files_may_stop_after_any_byte(rt: HostRuntime) -> Result<(), Fail> {
    assert!(rt; right_turns(rt.alloc(), Over::Store, &THREE_FILES)? == 12);
    Ok(())
}

#[test]
fn a_node_of_one_file_may_stop_after_any_byte(rt: HostRuntime) -> Result<(), Fail> {
    assert!(rt; right_turns(rt.alloc(), Over::Node, &ONE_FILE)? == 6);
    Ok(())
}

#[test]
fn a_node_of_three_files_may_stop_after_any_byte(rt: HostRuntime) -> Result<(), Fail> {
    assert!(rt; right_turns(rt.alloc(), Over::Node, &THREE_FILES)? == 12);
    Ok(())
}
