use crate::asks::{Ask, Turn, message, told};
use crate::nodes::{answer_of, status_of};
use disk_model::MemDisk;
use std::alloc::Global;
use std::test::Fail;
use storage_node::Node;

// A plain replica's promised and adopted session, its low-water mark, and how long its log is.
pub fn plain_status(plain: &plain_node::Node) -> [u64; 4] {
    [
        plain.promised(),
        plain.adopted(),
        plain.low(),
        plain.length(),
    ]
}

// What a plain replica tells in its reply.
pub fn plain_answer(
    alloc: Global,
    plain: &mut plain_node::Node,
    turn: Turn,
) -> Result<[u64; 5], Fail> {
    let m = message(alloc, turn)?;
    let reply = plain.step(&m)?;
    Ok(told(&reply))
}

// The next of numbers that look like chance.
fn next(number: u32) -> u32 {
    ((u64::from(number) * 1664525 + 1013904223) % 4294967296) as u32
}

// Mostly this one, and now and then the one before or after.
fn session_near(draw: u32, promised: u8) -> u8 {
    match draw % 16 {
        0 => promised.saturating_sub(1),
        1 => promised.saturating_add(1),
        _ => promised,
    }
}

fn id_near(draw: u32, near: u16) -> u16 {
    match draw % 8 {
        0 => near.saturating_sub(1),
        1 => near.saturating_add(1),
        _ => near,
    }
}

// A message of some kind.
fn ask_of(kind: u32, id: u16, count: u8) -> Ask {
    match kind {
        0 => Ask::Open,
        1..=4 => Ask::Stage(id, count),
        5..=7 => Ask::Adopt(id.saturating_sub(1)),
        8..=11 => Ask::Append(id, count),
        12 | 13 => Ask::Low(id.saturating_sub(2)),
        _ => Ask::Fetch(id.saturating_sub(3), count),
    }
}

// The message that a number chooses, mostly of the promised session and near this id.
fn chosen(number: u32, promised: u8, near: u16) -> Turn {
    let draw = number / 65536;
    let ask = ask_of(
        draw % 16,
        id_near(draw / 16, near),
        (draw / 128 % 4 + 1) as u8,
    );
    match ask {
        Ask::Open => (promised.saturating_add(1), ask),
        _ => (session_near(draw / 512, promised), ask),
    }
}

// The id behind those that a reply tells of, or this one.
fn behind(answer: [u64; 5], near: u16) -> u16 {
    let [kind, _, second, low, _] = answer;
    match kind {
        0 => low.min(60000) as u16 + 1,
        4 | 6 | 7 | 8 => second.min(60000) as u16 + 1,
        5 => second.min(60000) as u16,
        _ => near,
    }
}

// A node and a plain replica that take the same messages: how often they weren't the same, and which replies came.
#[derive(Drop)]
struct Both {
    node: Node<MemDisk>,
    plain: plain_node::Node,
    number: u32,
    near: u16,
    same: u32,
    came: [bool; 11],
}

impl Both {
    fn new(alloc: Global, seed: u32) -> Result<Both, Fail> {
        Ok(Both {
            node: Node::fresh(alloc)?,
            plain: plain_node::Node::new(alloc),
            number: seed,
            near: 1,
            same: 0,
            came: [false; 11],
        })
    }

    // Both take the next message.
    fn turn(&mut self, alloc: Global) -> Result<(), Fail> {
        self.number = next(self.number);
        let promised = self.plain.promised().min(250) as u8;
        let turn = chosen(self.number, promised, self.near);
        let answer = answer_of(alloc, &mut self.node, turn)?;
        let plain = plain_answer(alloc, &mut self.plain, turn)?;
        self.note(answer, plain);
        Ok(())
    }

    fn note(&mut self, answer: [u64; 5], plain: [u64; 5]) {
        if answer == plain && status_of(&self.node) == plain_status(&self.plain) {
            self.same = self.same.saturating_add(1);
        }
        self.near = behind(plain, self.near);
        if let Some(came) = self.came.get_mut(plain[0] as usize) {
            *came = true;
        }
    }
}

// After how many of so many messages a node is as a plain replica is, and which replies came.
fn same_after(alloc: Global, seed: u32, count: u32) -> Result<(u32, [bool; 11]), Fail> {
    let mut both = Both::new(alloc, seed)?;
    for _ in 0..count {
        both.turn(alloc)?;
    }
    Ok((both.same, both.came))
}

#[test]
fn a_node_does_what_a_plain_replica_does(rt: HostRuntime) -> Result<(), Fail> {
    for seed in [1, 2] {
        assert!(rt;
            same_after(rt.alloc(), seed, 200)? == (200, [true; 11]),
            "from {seed}"
        );
    }
    Ok(())
}
