ghost use Rattle.std.specs.Prelude.{◌≡◌, ◌≤◌, ◌<◌, ◌∷◌, [], List, ℕ, None, length, slice_index_or};
ghost use Rattle.proto_model.specs.Quorums.{count, quorum, reached};
ghost use Rattle.quorum_append.specs.Acknowledgements.{Ack, IsCommitMark, has_acked};
ghost use Rattle.quorum_append.specs.Kept.{Kept, AreKept, AreKeptWithin, nothing_kept, kept_with, has_kept, length_kept};

use std::marker::Model;

/// What each of up to seven nodes acknowledged: of each node the greatest length.
#[derive(Clone, Copy)]
pub struct Acks {
    nodes: u8,
    // by node, the first of which has the number 1
    lens: [Option<u64>; 8],
}

impl Model for Acks {
    ghost Value = { Kept };

    ghost view = { λ a. record { nodes = a.nodes; lens = a.lens } };

    ghost inverse = { λ k. record { nodes = k.nodes; lens = k.lens } };

    ghost invariant = { λ a. (1 ≤ a.nodes) × (a.nodes ≤ 7) × (length a.lens ≡ 8) };
}

impl Acks {
    /// No node of so many has acknowledged anything.
    pub fn new(nodes: u8) -> Acks
        requires { (1 ≤ nodes) × (nodes ≤ 7) }
        ensures value { result ≡ nothing_kept nodes }
        ensures none { AreKept [] result }
    {
        Acks {
            nodes,
            lens: [None; 8],
        }
    }

    /// A node acknowledges a log of this length. A smaller length than an earlier one of this node changes nothing.
    pub fn ack(&mut self, node: u8, len: u64)
        requires { (1 ≤ node) × (node ≤ self.old.nodes) }
        ensures value { self.new ≡ kept_with node len self.old }
        ensures added { (acks : List Ack) → AreKept acks self.old →
            AreKept (record { node = node; len = len } ∷ acks) self.new }
    {
        let at = node as usize;
        self.lens[at] = match self.lens[at] {
            Some(before) => Some(before.max(len)),
            None => Some(len),
        };
    }

    /// The greatest length that a node acknowledged, or 0.
    pub fn acked(&self, node: u8) -> u64
        requires { node ≤ self.now.nodes }
        ensures { result ≡ length_kept self.now node }
    {
        match self.lens[node as usize] {
            Some(len) => len,
            None => 0,
        }
    }

    // Whether a node acknowledged this length or more.
    fn has(&self, node: u8, k: u64) -> bool
        requires { node ≤ self.now.nodes }
        ensures { result ≡ has_kept self.now k node }
    {
        match self.lens[node as usize] {
            Some(len) => k <= len,
            None => false,
        }
    }

    /// How many nodes acknowledged this length or more.
    pub fn held(&self, k: u64) -> u8
        ensures value { result ≡ count (has_kept self.now k) self.now.nodes }
        ensures of_all { (acks : List Ack) → AreKept acks self.now →
            result ≡ count (has_acked acks k) self.now.nodes }
    {
        let mut held = 0;
        for node in 1..self.nodes + 1 {
            if self.has(node, k) {
                held += 1;
            }
        }
        held
    }

    /// The greatest length that a quorum acknowledged, or 0.
    pub fn mark(&self) -> u64
        ensures value { (bound : ℕ) → AreKeptWithin bound self.now →
            result ≡ reached self.now.nodes (has_kept self.now) bound }
        ensures of_all { (acks : List Ack) → AreKept acks self.now →
            IsCommitMark self.now.nodes acks result }
    {
        let quorum = self.nodes / 2 + 1;
        let mut mark = 0;
        for node in 1..self.nodes + 1 {
            if let Some(len) = self.lens[node as usize] {
                if mark < len && quorum <= self.held(len) {
                    mark = len;
                }
            }
        }
        mark
    }
}
