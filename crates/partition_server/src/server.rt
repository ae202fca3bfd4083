ghost use Rattle.std.specs.Prelude.{◌≡◌, ◌≤◌, ◌<◌, take, drop, length, IfOk};
ghost use Rattle.tx_model.specs.Records.{IsPlace};
ghost use Rattle.tx_model.specs.Spelling.{IsCount};
ghost use Rattle.proto_model.specs.Servers.{idle_server, drawn, commit_mark};
ghost use Rattle.partition_server.specs.Held.{config_of, state_of};

mod appends;
mod reads;
mod replies;
mod requests;
mod sending;

use crate::waiting::WaitingRequests;
use feed_service::Window;
use lock_table::LockTable;
use proto_model::Phase;
use quorum_append::Acks;
use session_recovery::Nodes;
use std::alloc::{AllocError, Global};
use std::marker::Model;
use tx_model::Batch;

/// The server of a partition. It opens a session at the nodes, chooses of a quorum's logs the one to go on with, and
/// brings it to the nodes. Once a quorum adopted it, the server assigns ids to transactions, takes the nodes'
/// acknowledgements, and shows what a quorum holds.
#[derive(Drop)]
pub struct Server {
    alloc: Global,
    // The session, its phase and the choice, and how far each node has come.
    nodes: Nodes,
    acks: Acks,
    log: Window,
    waiting: WaitingRequests,
    // While the server is running, of the log from the recovered mark on.
    locks: LockTable,
}

impl Model for Server {
    ghost use Rattle.partition_server.specs.Held.{Held};
    ghost use Rattle.partition_server.specs.Layout.{held_by, IsServer};

    ghost Value = { Held };

    ghost view = { held_by };

    ghost invariant = { IsServer };
}

impl Server {
    /// An idle server of so many nodes, with a lock table of so many rows and slots in each.
    pub fn new(alloc: Global, nodes: u8, rows: u8, slots: u32) -> Result<Server, AllocError>
        requires some_nodes { 1 ≤ nodes }
        requires few_nodes { nodes ≤ 7 }
        requires some_rows { 1 ≤ rows }
        requires few_rows { rows ≤ 8 }
        requires some_slots { 1 ≤ slots }
        requires few_slots { slots ≤ 4096 }
        ensures value { IfOk result (λ server. state_of server ≡ idle_server) }
        ensures config { IfOk result (λ server. config_of server ≡
            record { nodes = nodes; rows = rows; slots = slots }) }
    {
        let locks = LockTable::new(alloc, rows, slots, 0)?;
        Ok(Server {
            alloc,
            nodes: Nodes::idle(nodes),
            acks: Acks::new(nodes),
            log: Window::new(alloc),
            waiting: WaitingRequests::new(alloc),
            locks,
        })
    }

    pub fn phase(&self) -> Phase
        ensures { result ≡ (state_of self.now).phase }
    {
        self.nodes.phase()
    }

    /// The session that was drawn last, 0 before the first.
    pub fn session(&self) -> u64
        ensures { result ≡ (state_of self.now).session }
    {
        self.nodes.session()
    }

    /// The length of the log.
    pub fn last(&self) -> u64
        ensures { result ≡ length self.now.log }
    {
        self.log.len()
    }

    /// Copies of the records after a place, committed or not, eight at most: for one who keeps a book of the log.
    pub fn batch_after(&self, place: u64) -> Result<Batch, AllocError>
        requires { place < length self.now.log }
        ensures value { IfOk result (λ batch. batch ≡ take 8 (drop place self.now.log)) }
    {
        self.log.batch_after(place, self.log.len())
    }

    /// The length that a quorum holds.
    pub fn committed(&self) -> u64
        ensures value { result ≡ commit_mark (config_of self.now) (state_of self.now) }
        ensures within { result ≤ length self.now.log }
        ensures count { IsCount result }
    {
        self.acks.mark()
    }

    /// The server won a session, and forgets what it knew of an earlier one. Requests that wait are not answered.
    pub fn drew(&mut self, session: u64)
        requires { IsPlace session }
        ensures value { state_of self.new ≡ drawn session }
        ensures config { config_of self.new ≡ config_of self.old }
    {
        let nodes = self.nodes.count();
        self.nodes = Nodes::new(session, nodes);
        self.acks = Acks::new(nodes);
        self.log.clear();
        self.waiting.clear();
    }
}
