ghost use Rattle.std.specs.Prelude.{◌≡◌, ◌≤◌, IfOk};
ghost use Rattle.proto_model.specs.Servers.{idle_server};
ghost use Rattle.partition_server.specs.Held.{config_of, state_of};

use partition_server::Server;
use proto_model::{FromNode, FromServer, Phase, ToNode, ToServer};
use server_loop::{Driven, Host};
use std::alloc::{AllocError, Global};
use std::marker::Model;

/// The partition's server, as its command drives it. It knows how much the nodes lack.
#[derive(Drop)]
pub struct Machine {
    server: Server,
    nodes: u8,
}

impl Model for Machine {
    ghost use Rattle.partition_server.specs.Held.{Held};
    ghost use Rattle.server_host.specs.Machines.{IsMachine};

    ghost Value = { Held };

    ghost view = { λ m. m.server };

    ghost invariant = { λ m. IsMachine m.server m.nodes };
}

impl Machine {
    /// An idle server of so many nodes, with a lock table of so many rows and slots in each.
    pub fn new(alloc: Global, nodes: u8, rows: u8, slots: u32) -> Result<Machine, AllocError>
        requires some_nodes { 1 ≤ nodes }
        requires few_nodes { nodes ≤ 7 }
        requires some_rows { 1 ≤ rows }
        requires few_rows { rows ≤ 8 }
        requires some_slots { 1 ≤ slots }
        requires few_slots { slots ≤ 4096 }
        ensures value { IfOk result (λ m. state_of m ≡ idle_server) }
        ensures config { IfOk result (λ m. config_of m ≡
            record { nodes = nodes; rows = rows; slots = slots }) }
    {
        let server = Server::new(alloc, nodes, rows, slots)?;
        Ok(Machine { server, nodes })
    }
}

impl Driven for Machine {
    ghost use Rattle.partition_server.specs.Held.{config_of, state_of};
    ghost use Rattle.server_host.specs.Lacking.{lack_of};
    ghost use Rattle.server_host.specs.Bounds.{lack_bound};

    ghost config = { λ m. config_of m };

    ghost state = { λ m. state_of m };

    ghost lack = { λ m. lack_of (state_of m) };

    ghost bound = { λ m. lack_bound (state_of m) };

    fn nodes(&self) -> u8 {
        self.nodes
    }

    fn last(&self) -> u64 {
        self.server.last()
    }

    fn is_closed(&self) -> bool {
        match self.server.phase() {
            Phase::Closed(_) => true,
            Phase::Idle => false,
            Phase::Opening => false,
            Phase::Fetching => false,
            Phase::Repairing => false,
            Phase::Running => false,
        }
    }

    fn next_for(&self, node: u8) -> Result<Option<ToNode>, AllocError> {
        self.server.next_for(node)
    }

    fn receive(&mut self, node: u8, m: FromNode) -> Result<(), AllocError> {
        match self.server.receive(node, m) {
            Ok(_) => Ok(()),
            Err(_) => Err(AllocError),
        }
    }
}

impl Host for Machine {
    fn drew(&mut self, session: u64) {
        self.server.drew(session)
    }

    fn phase(&self) -> Phase {
        self.server.phase()
    }

    fn committed(&self) -> u64 {
        self.server.committed()
    }

    fn serve(&mut self, m: ToServer) -> Result<Option<FromServer>, AllocError> {
        self.server.serve(&m)
    }
}
