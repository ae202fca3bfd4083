use crate::clients::fresh_clients;
use crate::servers::idle_servers;
use crate::system::System;
use crate::tally::Row;
use net_model::{Cluster, Event, Outcome, Pool};
use proto_model::Crashing;
use session_register::MemRegister;
use std::alloc::{AllocError, Global};
use std::marker::Model;

/// The world of a schedule: nodes, servers and clients of a cluster, the register, and the envelopes that were sent.
#[derive(Drop)]
pub struct World<R: Crashing + Drop> {
    system: System<R>,
    /// Of each session that was won, by which the one log is found.
    rows: Vec<Row>,
    stepped: u32,
    spent: bool,
}

impl<R: Crashing + Drop> Model for World<R> {
    ghost use Rattle.std.specs.Prelude.{◌≡◌, false};
    ghost use Rattle.std.specs.Coded.{codes};
    ghost use Rattle.world_core.specs.Kept.{KeptWorld, application_code};
    ghost use Rattle.world_core.specs.Fit.{IsWhole};

    ghost Value = { KeptWorld R };

    ghost coded = { Prim.hlevel (codes, application_code) };

    ghost view = { λ w. record { system = w.system; rows = w.rows.items; stepped = w.stepped; spent = w.spent } };

    ghost invariant = { λ w. w.spent ≡ false → IsWhole R.is_faultless R.shown w.stepped w.system w.rows.items };
}

impl<R: Crashing + Drop> World<R> {
    ghost use Rattle.std.specs.Prelude.{◌≡◌, ◌<◌, ◌+◌, ℕ, List, [], map, length, IfOk, OnOk, OnErr, true, false, Err, alloc_error};
    ghost use Rattle.std.specs.List.{AllByRecursion};
    ghost use Rattle.proto_model.specs.Replicas.{fresh_replica};
    ghost use Rattle.net_model.specs.Clusters.{IsClusterInRange};
    ghost use Rattle.net_model.specs.Events.{IsInRange};
    ghost use Rattle.world_law.specs.Worlds.{start};
    ghost use Rattle.world_core.specs.Fit.{IsFresh, IsWhole, max_events};
    ghost use Rattle.world_core.specs.Stepping.{IsShownBy, LeadsTo};

    /// The world before the first event, over fresh nodes without faults.
    pub fn new(alloc: Global, cluster: Cluster, nodes: Vec<R>) -> Result<World<R>, AllocError>
        requires cluster { IsClusterInRange cluster }
        requires nodes { length nodes.items ≡ cluster.nodes }
        requires fresh { AllByRecursion (IsFresh R.state R.files R.is_faultless R.shown) nodes.items }
        ensures start { IfOk result (λ world. IsShownBy R.state R.files world (start cluster)) }
        ensures cluster { IfOk result (λ world. world.system.cluster ≡ cluster) }
        ensures nodes { IfOk result (λ world. world.system.nodes ≡ nodes.items) }
        ensures stepped { IfOk result (λ world. world.stepped ≡ 0) }
        ensures spent { IfOk result (λ world. world.spent ≡ false) }
        ensures whole { IfOk result (λ world. IsWhole R.is_faultless R.shown world.stepped world.system world.rows) }
    {
        let servers = idle_servers(alloc, cluster)?;
        let clients = fresh_clients(alloc, cluster)?;
        Ok(World {
            system: System {
                alloc,
                cluster,
                register: MemRegister::new(0),
                kept: [None; 9],
                nodes,
                servers,
                clients,
                pool: Pool::new(alloc),
            },
            rows: Vec::new(alloc),
            stepped: 0,
            spent: false,
        })
    }

    /// The cluster that it was made of.
    pub fn cluster(&self) -> Cluster
        ensures { result ≡ self.now.system.cluster }
    {
        self.system.cluster
    }

    /// One step of the world. After want of memory the world is spent: every further step answers it and changes nothing.
    pub fn step(&mut self, e: &Event) -> Result<Outcome, AllocError>
        requires in_range { IsInRange self.old.system.cluster e.now }
        requires few { self.old.stepped < max_events }
        ensures step { IfOk result (LeadsTo R.state R.files self.old self.new e.now) }
        ensures cluster { OnOk result (self.new.system.cluster ≡ self.old.system.cluster) }
        ensures stepped { OnOk result (self.new.stepped ≡ self.old.stepped + 1) }
        ensures going { OnOk result (self.new.spent ≡ false) }
        ensures whole { OnOk result (IsWhole R.is_faultless R.shown self.new.stepped self.new.system self.new.rows) }
        ensures spends { OnErr result (self.new.spent ≡ true) }
        ensures spent { self.old.spent ≡ true → (result ≡ Err alloc_error) × (self.new ≡ self.old) }
    {
        if self.spent {
            return Err(AllocError);
        }
        self.spent = true;
        let outcome = self.system.take(&self.rows, e)?;
        self.system.note(&mut self.rows)?;
        self.spent = false;
        self.stepped += 1;
        Ok(outcome)
    }
}
