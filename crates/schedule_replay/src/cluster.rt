//! The world of a whole cluster, whose nodes keep their files on disks in memory.
ghost use Rattle.std.specs.Prelude.{◌≡◌, IfOk, length};
ghost use Rattle.std.specs.List.{AllByRecursion};
ghost use Rattle.world_core.specs.Fit.{IsFresh};

use crate::play::Play;
use disk_model::MemDisk;
use net_model::{Cluster, Event, Outcome};
use proto_model::Replica;
use std::alloc::{AllocError, Global};
use storage_node::Node;
use world_core::World;

/// So many nodes over empty disks.
pub fn fresh_nodes(alloc: Global, count: u8) -> Result<Vec<Node<MemDisk>>, AllocError>
    ensures size { IfOk result (λ nodes. length nodes.items ≡ count) }
    ensures fresh { IfOk result (λ nodes. AllByRecursion (IsFresh ⟦<Node<MemDisk> as Replica>⟧.state ⟦<Node<MemDisk> as Replica>⟧.files
        ⟦<Node<MemDisk> as Replica>⟧.is_faultless ⟦<Node<MemDisk> as Replica>⟧.shown) nodes.items) }
{
    let mut nodes = Vec::new(alloc);
    for i in 0..count {
        let Ok(node) = Node::fresh(alloc) else {
            return Err(AllocError);
        };
        nodes.push(node)?;
    }
    Ok(nodes)
}

impl Play for World<Node<MemDisk>> {
    ghost use Rattle.disk_model.specs.MemDisk.{mem_history};
    ghost use Rattle.storage_node.specs.Standing.{node-stands};
    ghost use Rattle.schedule_replay.specs.Seen.{IsSeenAs, seen-stands};

    ghost shows = { IsSeenAs ⟦<Node<MemDisk> as Replica>⟧.state ⟦<Node<MemDisk> as Replica>⟧.files
        ⟦<Node<MemDisk> as Replica>⟧.is_faultless ⟦<Node<MemDisk> as Replica>⟧.shown };

    ghost cluster_of = { λ world. world.system.cluster };

    ghost steps = { λ world. world.stepped };

    ghost standing = { seen-stands ⟦<Node<MemDisk> as Replica>⟧.state ⟦<Node<MemDisk> as Replica>⟧.files
        ⟦<Node<MemDisk> as Replica>⟧.is_faultless ⟦<Node<MemDisk> as Replica>⟧.shown
        (λ r it. (node-stands (mem_history r.store.disk).now r.store r.shown (r.shows it.1.1) (r.standing tt it.1.1)).1) };

    fn new(alloc: Global, cluster: Cluster) -> Result<World<Node<MemDisk>>, AllocError> {
        let nodes = fresh_nodes(alloc, cluster.nodes)?;
        World::new(alloc, cluster, nodes)
    }

    fn cluster(&self) -> Cluster {
        World::cluster(self)
    }

    fn step(&mut self, event: &Event) -> Result<Outcome, AllocError> {
        World::step(self, event)
    }
}
