use net_model::{Cluster, Event, Outcome};
use std::alloc::{AllocError, Global};

/// A world that makes a step at each event.
pub trait Play: Drop {
    ghost use Rattle.std.specs.Prelude.{◌≡◌, ◌<◌, ◌≤◌, ◌+◌, ℕ, IfOk, OnOk};
    ghost use Rattle.net_model.specs.Clusters.{IsClusterInRange};
    ghost use Rattle.net_model.specs.Events.{IsInRange};
    ghost use Rattle.net_model.specs.declared.cluster.Cluster.{Cluster as ClusterValue};
    ghost use Rattle.world_law.specs.Worlds.{WorldState, start};
    ghost use Rattle.world_law.specs.Runs.{HasFiles};
    ghost use Rattle.world_core.specs.Fit.{max_events};
    ghost use Rattle.schedule_replay.specs.Plays.{Leads, StandFor};

    /// The worlds that it may be seen as.
    ghost shows: { Self → WorldState → Type 0 };

    /// How large it is.
    ghost cluster_of: { Self → ClusterValue };

    /// How many events it has had at most.
    ghost steps: { Self → ℕ };

    /// The world before the first event.
    fn new(alloc: Global, cluster: Cluster) -> Result<Self, AllocError>
        requires { IsClusterInRange cluster }
        ensures shown { IfOk result (λ play. shows play (start cluster)) }
        ensures cluster { IfOk result (λ play. cluster_of play ≡ cluster) }
        ensures fresh { IfOk result (λ play. steps play ≡ 0) };

    fn cluster(&self) -> Cluster
        ensures { result ≡ cluster_of self.now };

    /// The step of an event. Of a world that ran out of memory nothing is promised.
    fn step(&mut self, event: &Event) -> Result<Outcome, AllocError>
        requires in_range { IsInRange (cluster_of self.old) event.now }
        requires few { steps self.old < max_events }
        ensures leads { IfOk result (Leads (shows self.old) (shows self.new) event.now) }
        ensures cluster { OnOk result (cluster_of self.new ≡ cluster_of self.old) }
        ensures count { OnOk result (steps self.new ≤ steps self.old + 1) };

    /// The files of each of its nodes stand for the node's state.
    ghost standing: { (p : Self) → (w : WorldState) → shows p w → HasFiles StandFor w };
}
