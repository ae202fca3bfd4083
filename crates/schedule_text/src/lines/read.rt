ghost use Rattle.std.specs.Prelude.{◌≡◌, ◌≢◌, ◌↔◌, ℕ, IfOk, IfErr};
ghost use Rattle.net_model.specs.Clusters.{IsClusterInRange};
ghost use Rattle.net_model.specs.Events.{IsInRange};
ghost use Rattle.schedule_text.specs.declared.lines.form.Name.{Name as NameValue};
ghost use Rattle.schedule_text.specs.Spellings.{SpellsCluster, SpellsEvent, SpellsScript, IsEventLine, IsScriptLine, IsClusterOutOfRange, IsEventOutOfRange};
ghost use Rattle.schedule_text.specs.Places.{IsBadCluster, IsBadEvent, IsBadScript};
ghost use Rattle.schedule_text.specs.Found.{HasAny, IsFound, IsFoundInRange, IsFault};

use super::build::{cluster_of, event_of, script_of};
use super::form::{EVENTS, FIRST, Form, SCRIPT};
use super::found::{Found, first_out, read_found};
use super::place::place;
use super::{LineFault, ScriptLine};
use net_model::{Cluster, Event};
use std::alloc::Global;

// What a line in one of these forms says, where its numbers are in range. This takes no memory.
fn find<'a>(forms: &[Form], line: &'a [u8], cluster: &Cluster) -> Result<Found<'a>, LineFault>
    requires { HasAny forms.now }
    ensures ok { IfOk result (λ found.
        IsFound forms.now line.now found × IsFoundInRange cluster.now found) }
    ensures fault { IfErr result (λ fault. IsFault forms.now cluster.now line.now fault) }
{
    let Some(found) = read_found(forms, line) else {
        return Err(LineFault::Bad(place(forms, line)));
    };
    let names = found.form.row().names;
    match first_out(cluster, names, &found.numbers.values[..names.len()]) {
        Some(name) => Err(LineFault::Range(name)),
        None => Ok(found),
    }
}

// The ranges of a first line's numbers go by no cluster, and a script's line has no numbers.
const NO_CLUSTER: Cluster = Cluster {
    nodes: 0,
    servers: 0,
    clients: 0,
    rows: 0,
    slots: 0,
};

/// The cluster of a first line. This takes no memory.
pub fn read_cluster(line: &[u8]) -> Result<Cluster, LineFault>
    ensures ok { IfOk result (λ c. SpellsCluster line.now c × IsClusterInRange c) }
    ensures bad { (at : ℕ) → (result ≡ Err (LineFault.Bad at)) ↔ IsBadCluster line.now at }
    ensures range { (name : NameValue) →
        (result ≡ Err (LineFault.Range name)) ↔ IsClusterOutOfRange line.now name }
    ensures memory { result ≢ Err LineFault.Memory }
{
    match find(&FIRST, line, &NO_CLUSTER) {
        Ok(found) => Ok(cluster_of(&found)),
        Err(fault) => Err(fault),
    }
}

/// The event of a further line. A line that is none, or has a number out of range, has its fault whatever memory there is.
pub fn read_event(alloc: Global, line: &[u8], cluster: &Cluster) -> Result<Event, LineFault>
    ensures ok { IfOk result (λ event. SpellsEvent line.now event × IsInRange cluster.now event) }
    ensures bad { (at : ℕ) → (result ≡ Err (LineFault.Bad at)) ↔ IsBadEvent line.now at }
    ensures range { (name : NameValue) →
        (result ≡ Err (LineFault.Range name)) ↔ IsEventOutOfRange cluster.now line.now name }
    ensures memory { result ≡ Err LineFault.Memory → IsEventLine cluster.now line.now }
{
    // each of these is read, so that it is known to fit a byte
    let _nodes = cluster.nodes;
    let _servers = cluster.servers;
    let _clients = cluster.clients;
    let found = match find(&EVENTS, line, cluster) {
        Ok(found) => found,
        Err(fault) => return Err(fault),
    };
    match event_of(alloc, &found) {
        Ok(event) => Ok(event),
        Err(_) => Err(LineFault::Memory),
    }
}

/// The line of a client's script. A line that is none has its fault whatever memory there is.
pub fn read_script(alloc: Global, line: &[u8]) -> Result<ScriptLine, LineFault>
    ensures ok { IfOk result (λ script. SpellsScript line.now script) }
    ensures bad { (at : ℕ) → (result ≡ Err (LineFault.Bad at)) ↔ IsBadScript line.now at }
    ensures range { (name : NameValue) → result ≢ Err (LineFault.Range name) }
    ensures memory { result ≡ Err LineFault.Memory → IsScriptLine line.now }
{
    let found = match find(&SCRIPT, line, &NO_CLUSTER) {
        Ok(found) => found,
        Err(fault) => return Err(fault),
    };
    match script_of(alloc, &found) {
        Ok(script) => Ok(script),
        Err(_) => Err(LineFault::Memory),
    }
}
