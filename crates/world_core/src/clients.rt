ghost use Rattle.std.specs.Prelude.{◌≡◌, ◌≤◌, ◌⊎◌, List, map, length, Some, None, IfOk, IfErr, OnOk, OnErr};
ghost use Rattle.std.specs.List.{AllByRecursion};
ghost use Rattle.proto_model.specs.Tables.{put};
ghost use Rattle.client_core.specs.Clients.{fresh_client, client_step, built, after_build, next_ask};
ghost use Rattle.client_core.specs.States.{client_state};
ghost use Rattle.client_core.specs.Building.{build_refusal};
ghost use Rattle.proto_model.specs.Validity.{HasPlace};
ghost use Rattle.net_model.specs.Clusters.{IsClusterInRange};
ghost use Rattle.world_law.specs.Steps.{rebooted};
ghost use Rattle.world_law.specs.Outcomes.{app_outcome};
ghost use Rattle.world_core.specs.Kept.{clients_of};
ghost use Rattle.world_core.specs.Fit.{AreNumbered};

use client_core::Client;
use kv_app::{App, KvApp};
use net_model::{AppText, Cluster, Outcome};
use proto_model::{BuildFault, FromServer, ToServer};
use std::alloc::{AllocError, Global};
use tx_model::{Lock, Tx};

/// The clients of a cluster before the first event.
pub(crate) fn fresh_clients(
    alloc: Global,
    cluster: Cluster,
) -> Result<Vec<Client<KvApp>>, AllocError>
    requires { IsClusterInRange cluster }
    ensures size { IfOk result (λ clients. length clients.items ≡ cluster.clients) }
    ensures fresh { IfOk result (λ clients. AllByRecursion (λ client. client_state client ≡ fresh_client) clients.items) }
    ensures numbers { IfOk result (λ clients. AreNumbered 1 clients.items) }
{
    let mut clients = Vec::new(alloc);
    for i in 0..cluster.clients {
        let app = KvApp::new(alloc);
        let client = Client::new(alloc, i as u64 + 1, 1, app);
        clients.push(client)?;
    }
    Ok(clients)
}

/// A client starts again: it is at mark 0 with an empty application, and its requests are numbered on.
pub(crate) fn reboot_client(alloc: Global, clients: &mut Vec<Client<KvApp>>, c: u8)
    requires client { (1 ≤ c) × (c ≤ length clients.old.items) }
    requires numbers { AreNumbered 1 clients.old.items }
    ensures clients { clients_of (map client_state clients.new.items) ≡
        put (clients_of (map client_state clients.old.items)) c (rebooted (clients_of (map client_state clients.old.items) c)) }
    ensures size { length clients.new.items ≡ length clients.old.items }
    ensures numbers { AreNumbered 1 clients.new.items }
{
    let client = &mut clients[c as usize - 1];
    let request = client.request();
    let app = KvApp::new(alloc);
    let fresh = Client::new(alloc, c as u64, request, app);
    *client = fresh;
}

/// Hands a server's answer to a client, and gives the client's mark after it.
pub(crate) fn take(
    clients: &mut Vec<Client<KvApp>>,
    c: u8,
    m: &FromServer,
) -> Result<u64, AllocError>
    requires client { (1 ≤ c) × (c ≤ length clients.old.items) }
    requires place { HasPlace m.now }
    requires numbers { AreNumbered 1 clients.old.items }
    ensures clients { OnOk result (clients_of (map client_state clients.new.items) ≡
        put (clients_of (map client_state clients.old.items)) c (client_step (clients_of (map client_state clients.old.items) c) m.now)) }
    ensures mark { IfOk result (λ mark. mark ≡ (client_step (clients_of (map client_state clients.old.items) c) m.now).mark) }
    ensures size { length clients.new.items ≡ length clients.old.items }
    ensures numbers { AreNumbered 1 clients.new.items }
{
    let client = &mut clients[c as usize - 1];
    client.receive(m)?;
    Ok(client.mark())
}

/// A client builds a transaction.
pub(crate) fn build(
    clients: &mut Vec<Client<KvApp>>,
    c: u8,
    writes: Vec<Lock>,
    reads: Vec<Lock>,
    ops: &[u8],
) -> Result<Tx, BuildFault>
    requires client { (1 ≤ c) × (c ≤ length clients.old.items) }
    requires numbers { AreNumbered 1 clients.old.items }
    ensures clients { OnOk result (clients_of (map client_state clients.new.items) ≡
        put (clients_of (map client_state clients.old.items)) c (after_build (clients_of (map client_state clients.old.items) c))) }
    ensures built { IfOk result (λ tx. tx ≡ built (clients_of (map client_state clients.old.items) c) c writes.items reads.items ops.now) }
    ensures buildable { OnOk result (build_refusal (clients_of (map client_state clients.old.items) c) writes.items reads.items ops.now ≡ None) }
    ensures cause { IfErr result (λ fault. (fault ≡ BuildFault.Memory)
        ⊎ (build_refusal (clients_of (map client_state clients.old.items) c) writes.items reads.items ops.now ≡ Some fault)) }
    ensures refused { OnErr result (clients_of (map client_state clients.new.items) ≡ clients_of (map client_state clients.old.items)) }
    ensures size { length clients.new.items ≡ length clients.old.items }
    ensures numbers { AreNumbered 1 clients.new.items }
{
    let client = &mut clients[c as usize - 1];
    match client.build(writes, reads, ops) {
        Ok(tx) => Ok(tx),
        Err(fault) => Err(fault),
    }
}

/// What a client asks next.
pub(crate) fn next_ask(clients: &Vec<Client<KvApp>>, c: u8) -> ToServer
    requires { (1 ≤ c) × (c ≤ length clients.now.items) }
    ensures { result ≡ next_ask (clients_of (map client_state clients.now.items) c) }
{
    let client = &clients[c as usize - 1];
    client.next_ask()
}

/// What a client's application holds.
pub(crate) fn show_app(clients: &Vec<Client<KvApp>>, c: u8) -> Result<Outcome, AllocError>
    requires { (1 ≤ c) × (c ≤ length clients.now.items) }
    ensures { IfOk result (λ outcome. outcome ≡ app_outcome c (clients_of (map client_state clients.now.items) c)) }
{
    let client = &clients[c as usize - 1];
    let text = client.app().text()?;
    Ok(Outcome::App(c, client.mark(), AppText::new(text)))
}
