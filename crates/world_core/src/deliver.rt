ghost use Rattle.std.specs.Prelude.{◌≡◌, ◌≤◌, ◌+◌, ◌∷◌, ◌++◌, [], ℕ, List, map, filter, length, IfOk, OnOk};
ghost use Rattle.std.specs.List.{AllByRecursion};
ghost use Rattle.proto_model.specs.Quorums.{is_within};
ghost use Rattle.proto_model.specs.Validity.{HasPlace, IsValidToNode, IsValidFromNode};
ghost use Rattle.partition_server.specs.Held.{state_of};
ghost use Rattle.client_core.specs.States.{client_state};
ghost use Rattle.world_core.specs.Kept.{Parties, parties_of};
ghost use Rattle.world_core.specs.Fit.{HasConfig, AreNumbered, IsFit, IsGoing, max_events, waiting_at};
ghost use Rattle.world_core.specs.Deliveries.{Delivers, is_to_client, pair_envelope, made_by, outcome_got};

use crate::clients::take;
use crate::nodes::step_node;
use crate::send::send_all;
use crate::servers::{hear, serve};
use client_core::Client;
use kv_app::KvApp;
use net_model::{Cluster, Envelope, Mail, Outcome, Party, Pool};
use partition_server::Server;
use proto_model::{Crashing, FromNode, FromServer, ToNode, ToServer};
use std::alloc::{AllocError, Global};

/// What a delivery gave.
#[derive(Drop)]
pub enum Got {
    /// These envelopes are to be sent.
    Made(Vec<Envelope>),
    /// A client got an answer, and has this mark: client, mark.
    Client(u8, u64),
}

/// Whether a number is one from 1 up to the greatest.
pub(crate) fn within(greatest: u8, number: u8) -> bool
    ensures { result ≡ is_within greatest number }
{
    1 <= number && number <= greatest
}

// One envelope.
fn one(alloc: Global, envelope: Envelope) -> Result<Vec<Envelope>, AllocError>
    ensures { IfOk result (λ made. made.items ≡ envelope ∷ []) }
{
    Ok(vec![in alloc; envelope]?)
}

// The envelopes that tell clients of the cluster of their records.
fn told(
    alloc: Global,
    cluster: Cluster,
    v: u8,
    answers: Vec<(u64, FromServer)>,
) -> Result<Vec<Envelope>, AllocError>
    ensures made { IfOk result (λ made. made.items ≡ map (pair_envelope v) (filter (is_to_client cluster.clients) answers.items)) }
    ensures few { IfOk result (λ made. length made.items ≤ length answers.items) }
{
    let mut made = Vec::new(alloc);
    for (client, answer) in answers {
        if 1 <= client && client <= u64::from(cluster.clients) {
            made.push(Envelope {
                from: Party::Server(v),
                to: Party::Client(client as u8),
                message: Mail::FromServer(answer),
            })?;
        }
    }
    Ok(made)
}

// A server's request to a node.
fn take_request<R: Crashing>(
    alloc: Global,
    cluster: Cluster,
    nodes: &mut Vec<R>,
    from: Party,
    to: Party,
    m: &ToNode,
) -> Result<Got, AllocError>
    requires size { length nodes.old.items ≡ cluster.nodes }
    requires valid { IsValidToNode m.now }
    requires going { AllByRecursion (IsGoing R.is_faultless R.shown max_events) nodes.old.items }
    ensures delivers { (p : Parties) → p.cluster ≡ cluster → p.nodes ≡ map R.state nodes.old.items → p.files ≡ map R.files nodes.old.items →
        IfOk result (Delivers p (record p { nodes = map R.state nodes.new.items; files = map R.files nodes.new.items }) from to (Mail.ToNode m.now)) }
    ensures size { length nodes.new.items ≡ length nodes.old.items }
    ensures going { (most : ℕ) → AllByRecursion (IsGoing R.is_faultless R.shown most) nodes.old.items →
        OnOk result (AllByRecursion (IsGoing R.is_faultless R.shown (most + 1)) nodes.new.items) }
    ensures few { IfOk result (λ given. length (made_by given) ≤ 1) }
{
    let Party::Node(i) = to else {
        return Ok(Got::Made(Vec::new(alloc)));
    };
    if !within(cluster.nodes, i) {
        return Ok(Got::Made(Vec::new(alloc)));
    }
    let reply = step_node(nodes, i, m)?;
    let made = one(
        alloc,
        Envelope {
            from: Party::Node(i),
            to: from,
            message: Mail::FromNode(reply),
        },
    )?;
    Ok(Got::Made(made))
}

// A node's reply to a server.
fn take_reply(
    alloc: Global,
    cluster: Cluster,
    servers: &mut Vec<Server>,
    from: Party,
    to: Party,
    m: &FromNode,
) -> Result<Got, AllocError>
    requires size { length servers.old.items ≡ cluster.servers }
    requires valid { IsValidFromNode m.now }
    requires configs { AllByRecursion (HasConfig cluster) servers.old.items }
    ensures delivers { (p : Parties) → p.cluster ≡ cluster → p.servers ≡ map state_of servers.old.items →
        IfOk result (Delivers p (record p { servers = map state_of servers.new.items }) from to (Mail.FromNode m.now)) }
    ensures size { length servers.new.items ≡ length servers.old.items }
    ensures configs { AllByRecursion (HasConfig cluster) servers.new.items }
    ensures few { IfOk result (λ given. length (made_by given) + waiting_at servers.new.items ≤ waiting_at servers.old.items) }
{
    let Party::Node(i) = from else {
        return Ok(Got::Made(Vec::new(alloc)));
    };
    let Party::Server(v) = to else {
        return Ok(Got::Made(Vec::new(alloc)));
    };
    if !within(cluster.nodes, i) {
        return Ok(Got::Made(Vec::new(alloc)));
    }
    if !within(cluster.servers, v) {
        return Ok(Got::Made(Vec::new(alloc)));
    }
    let answers = hear(alloc, servers, cluster, v, i, m)?;
    let made = told(alloc, cluster, v, answers)?;
    Ok(Got::Made(made))
}

// A client's request to a server.
fn take_wish(
    alloc: Global,
    cluster: Cluster,
    servers: &mut Vec<Server>,
    from: Party,
    to: Party,
    m: &ToServer,
) -> Result<Got, AllocError>
    requires size { length servers.old.items ≡ cluster.servers }
    requires configs { AllByRecursion (HasConfig cluster) servers.old.items }
    ensures delivers { (p : Parties) → p.cluster ≡ cluster → p.servers ≡ map state_of servers.old.items →
        IfOk result (Delivers p (record p { servers = map state_of servers.new.items }) from to (Mail.ToServer m.now)) }
    ensures size { length servers.new.items ≡ length servers.old.items }
    ensures configs { AllByRecursion (HasConfig cluster) servers.new.items }
    ensures few { IfOk result (λ given. length (made_by given) + waiting_at servers.new.items ≤ waiting_at servers.old.items + 1) }
{
    let Party::Server(v) = to else {
        return Ok(Got::Made(Vec::new(alloc)));
    };
    if !within(cluster.servers, v) {
        return Ok(Got::Made(Vec::new(alloc)));
    }
    let answer = serve(servers, cluster, v, m)?;
    match answer {
        None => Ok(Got::Made(Vec::new(alloc))),
        Some(answer) => {
            let made = one(
                alloc,
                Envelope {
                    from: Party::Server(v),
                    to: from,
                    message: Mail::FromServer(answer),
                },
            )?;
            Ok(Got::Made(made))
        }
    }
}

// A server's answer to a client.
fn take_answer(
    alloc: Global,
    cluster: Cluster,
    clients: &mut Vec<Client<KvApp>>,
    from: Party,
    to: Party,
    m: &FromServer,
) -> Result<Got, AllocError>
    requires size { length clients.old.items ≡ cluster.clients }
    requires numbers { AreNumbered 1 clients.old.items }
    requires place { HasPlace m.now }
    ensures delivers { (p : Parties) → p.cluster ≡ cluster → p.clients ≡ map client_state clients.old.items →
        IfOk result (Delivers p (record p { clients = map client_state clients.new.items }) from to (Mail.FromServer m.now)) }
    ensures size { length clients.new.items ≡ length clients.old.items }
    ensures numbers { AreNumbered 1 clients.new.items }
    ensures few { IfOk result (λ given. made_by given ≡ []) }
{
    let _from = from;
    let Party::Client(c) = to else {
        return Ok(Got::Made(Vec::new(alloc)));
    };
    if !within(cluster.clients, c) {
        return Ok(Got::Made(Vec::new(alloc)));
    }
    let mark = take(clients, c, m)?;
    Ok(Got::Client(c, mark))
}

/// Delivers an envelope to its party. A node's reply goes to who asked, and a server's answer too.
pub(crate) fn deliver<R: Crashing>(
    alloc: Global,
    cluster: Cluster,
    nodes: &mut Vec<R>,
    servers: &mut Vec<Server>,
    clients: &mut Vec<Client<KvApp>>,
    envelope: &Envelope,
) -> Result<Got, AllocError>
    requires node_count { length nodes.old.items ≡ cluster.nodes }
    requires server_count { length servers.old.items ≡ cluster.servers }
    requires client_count { length clients.old.items ≡ cluster.clients }
    requires going { AllByRecursion (IsGoing R.is_faultless R.shown max_events) nodes.old.items }
    requires configs { AllByRecursion (HasConfig cluster) servers.old.items }
    requires numbers { AreNumbered 1 clients.old.items }
    requires fit { IsFit envelope.now.message }
    ensures delivers { IfOk result (Delivers (parties_of R.state R.files cluster nodes.old.items servers.old.items clients.old.items)
        (parties_of R.state R.files cluster nodes.new.items servers.new.items clients.new.items) envelope.now.from envelope.now.to envelope.now.message) }
    ensures node_count { length nodes.new.items ≡ length nodes.old.items }
    ensures server_count { length servers.new.items ≡ length servers.old.items }
    ensures client_count { length clients.new.items ≡ length clients.old.items }
    ensures going { (most : ℕ) → AllByRecursion (IsGoing R.is_faultless R.shown most) nodes.old.items →
        OnOk result (AllByRecursion (IsGoing R.is_faultless R.shown (most + 1)) nodes.new.items) }
    ensures configs { AllByRecursion (HasConfig cluster) servers.new.items }
    ensures numbers { AreNumbered 1 clients.new.items }
    ensures few { IfOk result (λ given. length (made_by given) + waiting_at servers.new.items ≤ waiting_at servers.old.items + 1) }
{
    match &envelope.message {
        Mail::ToNode(m) => take_request(alloc, cluster, nodes, envelope.from, envelope.to, m),
        Mail::FromNode(m) => take_reply(alloc, cluster, servers, envelope.from, envelope.to, m),
        Mail::ToServer(m) => take_wish(alloc, cluster, servers, envelope.from, envelope.to, m),
        Mail::FromServer(m) => take_answer(alloc, cluster, clients, envelope.from, envelope.to, m),
    }
}

/// Sends what a delivery made, and says what came of it.
pub(crate) fn finish(alloc: Global, pool: &mut Pool, given: Got) -> Result<Outcome, AllocError>
    requires { length pool.old.sent + length (made_by given) ≤ 4294967295 }
    ensures pool { OnOk result (pool.new ≡ record pool.old { sent = pool.old.sent ++ made_by given }) }
    ensures outcome { IfOk result (λ outcome. outcome ≡ outcome_got (length pool.old.sent) given) }
{
    match given {
        Got::Made(made) => {
            let outcome = send_all(alloc, pool, made)?;
            Ok(outcome)
        }
        Got::Client(client, mark) => Ok(Outcome::Client(client, mark)),
    }
}
