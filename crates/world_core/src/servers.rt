ghost use Rattle.std.specs.Prelude.{◌≡◌, ◌≤◌, ◌+◌, List, map, length, option_to_list, IfOk, IfSome, OnOk};
ghost use Rattle.std.specs.List.{AllByRecursion};
ghost use Rattle.tx_model.specs.Records.{IsPlace};
ghost use Rattle.proto_model.specs.Tables.{put};
ghost use Rattle.proto_model.specs.Servers.{idle_server, drawn, server_after, server_answers};
ghost use Rattle.proto_model.specs.Serving.{served_after, served_answers};
ghost use Rattle.proto_model.specs.Sending.{next_messages};
ghost use Rattle.proto_model.specs.Validity.{HasPlace, IsValidFromNode};
ghost use Rattle.partition_server.specs.Held.{state_of};
ghost use Rattle.partition_server.specs.Answers.{addressed as addressed_to};
ghost use Rattle.net_model.specs.Clusters.{IsClusterInRange};
ghost use Rattle.world_law.specs.Worlds.{config_of};
ghost use Rattle.world_law.specs.Steps.{envelope_from};
ghost use Rattle.world_law.specs.Outcomes.{server_outcome};
ghost use Rattle.world_core.specs.Kept.{servers_of};
ghost use Rattle.world_core.specs.Fit.{HasConfig, AreFit, waiting_at};

use net_model::{Cluster, Envelope, Mail, Outcome, Party};
use partition_server::Server;
use proto_model::{FromNode, FromServer, Phase, ToNode, ToServer};
use std::alloc::{AllocError, Global};

/// The servers of a cluster before the first event.
pub(crate) fn idle_servers(alloc: Global, cluster: Cluster) -> Result<Vec<Server>, AllocError>
    requires { IsClusterInRange cluster }
    ensures size { IfOk result (λ servers. length servers.items ≡ cluster.servers) }
    ensures idle { IfOk result (λ servers. AllByRecursion (λ server. state_of server ≡ idle_server) servers.items) }
    ensures configs { IfOk result (λ servers. AllByRecursion (HasConfig cluster) servers.items) }
{
    let mut servers = Vec::new(alloc);
    for i in 0..cluster.servers {
        let _number = i;
        servers.push(Server::new(alloc, cluster.nodes, cluster.rows, cluster.slots)?)?;
    }
    Ok(servers)
}

/// A server begins a session that it won.
pub(crate) fn draw(servers: &mut Vec<Server>, cluster: Cluster, v: u8, session: u64)
    requires server { (1 ≤ v) × (v ≤ length servers.old.items) }
    requires session { IsPlace session }
    requires configs { AllByRecursion (HasConfig cluster) servers.old.items }
    ensures servers { servers_of (map state_of servers.new.items) ≡ put (servers_of (map state_of servers.old.items)) v (drawn session) }
    ensures size { length servers.new.items ≡ length servers.old.items }
    ensures configs { AllByRecursion (HasConfig cluster) servers.new.items }
    ensures few { waiting_at servers.new.items ≤ waiting_at servers.old.items }
{
    let server = &mut servers[v as usize - 1];
    server.drew(session);
}

/// A server starts again, and knows nothing.
pub(crate) fn restart_server(
    alloc: Global,
    servers: &mut Vec<Server>,
    cluster: Cluster,
    v: u8,
) -> Result<(), AllocError>
    requires server { (1 ≤ v) × (v ≤ length servers.old.items) }
    requires range { IsClusterInRange cluster }
    requires configs { AllByRecursion (HasConfig cluster) servers.old.items }
    ensures servers { OnOk result (servers_of (map state_of servers.new.items) ≡ put (servers_of (map state_of servers.old.items)) v idle_server) }
    ensures size { length servers.new.items ≡ length servers.old.items }
    ensures configs { AllByRecursion (HasConfig cluster) servers.new.items }
    ensures few { waiting_at servers.new.items ≤ waiting_at servers.old.items }
{
    let idle = Server::new(alloc, cluster.nodes, cluster.rows, cluster.slots)?;
    let server = &mut servers[v as usize - 1];
    *server = idle;
    Ok(())
}

/// Hands a node's reply to a server. It gives the answers that became due, each with its client.
pub(crate) fn hear(
    alloc: Global,
    servers: &mut Vec<Server>,
    cluster: Cluster,
    v: u8,
    node: u8,
    m: &FromNode,
) -> Result<Vec<(u64, FromServer)>, AllocError>
    requires server { (1 ≤ v) × (v ≤ length servers.old.items) }
    requires node { (1 ≤ node) × (node ≤ cluster.nodes) }
    requires valid { IsValidFromNode m.now }
    requires configs { AllByRecursion (HasConfig cluster) servers.old.items }
    ensures servers { OnOk result (servers_of (map state_of servers.new.items) ≡ put (servers_of (map state_of servers.old.items)) v
        (server_after (config_of cluster) (servers_of (map state_of servers.old.items) v) node m.now)) }
    ensures answers { IfOk result (λ answers. answers.items ≡ map addressed_to
        (server_answers (config_of cluster) (servers_of (map state_of servers.old.items) v) node m.now)) }
    ensures size { length servers.new.items ≡ length servers.old.items }
    ensures configs { AllByRecursion (HasConfig cluster) servers.new.items }
    ensures few { IfOk result (λ answers. waiting_at servers.new.items + length answers.items ≤ waiting_at servers.old.items) }
{
    let m = m.copy(alloc)?;
    let server = &mut servers[v as usize - 1];
    let answers = server.receive(node, m)?;
    Ok(answers)
}

/// Hands a client's request to a server. It gives the answer, if there is one at once.
pub(crate) fn serve(
    servers: &mut Vec<Server>,
    cluster: Cluster,
    v: u8,
    m: &ToServer,
) -> Result<Option<FromServer>, AllocError>
    requires server { (1 ≤ v) × (v ≤ length servers.old.items) }
    requires configs { AllByRecursion (HasConfig cluster) servers.old.items }
    ensures servers { OnOk result (servers_of (map state_of servers.new.items) ≡ put (servers_of (map state_of servers.old.items)) v
        (served_after (config_of cluster) (servers_of (map state_of servers.old.items) v) m.now)) }
    ensures answer { IfOk result (λ answer. option_to_list answer ≡
        served_answers (config_of cluster) (servers_of (map state_of servers.old.items) v) m.now) }
    ensures placed { IfOk result (λ answer. IfSome answer HasPlace) }
    ensures size { length servers.new.items ≡ length servers.old.items }
    ensures configs { AllByRecursion (HasConfig cluster) servers.new.items }
    ensures few { IfOk result (λ answer. waiting_at servers.new.items + length (option_to_list answer) ≤ waiting_at servers.old.items + 1) }
{
    let server = &mut servers[v as usize - 1];
    let answer = server.serve(m)?;
    Ok(answer)
}

// A server's messages as envelopes.
fn addressed(alloc: Global, v: u8, messages: Vec<(u8, ToNode)>) -> Result<Vec<Envelope>, AllocError>
    ensures made { IfOk result (λ made. made.items ≡ map (envelope_from v) messages.items) }
{
    let mut made = Vec::new(alloc);
    for (node, m) in messages {
        made.push(Envelope {
            from: Party::Server(v),
            to: Party::Node(node),
            message: Mail::ToNode(m),
        })?;
    }
    Ok(made)
}

/// A server's next messages, in the order of the nodes.
pub(crate) fn messages(
    alloc: Global,
    servers: &Vec<Server>,
    cluster: Cluster,
    v: u8,
) -> Result<Vec<Envelope>, AllocError>
    requires server { (1 ≤ v) × (v ≤ length servers.now.items) }
    requires configs { AllByRecursion (HasConfig cluster) servers.now.items }
    ensures made { IfOk result (λ made. made.items ≡ map (envelope_from v)
        (next_messages (config_of cluster) (servers_of (map state_of servers.now.items) v) cluster.nodes)) }
    ensures fit { IfOk result (λ made. AreFit made.items) }
{
    let server = &servers[v as usize - 1];
    let sent = server.tick()?;
    let made = addressed(alloc, v, sent)?;
    Ok(made)
}

/// What is shown of a server.
pub(crate) fn show_server(servers: &Vec<Server>, cluster: Cluster, v: u8) -> Outcome
    requires server { (1 ≤ v) × (v ≤ length servers.now.items) }
    requires configs { AllByRecursion (HasConfig cluster) servers.now.items }
    ensures { result ≡ server_outcome v (config_of cluster) (servers_of (map state_of servers.now.items) v) }
{
    let server = &servers[v as usize - 1];
    match server.phase() {
        Phase::Idle => Outcome::Idle(v),
        phase => Outcome::Server(
            v,
            phase,
            server.session(),
            server.last(),
            server.committed(),
        ),
    }
}
