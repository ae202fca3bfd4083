ghost use Rattle.std.specs.Prelude.{◌≡◌, ◌≢◌, ◌≤◌, ◌<◌, ◌==◌, max, nat_le, if◌then◌else◌, true, false, length, slice_index, slice_index_or, ℕ, Some, IfSome, IfNone};
ghost use Rattle.proto_model.specs.declared.message.Phase.TheVariants.{Fetching};
ghost use Rattle.proto_model.specs.Choices.{recovery_choice, IsChosen};
ghost use Rattle.proto_model.specs.Quorums.{count, quorum};
ghost use Rattle.proto_model.specs.Servers.{after_report, after_staged, chosen_len, begun, drawn, has_fetched, idle_server, length_of, takes_ack, takes_records};
ghost use Rattle.proto_model.specs.Sending.{chosen_message, fetching_message, next_message};
ghost use Rattle.proto_model.specs.Tables.{put};
ghost use Rattle.session_recovery.specs.Known.{column, nothing_else, config_of, server_of, Rest};
ghost use Rattle.session_recovery.specs.Drafts.{drafted, AreThere};

use crate::Draft;
use crate::choice::{length_of, phase_fetched, phase_reported, recovery_choice};
use proto_model::{Phase, Report, ToNode};
use std::marker::Model;

/// What a server knows of the nodes of its session: their reports, and how far each one has come to have the chosen
/// log. The log itself is kept elsewhere.
#[derive(Drop)]
pub struct Nodes {
    nodes: u8,
    session: u64,
    phase: Phase,
    // So many of the places hold reports, in the order in which they came.
    heard: u8,
    reports: [Report; 8],
    // Of each node, at the place of its number.
    reported: [bool; 8],
    staged: [u64; 8],
    lows: [u64; 8],
    adopted: [bool; 8],
}

impl Model for Nodes {
    ghost use Rattle.session_recovery.specs.Known.{Known};
    ghost use Rattle.session_recovery.specs.KnownBy.{known_by, AreNodes};

    ghost Value = { Known };

    ghost view = { known_by };

    ghost invariant = { AreNodes };
}

impl Nodes {
    /// So many nodes, none of which has reported to this session.
    pub fn new(session: u64, nodes: u8) -> Nodes
        requires { (1 ≤ nodes) × (nodes ≤ 7) }
        ensures value { server_of result nothing_else ≡ drawn session }
        ensures nodes { result.nodes ≡ nodes }
    {
        let none = Report {
            node: 0,
            adopted: 0,
            low: 0,
            length: 0,
        };
        Nodes {
            nodes,
            session,
            phase: Phase::Opening,
            heard: 0,
            reports: [none; 8],
            reported: [false; 8],
            staged: [0; 8],
            lows: [0; 8],
            adopted: [false; 8],
        }
    }

    /// So many nodes, and no session.
    pub fn idle(nodes: u8) -> Nodes
        requires { (1 ≤ nodes) × (nodes ≤ 7) }
        ensures value { server_of result nothing_else ≡ idle_server }
        ensures nodes { result.nodes ≡ nodes }
    {
        let mut idle = Nodes::new(0, nodes);
        idle.phase = Phase::Idle;
        idle
    }

    /// How many nodes there are.
    pub fn count(&self) -> u8
        ensures { result ≡ self.now.nodes }
    {
        self.nodes
    }

    pub fn session(&self) -> u64
        ensures { result ≡ self.now.session }
    {
        self.session
    }

    pub fn phase(&self) -> Phase
        ensures { result ≡ self.now.phase }
    {
        self.phase
    }

    /// Takes a report, unless its node reported before, or adopted a log of this session or a later one.
    pub fn report(&mut self, r: Report)
        requires { (1 ≤ r.node) × (r.node ≤ self.old.nodes) }
        ensures value { (rest : Rest) → server_of self.new rest ≡
            after_report (config_of self.old) (server_of self.old rest) r }
        ensures nodes { self.new.nodes ≡ self.old.nodes }
    {
        let at = r.node as usize;
        if self.reported[at] || r.adopted >= self.session {
            return;
        }
        self.reports[self.heard as usize] = r;
        self.heard += 1;
        self.reported[at] = true;
        self.staged[at] = r.low;
        self.lows[at] = r.low;
        let choice = recovery_choice(self.nodes, &self.reports[..self.heard as usize]);
        self.phase = phase_reported(choice, self.phase);
    }

    /// The chosen report: of the first quorum the greatest by (adopted, length), of equal ones that of the least node.
    /// There is none before a quorum reported.
    pub fn chosen(&self) -> Option<Report>
        ensures value { result ≡ recovery_choice (quorum self.now.nodes) self.now.reports }
        ensures chosen { IfSome result (λ choice.
            IsChosen (quorum self.now.nodes) self.now.reports choice) }
        ensures early { IfNone result (length self.now.reports < quorum self.now.nodes) }
    {
        recovery_choice(self.nodes, &self.reports[..self.heard as usize])
    }

    /// The length of the chosen log, 0 before the choice.
    pub fn chosen_len(&self) -> u64
        ensures { result ≡ length_of (recovery_choice (quorum self.now.nodes) self.now.reports) }
    {
        length_of(self.chosen())
    }

    /// Whether records of a node, from this id on, follow the log that is fetched and has this length so far.
    pub fn takes_records(&self, last: u64, node: u8, first: u64) -> bool
        ensures { (rest : Rest) → length rest.log ≡ last →
            result ≡ takes_records (config_of self.now) (server_of self.now rest) node first }
    {
        if !matches!(self.phase, Phase::Fetching) {
            return false;
        }
        match self.chosen() {
            Some(report) => report.node == node && last < first && first - last == 1,
            None => false,
        }
    }

    /// So many records of the chosen log are there.
    pub fn fetched(&mut self, length: u64)
        ensures value { (rest : Rest) → server_of self.new rest ≡ record (server_of self.old rest) {
          phase = if length == chosen_len (config_of self.old) (server_of self.old rest)
              then Phase.Repairing else Phase.Fetching;
        } }
        ensures nodes { self.new.nodes ≡ self.old.nodes }
    {
        self.phase = phase_fetched(length, self.chosen_len());
    }

    /// A node has staged the chosen log up to this id. It changes nothing where the node has not reported, or has
    /// adopted.
    pub fn progress(&mut self, node: u8, upto: u64)
        requires { node ≤ self.old.nodes }
        ensures value { (rest : Rest) → server_of self.new rest ≡
            after_staged (server_of self.old rest) node upto }
        ensures nodes { self.new.nodes ≡ self.old.nodes }
    {
        let at = node as usize;
        if self.reported[at] && !self.adopted[at] {
            self.staged[at] = upto;
        }
    }

    /// Whether a node is taken at its word that says how much of the log it has, which has this length.
    pub fn takes_ack(&self, last: u64, node: u8, len: u64) -> bool
        requires { node ≤ self.now.nodes }
        ensures { (rest : Rest) → length rest.log ≡ last →
            result ≡ takes_ack (config_of self.now) (server_of self.now rest) node len }
    {
        matches!(self.phase, Phase::Repairing | Phase::Running)
            && self.reported[node as usize]
            && self.chosen_len() <= len
            && len <= last
    }

    /// A node adopted the chosen log. With a quorum of such nodes the server is running.
    pub fn adopted(&mut self, node: u8)
        requires { node ≤ self.old.nodes }
        ensures value { (rest : Rest) → server_of self.new rest ≡ begun (config_of self.old)
            (record (server_of self.old rest) {
              adopted = put (column false self.old.adopted) node true;
            }) }
        ensures nodes { self.new.nodes ≡ self.old.nodes }
    {
        self.adopted[node as usize] = true;
        if adopters(self.nodes, &self.adopted) > self.nodes / 2 {
            self.phase = Phase::Running;
        }
    }

    /// Whether a quorum of nodes adopted.
    pub fn done(&self) -> bool
        ensures { result ≡ nat_le (quorum self.now.nodes)
            (count (column false self.now.adopted) self.now.nodes) }
    {
        adopters(self.nodes, &self.adopted) > self.nodes / 2
    }

    /// Whether a node adopted.
    pub fn has_adopted(&self, node: u8) -> bool
        requires { node ≤ self.now.nodes }
        ensures { result ≡ column false self.now.adopted node }
    {
        self.adopted[node as usize]
    }

    /// A node's low-water mark, as far as is known.
    pub fn low(&self, node: u8) -> u64
        requires { node ≤ self.now.nodes }
        ensures { result ≡ column 0 self.now.lows node }
    {
        self.lows[node as usize]
    }

    /// A node raised its low-water mark to this one, unless it is higher already.
    pub fn lower(&mut self, node: u8, low: u64)
        requires { node ≤ self.old.nodes }
        ensures value { (rest : Rest) → server_of self.new rest ≡ record (server_of self.old rest) {
          low = put (column 0 self.old.lows) node (max (column 0 self.old.lows node) low);
        } }
        ensures nodes { self.new.nodes ≡ self.old.nodes }
    {
        let at = node as usize;
        self.lows[at] = self.lows[at].max(low);
    }

    /// A node promised this later session.
    pub fn close(&mut self, session: u64)
        ensures value { (rest : Rest) → server_of self.new rest ≡ record (server_of self.old rest) {
          phase = Phase.Closed session;
        } }
        ensures nodes { self.new.nodes ≡ self.old.nodes }
    {
        self.phase = Phase::Closed(session);
    }

    // To a node that reported, while the chosen log is fetched.
    fn fetching_draft(&self, last: u64, node: u8) -> Option<Draft>
        requires reported { slice_index_or self.now.reported node false ≡ true }
        requires short { last < chosen_len (config_of self.now) (server_of self.now nothing_else) }
        ensures value { (rest : Rest) → length rest.log ≡ last →
            drafted (config_of self.now) (server_of self.now rest) node result ≡
            fetching_message (config_of self.now) (server_of self.now rest) node }
        ensures there { IfSome result (AreThere last) }
        ensures other { result ≢ Some Draft.Adopted }
    {
        match self.chosen() {
            Some(report) => {
                if report.node == node {
                    let most = (report.length - last).min(8);
                    let m = ToNode::Fetch(self.session, last + 1, most as u8);
                    return Some(Draft::Message(m));
                }
                None
            }
            None => None,
        }
    }

    // To a node that reported, once the chosen log is there.
    fn repair_draft(&self, node: u8) -> Draft
        requires within { node ≤ self.now.nodes }
        requires reported { slice_index_or self.now.reported node false ≡ true }
        ensures value { (rest : Rest) →
            drafted (config_of self.now) (server_of self.now rest) node (Some result) ≡
            chosen_message (config_of self.now) (server_of self.now rest) node }
        ensures there { (last : ℕ) →
            chosen_len (config_of self.now) (server_of self.now nothing_else) ≤ last →
            AreThere last result }
        ensures adopted { result ≡ Draft.Adopted → column false self.now.adopted node ≡ true }
    {
        let at = node as usize;
        if self.adopted[at] {
            return Draft::Adopted;
        }
        let chosen_len = self.chosen_len();
        let staged = self.staged[at];
        if staged < chosen_len {
            return Draft::Stage(staged, chosen_len);
        }
        Draft::Message(ToNode::Adopt(self.session, chosen_len))
    }

    /// The next message for a node, where the log has this length.
    pub fn next_for(&self, last: u64, node: u8) -> Option<Draft>
        requires within { node ≤ self.now.nodes }
        requires short { self.now.phase ≡ Fetching →
            last < chosen_len (config_of self.now) (server_of self.now nothing_else) }
        requires long { has_fetched self.now.phase ≡ true →
            chosen_len (config_of self.now) (server_of self.now nothing_else) ≤ last }
        ensures value { (rest : Rest) → length rest.log ≡ last →
            drafted (config_of self.now) (server_of self.now rest) node result ≡
            next_message (config_of self.now) (server_of self.now rest) node }
        ensures there { IfSome result (AreThere last) }
        ensures adopted { result ≡ Some Draft.Adopted → column false self.now.adopted node ≡ true }
    {
        if matches!(self.phase, Phase::Idle | Phase::Closed(_)) {
            return None;
        }
        if !self.reported[node as usize] {
            return Some(Draft::Message(ToNode::Open(self.session)));
        }
        match self.phase {
            Phase::Fetching => self.fetching_draft(last, node),
            Phase::Repairing | Phase::Running => Some(self.repair_draft(node)),
            _ => None,
        }
    }
}

// How many nodes adopted.
fn adopters(nodes: u8, adopted: &[bool; 8]) -> u8
    requires { nodes ≤ 7 }
    ensures { result ≡ count (column false adopted.now) nodes }
{
    let mut adopters = 0;
    for node in 1..nodes + 1 {
        if adopted[node as usize] {
            adopters += 1;
        }
    }
    adopters
}
