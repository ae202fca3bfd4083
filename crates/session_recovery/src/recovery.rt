ghost use Rattle.std.specs.Prelude.{◌≡◌, ◌≤◌, ◌<◌, nat_le, true, length, take, drop, IfOk, IfSome, IfNone, OnOk, OnErr};
ghost use Rattle.tx_model.specs.Records.{IsPlace};
ghost use Rattle.tx_model.specs.Spelling.{IsCount};
ghost use Rattle.proto_model.specs.declared.message.FromNode.TheVariants.{Adopted, Opened, Records, Staged};
ghost use Rattle.proto_model.specs.Choices.{IsChosen};
ghost use Rattle.proto_model.specs.Quorums.{count, quorum};
ghost use Rattle.proto_model.specs.Servers.{chosen, commit_mark, drawn, server_after};
ghost use Rattle.proto_model.specs.Sending.{next_message};
ghost use Rattle.proto_model.specs.Validity.{IsValidToNode};
ghost use Rattle.session_recovery.specs.Recovering.{config_of, state_of};

use crate::{Draft, Nodes};
use proto_model::{Report, ToNode};
use std::alloc::{AllocError, Global};
use std::marker::Model;
use tx_model::{Batch, Record};

/// A session's recovery. Of the first quorum of nodes that report, one is chosen. Its log is fetched, staged at the nodes
/// and adopted by them, and with a quorum of adopters the recovery is done.
#[derive(Drop)]
pub struct Recovery {
    alloc: Global,
    nodes: Nodes,
    // The chosen log, as far as it was fetched.
    log: Vec<Record>,
    // What each node acknowledged, at the place of its number.
    acked: [u64; 8],
}

impl Model for Recovery {
    ghost use Rattle.session_recovery.specs.Recovering.{Recovering};
    ghost use Rattle.session_recovery.specs.RecoveredBy.{recovered_by, IsRecovery};

    ghost Value = { Recovering };

    ghost view = { recovered_by };

    ghost invariant = { IsRecovery };
}

impl Recovery {
    /// The recovery of a session, of which no node knows yet.
    pub fn new(alloc: Global, session: u64, nodes: u8) -> Recovery
        requires nodes { (1 ≤ nodes) × (nodes ≤ 7) }
        requires session { IsPlace session }
        ensures value { state_of result ≡ drawn session }
        ensures nodes { (config_of result).nodes ≡ nodes }
    {
        Recovery {
            alloc,
            nodes: Nodes::new(session, nodes),
            log: Vec::new(alloc),
            acked: [0; 8],
        }
    }

    /// A node was opened, and this is its report.
    pub fn report(&mut self, r: Report)
        requires node { (1 ≤ r.node) × (r.node ≤ (config_of self.old).nodes) }
        requires count { IsCount r.length }
        ensures value { state_of self.new ≡
            server_after (config_of self.old) (state_of self.old) r.node
            (Opened (state_of self.old).session r.adopted r.low r.length) }
        ensures config { config_of self.new ≡ config_of self.old }
    {
        self.nodes.report(r);
    }

    /// The chosen report: of the first quorum the greatest by (adopted, length), of equal ones that of the least node.
    /// There is none before a quorum reported.
    pub fn chosen(&self) -> Option<Report>
        ensures value { result ≡ chosen (config_of self.now) (state_of self.now) }
        ensures chosen { IfSome result (λ choice.
            IsChosen (quorum (config_of self.now).nodes) (state_of self.now).reports choice) }
        ensures early { IfNone result
            (length (state_of self.now).reports < quorum (config_of self.now).nodes) }
    {
        self.nodes.chosen()
    }

    /// Records of a node came. Those of the chosen log are added, where they follow what is there.
    pub fn fetched(&mut self, from: u8, b: Batch) -> Result<(), AllocError>
        ensures value { OnOk result (state_of self.new ≡
            server_after (config_of self.old) (state_of self.old) from
            (Records (state_of self.old).session b)) }
        ensures config { config_of self.new ≡ config_of self.old }
        ensures err { OnErr result (self.new ≡ self.old) }
        ensures memory { OnErr result (length (state_of self.old).log <
            length (server_after (config_of self.old) (state_of self.old) from
            (Records (state_of self.old).session b)).log) }
    {
        let last = self.log.len() as u64;
        if !self.nodes.takes_records(last, from, b.first()) {
            return Ok(());
        }
        let most = self.nodes.chosen_len() - last;
        let mut records = b.into_records();
        records.truncate(most as usize);
        self.log.append(&mut records)?;
        self.nodes.fetched(self.log.len() as u64);
        Ok(())
    }

    /// A node has staged the chosen log up to this id.
    pub fn progress(&mut self, node: u8, upto: u64)
        requires { (1 ≤ node) × (node ≤ (config_of self.old).nodes) }
        ensures value { state_of self.new ≡
            server_after (config_of self.old) (state_of self.old) node
            (Staged (state_of self.old).session upto) }
        ensures config { config_of self.new ≡ config_of self.old }
    {
        self.nodes.progress(node, upto);
    }

    /// A node says that it adopted a log of this length, which counts where it is the chosen one's.
    pub fn adopted(&mut self, node: u8, len: u64)
        requires { (1 ≤ node) × (node ≤ (config_of self.old).nodes) }
        ensures value { state_of self.new ≡
            server_after (config_of self.old) (state_of self.old) node
            (Adopted (state_of self.old).session len) }
        ensures config { config_of self.new ≡ config_of self.old }
    {
        if self.nodes.takes_ack(self.log.len() as u64, node, len) {
            let at = node as usize;
            self.acked[at] = self.acked[at].max(len);
            self.nodes.adopted(node);
        }
    }

    /// Whether a quorum of nodes adopted.
    pub fn done(&self) -> bool
        ensures { result ≡ nat_le (quorum (config_of self.now).nodes)
            (count (state_of self.now).adopted (config_of self.now).nodes) }
    {
        self.nodes.done()
    }

    // The whole log once a quorum has it, and before that nothing.
    fn committed(&self) -> u64
        ensures { result ≡ commit_mark (config_of self.now) (state_of self.now) }
    {
        if self.done() {
            self.log.len() as u64
        } else {
            0
        }
    }

    // To a node that lacks records of the chosen log.
    fn stage_message(&self, from: u64, upto: u64) -> Result<ToNode, AllocError>
        requires some { from < upto }
        requires within { upto ≤ length self.now.log }
        ensures { IfOk result (λ m. m ≡ ToNode.Stage (state_of self.now).session
            (take 8 (drop from (take upto self.now.log)))) }
    {
        let batch = Batch::after(self.alloc, &self.log[..upto as usize], from)?;
        Ok(ToNode::Stage(self.nodes.session(), batch))
    }

    // To a node that has adopted.
    fn low_message(&self, node: u8) -> Option<ToNode>
        requires within { node ≤ (config_of self.now).nodes }
        requires adopted { (state_of self.now).adopted node ≡ true }
        ensures { result ≡ next_message (config_of self.now) (state_of self.now) node }
    {
        let committed = self.committed();
        if self.nodes.low(node) < committed {
            return Some(ToNode::Low(self.nodes.session(), committed));
        }
        None
    }

    /// The next message for a node, if there is one. It changes nothing: the same message is sent again, until a reply
    /// comes that makes it needless.
    pub fn next_for(&self, node: u8) -> Result<Option<ToNode>, AllocError>
        requires { (1 ≤ node) × (node ≤ (config_of self.now).nodes) }
        ensures value { IfOk result (λ m.
            m ≡ next_message (config_of self.now) (state_of self.now) node) }
        ensures valid { IfOk result (λ m. IfSome m IsValidToNode) }
    {
        match self.nodes.next_for(self.log.len() as u64, node) {
            None => Ok(None),
            Some(Draft::Message(m)) => Ok(Some(m)),
            Some(Draft::Stage(from, upto)) => {
                let m = self.stage_message(from, upto)?;
                Ok(Some(m))
            }
            Some(Draft::Adopted) => Ok(self.low_message(node)),
        }
    }
}
