ghost use Rattle.std.specs.Prelude.{◌≡◌, ◌≢◌, ◌≤◌, ◌<◌, true, [], map, length, IfOk, OnOk, OnErr};
ghost use Rattle.std.specs.List.{AllByRecursion};
ghost use Rattle.tx_model.specs.Spelling.{IsCount};
ghost use Rattle.proto_model.specs.Servers.{is_active, is_heard, takes_ack, after_ack, ack_answers, after_low, after_records, after_report, after_staged, after_stale, received, received_answers, server_after, server_answers, session_of};
ghost use Rattle.proto_model.specs.Validity.{IsValidFromNode, IsValidFromServer};
ghost use Rattle.lock_table.specs.Tables.{table_shape, TableStandsFor};
ghost use Rattle.quorum_append.specs.Kept.{kept_with};
ghost use Rattle.partition_server.specs.Held.{config_of, state_of};
ghost use Rattle.partition_server.specs.Answers.{addressed};
ghost use Rattle.partition_server.specs.Faults.{AddsOrAnswers};

use super::Server;
use lock_table::LockTable;
use proto_model::{FromNode, FromServer, Phase, Report};
use quorum_append::Acks;
use std::alloc::AllocError;
use tx_model::Batch;

impl Server {
    // Opened.
    fn report(&mut self, report: Report)
        requires some { 1 ≤ report.node }
        requires within { report.node ≤ (config_of self.old).nodes }
        requires active { is_active (state_of self.old).phase ≡ true }
        requires count { IsCount report.length }
        ensures value { state_of self.new ≡
            after_report (config_of self.old) (state_of self.old) report }
        ensures config { config_of self.new ≡ config_of self.old }
    {
        self.nodes.report(report);
    }

    // Records.
    fn extend(&mut self, node: u8, batch: Batch) -> Result<(), AllocError>
        ensures ok { OnOk result (state_of self.new ≡
            after_records (config_of self.old) (state_of self.old) node batch) }
        ensures config { config_of self.new ≡ config_of self.old }
        ensures err { OnErr result (self.new ≡ self.old) }
        ensures memory { OnErr result (length self.old.log <
            length (after_records (config_of self.old) (state_of self.old) node batch).log) }
    {
        if !self
            .nodes
            .takes_records(self.log.len(), node, batch.first())
        {
            return Ok(());
        }
        self.log.extend(batch, self.nodes.chosen_len())?;
        self.nodes.fetched(self.log.len());
        Ok(())
    }

    // Staged and StageAt.
    fn stage(&mut self, node: u8, upto: u64)
        requires { node ≤ (config_of self.old).nodes }
        ensures value { state_of self.new ≡ after_staged (state_of self.old) node upto }
        ensures config { config_of self.new ≡ config_of self.old }
    {
        self.nodes.progress(node, upto);
    }

    // Adopted and Acked.
    fn acknowledge(&mut self, node: u8, upto: u64) -> Result<Vec<(u64, FromServer)>, AllocError>
        requires some { 1 ≤ node }
        requires within { node ≤ (config_of self.old).nodes }
        ensures answers { IfOk result (λ answers. answers.items ≡ map addressed
            (ack_answers (config_of self.old) (state_of self.old) node upto)) }
        ensures ok { OnOk result (state_of self.new ≡
            after_ack (config_of self.old) (state_of self.old) node upto) }
        ensures config { config_of self.new ≡ config_of self.old }
        ensures err { OnErr result (self.new ≡ self.old) }
        ensures memory { OnErr result
            (ack_answers (config_of self.old) (state_of self.old) node upto ≢ []) }
    {
        if !self.nodes.takes_ack(self.log.len(), node, upto) {
            return Ok(Vec::new(self.alloc));
        }
        let mut acks = self.acks;
        acks.ack(node, upto);
        let answers = self.waiting.due(self.alloc, acks.mark())?;
        self.keep(node, upto, acks);
        Ok(answers)
    }

    // Keeps what the nodes acknowledged, this node so much now. With a quorum of adopted nodes the server runs.
    fn keep(&mut self, node: u8, upto: u64, acks: Acks)
        requires within { node ≤ (config_of self.old).nodes }
        requires takes { takes_ack (config_of self.old) (state_of self.old) node upto ≡ true }
        requires acks { acks ≡ kept_with node upto self.old.kept }
        ensures value { state_of self.new ≡
            after_ack (config_of self.old) (state_of self.old) node upto }
        ensures config { config_of self.new ≡ config_of self.old }
    {
        let before = self.nodes.phase();
        self.nodes.adopted(node);
        self.acks = acks;
        self.waiting.settle(acks.mark());
        start_locks(
            &mut self.locks,
            before,
            self.nodes.phase(),
            self.nodes.chosen_len(),
        );
    }

    // LowSet.
    fn lower(&mut self, node: u8, low: u64)
        requires { node ≤ (config_of self.old).nodes }
        ensures value { state_of self.new ≡
            after_low (config_of self.old) (state_of self.old) node low }
        ensures config { config_of self.new ≡ config_of self.old }
    {
        if self.nodes.has_adopted(node) && low <= self.committed() {
            self.nodes.lower(node, low);
        }
    }

    // Stale.
    fn close(&mut self, session: u64, promised: u64)
        requires { IsCount promised }
        ensures value { state_of self.new ≡ after_stale (state_of self.old) session promised }
        ensures config { config_of self.new ≡ config_of self.old }
    {
        if session < promised {
            self.nodes.close(promised);
            self.waiting.clear();
        }
    }

    fn hears(&self, m: &FromNode) -> bool
        ensures { result ≡ is_heard (state_of self.now) m.now }
    {
        !matches!(self.nodes.phase(), Phase::Idle | Phase::Closed(_))
            && session_of(m) == self.nodes.session()
    }

    /// Takes a reply of a node. The answers to the requests whose records it makes committed are returned, each with its
    /// client's number, in the order of their ids. Memory is wanted only where it adds records, or where answers are due.
    pub fn receive(&mut self, node: u8, m: FromNode) -> Result<Vec<(u64, FromServer)>, AllocError>
        requires some { 1 ≤ node }
        requires within { node ≤ (config_of self.old).nodes }
        requires valid { IsValidFromNode m }
        ensures answers { IfOk result (λ answers. answers.items ≡ map addressed
            (server_answers (config_of self.old) (state_of self.old) node m)) }
        ensures valid { IfOk result (λ answers.
            AllByRecursion (λ a. IsValidFromServer a.1) answers.items) }
        ensures ok { OnOk result (state_of self.new ≡
            server_after (config_of self.old) (state_of self.old) node m) }
        ensures config { config_of self.new ≡ config_of self.old }
        ensures err { OnErr result (self.new ≡ self.old) }
        ensures memory { OnErr result (AddsOrAnswers (state_of self.old)
            (server_after (config_of self.old) (state_of self.old) node m)
            (server_answers (config_of self.old) (state_of self.old) node m)) }
    {
        if !self.hears(&m) {
            return Ok(Vec::new(self.alloc));
        }
        self.take_reply(node, m)
    }

    // Takes a reply in the server's session.
    fn take_reply(&mut self, node: u8, m: FromNode) -> Result<Vec<(u64, FromServer)>, AllocError>
        requires some { 1 ≤ node }
        requires within { node ≤ (config_of self.old).nodes }
        requires active { is_active (state_of self.old).phase ≡ true }
        requires valid { IsValidFromNode m }
        ensures answers { IfOk result (λ answers. answers.items ≡ map addressed
            (received_answers (config_of self.old) (state_of self.old) node m)) }
        ensures ok { OnOk result (state_of self.new ≡
            received (config_of self.old) (state_of self.old) node m) }
        ensures config { config_of self.new ≡ config_of self.old }
        ensures err { OnErr result (self.new ≡ self.old) }
        ensures memory { OnErr result (AddsOrAnswers (state_of self.old)
            (received (config_of self.old) (state_of self.old) node m)
            (received_answers (config_of self.old) (state_of self.old) node m)) }
    {
        match m {
            FromNode::Opened(_, adopted, low, length) => self.report(Report {
                node,
                adopted,
                low,
                length,
            }),
            FromNode::Stale(session, promised) => self.close(session, promised),
            FromNode::Records(_, batch) => self.extend(node, batch)?,
            FromNode::Staged(_, upto) => self.stage(node, upto),
            FromNode::StageAt(_, next) => {
                if next >= 1 {
                    self.stage(node, next - 1);
                }
            }
            FromNode::Adopted(_, length) => return self.acknowledge(node, length),
            FromNode::Acked(_, length) => return self.acknowledge(node, length),
            FromNode::LowSet(_, low) => self.lower(node, low),
            FromNode::Unopened(_, _) | FromNode::Gap(_, _) | FromNode::NotAdopted(_, _) => {}
        }
        Ok(Vec::new(self.alloc))
    }
}

// The session of the message that this answers.
fn session_of(m: &FromNode) -> u64
    ensures { result ≡ session_of m.now }
{
    match m {
        FromNode::Opened(session, _, _, _)
        | FromNode::Stale(session, _)
        | FromNode::Unopened(session, _)
        | FromNode::Records(session, _)
        | FromNode::Staged(session, _)
        | FromNode::StageAt(session, _)
        | FromNode::Adopted(session, _)
        | FromNode::Acked(session, _)
        | FromNode::Gap(session, _)
        | FromNode::NotAdopted(session, _)
        | FromNode::LowSet(session, _) => *session,
    }
}

// Where the server begins to run, all locks have the recovered mark.
fn start_locks(locks: &mut LockTable, before: Phase, after: Phase, recovered: u64)
    ensures shape { table_shape locks.new ≡ table_shape locks.old }
    ensures kept { before ≡ Phase.Running → locks.new ≡ locks.old }
    ensures begun { before ≡ Phase.Repairing → after ≡ Phase.Running →
        TableStandsFor locks.new recovered [] }
{
    if matches!(before, Phase::Repairing) && matches!(after, Phase::Running) {
        locks.reset(recovered);
    }
}
