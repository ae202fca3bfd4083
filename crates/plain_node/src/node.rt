ghost use Rattle.std.specs.Prelude.{◌≡◌, ◌≤◌, ◌-◌, ◌++◌, length, drop, take, IfOk, OnOk, OnErr, IfNone};
ghost use Rattle.tx_model.specs.Records.{IsBatch};
ghost use Rattle.tx_model.specs.Spelling.{IsCount};
ghost use Rattle.proto_model.specs.Sanity.{request_session};
ghost use Rattle.proto_model.specs.Validity.{IsValidToNode, IsValidFromNode};
ghost use Rattle.proto_model.specs.Replicas.{fresh_replica, next_staged, replica_after, replica_reply};

use proto_model::{FromNode, ToNode};
use std::alloc::{AllocError, Global};
use std::marker::Model;
use tx_model::{Batch, Record};

/// A storage node's replica of the log, kept in memory.
#[derive(Drop)]
pub struct Node {
    alloc: Global,
    promised: u64,
    adopted: u64,
    low: u64,
    log: Vec<Record>,
    staged: Vec<Record>,
}

impl Model for Node {
    ghost use Rattle.proto_model.specs.Replicas.{ReplicaState};
    ghost use Rattle.plain_node.specs.Nodes.{IsReplica};

    ghost Value = { ReplicaState };

    ghost view = { λ n. record {
      promised = n.promised;
      adopted = n.adopted;
      low = n.low;
      log = n.log.items;
      staged = n.staged.items;
    } };

    ghost invariant = { λ n. IsReplica (record {
      promised = n.promised;
      adopted = n.adopted;
      low = n.low;
      log = n.log.items;
      staged = n.staged.items;
    }) };
}

// Copies of these records.
fn copies(alloc: Global, records: &[Record]) -> Result<Vec<Record>, AllocError>
    ensures { IfOk result (λ copies. copies.items ≡ records.now) }
{
    let mut items = Vec::with_capacity(alloc, records.len())?;
    for entry in records {
        items.push(entry.copy(alloc)?)?;
    }
    Ok(items)
}

// Adds copies of the records from this place on.
fn extend(
    alloc: Global,
    list: &mut Vec<Record>,
    records: &[Record],
    from: usize,
) -> Result<(), AllocError>
    requires { from ≤ length records.now }
    ensures ok { OnOk result (list.new.items ≡ list.old.items ++ drop from records.now) }
    ensures err { OnErr result (list.new.items ≡ list.old.items) }
{
    let (_, fresh) = records.split_at(from);
    let mut fresh = copies(alloc, fresh)?;
    list.append(&mut fresh)?;
    Ok(())
}

// The batch of these records.
fn batch_of(records: Vec<Record>) -> Batch
    requires { IsBatch records.items }
    ensures { result ≡ records.items }
{
    match Batch::new(records) {
        Ok(batch) => batch,
        Err(_) => unreachable!(),
    }
}

impl Node {
    ghost use Rattle.plain_node.specs.Nodes.{IsReplica, refusal};

    /// A node that has promised nothing and keeps no record.
    pub fn new(alloc: Global) -> Node
        ensures { result ≡ fresh_replica }
    {
        Node {
            alloc,
            promised: 0,
            adopted: 0,
            low: 0,
            log: Vec::new(alloc),
            staged: Vec::new(alloc),
        }
    }

    /// The session that the node has promised, 0 for none.
    pub fn promised(&self) -> u64
        ensures { result ≡ self.now.promised }
    {
        self.promised
    }

    /// The session whose log this is, 0 for none.
    pub fn adopted(&self) -> u64
        ensures { result ≡ self.now.adopted }
    {
        self.adopted
    }

    /// The low-water mark: so many records are known to be committed.
    pub fn low(&self) -> u64
        ensures value { result ≡ self.now.low }
        ensures valid { IsReplica self.now }
    {
        self.low
    }

    /// How many records the log has.
    pub fn length(&self) -> u64
        ensures { result ≡ length self.now.log }
    {
        self.log.len() as u64
    }

    // The id of the record to be staged next.
    fn next(&self) -> u64
        ensures { result ≡ next_staged self.now }
    {
        self.low + self.staged.len() as u64 + 1
    }

    // The reply to a message of another session than the promised one.
    fn refusal(&self, session: u64) -> Option<FromNode>
        ensures value { result ≡ refusal self.now session }
        ensures taken { IfNone result (session ≡ self.now.promised) }
    {
        if session < self.promised {
            return Some(FromNode::Stale(session, self.promised));
        }
        if self.promised < session {
            return Some(FromNode::Unopened(session, self.promised));
        }
        None
    }

    /// Takes a message, and answers it. Where memory is short the node is as it was.
    pub fn step(&mut self, m: &ToNode) -> Result<FromNode, AllocError>
        requires { IsCount (request_session m.now) }
        ensures state { OnOk result (self.new ≡ replica_after self.old m.now) }
        ensures reply { IfOk result (λ reply. reply ≡ replica_reply self.old m.now) }
        ensures valid { IsValidToNode m.now → IfOk result IsValidFromNode }
        ensures memory { OnErr result (self.new ≡ self.old) }
    {
        // So what is true of every node is known below.
        let _ = &self.alloc;
        self.take(m)
    }

    fn take(&mut self, m: &ToNode) -> Result<FromNode, AllocError>
        requires { IsCount (request_session m.now) }
        ensures state { OnOk result (self.new ≡ replica_after self.old m.now) }
        ensures reply { IfOk result (λ reply. reply ≡ replica_reply self.old m.now) }
        ensures memory { OnErr result (self.new ≡ self.old) }
    {
        match m {
            ToNode::Open(session) => Ok(self.take_open(*session)),
            ToNode::Fetch(session, from, max) => self.take_fetch(*session, *from, *max),
            ToNode::Stage(session, batch) => self.take_stage(*session, batch),
            ToNode::Adopt(session, length) => self.take_adopt(*session, *length),
            ToNode::Append(session, batch) => self.take_append(*session, batch),
            ToNode::Low(session, mark) => Ok(self.take_low(*session, *mark)),
        }
    }

    fn take_open(&mut self, session: u64) -> FromNode
        requires { IsCount session }
        ensures state { self.new ≡ replica_after self.old (ToNode.Open session) }
        ensures reply { result ≡ replica_reply self.old (ToNode.Open session) }
    {
        if session < self.promised {
            return FromNode::Stale(session, self.promised);
        }
        if self.promised < session {
            self.promised = session;
            self.staged.clear();
        }
        FromNode::Opened(session, self.adopted, self.low, self.length())
    }

    fn take_fetch(&self, session: u64, from: u64, max: u8) -> Result<FromNode, AllocError>
        ensures { IfOk result
            (λ reply. reply ≡ replica_reply self.now (ToNode.Fetch session from max)) }
    {
        if let Some(refusal) = self.refusal(session) {
            return Ok(refusal);
        }
        if from == 0 || self.length() < from || max == 0 || 8 < max {
            return Ok(FromNode::Gap(session, self.length()));
        }
        let batch = self.records(from, max)?;
        Ok(FromNode::Records(session, batch))
    }

    // The records from this id on, so many at most.
    fn records(&self, from: u64, max: u8) -> Result<Batch, AllocError>
        requires some { 1 ≤ from }
        requires within { from ≤ length self.now.log }
        requires one { 1 ≤ max }
        requires few { max ≤ 8 }
        ensures { IfOk result (λ batch. batch ≡ take max (drop (from - 1) self.now.log)) }
    {
        let (_, rest) = self.log.split_at((from - 1) as usize);
        let (part, _) = rest.split_at(rest.len().min(max as usize));
        let records = copies(self.alloc, part)?;
        Ok(batch_of(records))
    }

    fn take_stage(&mut self, session: u64, batch: &Batch) -> Result<FromNode, AllocError>
        ensures state { OnOk result
            (self.new ≡ replica_after self.old (ToNode.Stage session batch.now)) }
        ensures reply { IfOk result
            (λ reply. reply ≡ replica_reply self.old (ToNode.Stage session batch.now)) }
        ensures memory { OnErr result (self.new ≡ self.old) }
    {
        if let Some(refusal) = self.refusal(session) {
            return Ok(refusal);
        }
        if self.adopted == session {
            return Ok(FromNode::Adopted(session, self.length()));
        }
        if batch.first() != self.next() {
            return Ok(FromNode::StageAt(session, self.next()));
        }
        extend(self.alloc, &mut self.staged, batch.records(), 0)?;
        Ok(FromNode::Staged(session, self.next() - 1))
    }

    fn take_adopt(&mut self, session: u64, length: u64) -> Result<FromNode, AllocError>
        ensures state { OnOk result
            (self.new ≡ replica_after self.old (ToNode.Adopt session length)) }
        ensures reply { IfOk result
            (λ reply. reply ≡ replica_reply self.old (ToNode.Adopt session length)) }
        ensures memory { OnErr result (self.new ≡ self.old) }
    {
        if let Some(refusal) = self.refusal(session) {
            return Ok(refusal);
        }
        if self.adopted == session {
            return Ok(FromNode::Adopted(session, self.length()));
        }
        let next = self.next();
        if length != next - 1 {
            return Ok(FromNode::StageAt(session, next));
        }
        self.log.reserve(self.staged.len())?;
        self.log.truncate(self.low as usize);
        self.log.append(&mut self.staged)?;
        self.adopted = session;
        Ok(FromNode::Adopted(session, length))
    }

    fn take_append(&mut self, session: u64, batch: &Batch) -> Result<FromNode, AllocError>
        ensures state { OnOk result
            (self.new ≡ replica_after self.old (ToNode.Append session batch.now)) }
        ensures reply { IfOk result
            (λ reply. reply ≡ replica_reply self.old (ToNode.Append session batch.now)) }
        ensures memory { OnErr result (self.new ≡ self.old) }
    {
        if let Some(refusal) = self.refusal(session) {
            return Ok(refusal);
        }
        if self.adopted != session {
            return Ok(FromNode::NotAdopted(session, self.adopted));
        }
        let length = self.length();
        if length + 1 < batch.first() {
            return Ok(FromNode::Gap(session, length));
        }
        let known = (length + 1 - batch.first()) as usize;
        let records = batch.records();
        if known < records.len() {
            extend(self.alloc, &mut self.log, records, known)?;
        }
        Ok(FromNode::Acked(session, self.length()))
    }

    fn take_low(&mut self, session: u64, mark: u64) -> FromNode
        ensures state { self.new ≡ replica_after self.old (ToNode.Low session mark) }
        ensures reply { result ≡ replica_reply self.old (ToNode.Low session mark) }
    {
        if let Some(refusal) = self.refusal(session) {
            return refusal;
        }
        if self.adopted != session {
            return FromNode::NotAdopted(session, self.adopted);
        }
        if self.length() < mark {
            return FromNode::Gap(session, self.length());
        }
        self.low = self.low.max(mark);
        FromNode::LowSet(session, self.low)
    }
}
