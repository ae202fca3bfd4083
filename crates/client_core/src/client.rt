use crate::heads::{copy_heads, have_ids_from, is_head_of};
use crate::refusing::{form_fault, unlocked_key};
use kv_app::App;
use proto_model::{BuildFault, FromServer, ToServer};
use std::alloc::{AllocError, Global};
use std::collections::VecDeque;
use std::marker::Model;
use tx_model::{Head, Lock, Record, Tx};

/// So many heads are asked for at once.
const MAX_HEADS: u8 = 16;

/// A client of the log. Its mark says how many transactions its application has applied.
#[derive(Drop)]
pub struct Client<A: App> {
    alloc: Global,
    id: u64,
    mark: u64,
    heads: VecDeque<Head>,
    app: A,
    request: u64,
}

impl<A: App> Model for Client<A> {
    ghost use Rattle.std.specs.Prelude.{◌<◌, ◌≤◌, ◌^◌};
    ghost use Rattle.client_core.specs.States.{Kept};

    ghost Value = { Kept A };

    ghost view = { λ c. record {
      client = c.id;
      mark = c.mark;
      heads = c.heads.items;
      app = c.app;
      request = c.request;
    } };

    ghost invariant = { λ c. (c.mark < 2 ^ 48) × (1 ≤ c.request) };
}

impl<A: App> Client<A> {
    ghost use Rattle.std.specs.Prelude.{◌≡◌, ◌⊎◌, ◌≤◌, ◌<◌, ◌^◌, [], ◌&&◌, not, true, None, Some, IfOk, IfErr, OnOk, OnErr};
    ghost use Rattle.client_core.specs.Clients.{ClientOf, built, after_build, next_ask, takes_heads, is_none, after_heads, after_entry, applies, after_answer, moves, may_want};
    ghost use Rattle.tx_model.specs.Transactions.{IsTransaction};
    ghost use Rattle.proto_model.specs.Validity.{HasPlace, IsValidToServer};
    ghost use Rattle.client_core.specs.States.{state_of};
    ghost use Rattle.client_core.specs.Building.{form_refusal, build_refusal};

    /// A client at mark 0 that numbers its requests from this one on.
    pub fn new(alloc: Global, id: u64, request: u64, app: A) -> Client<A>
        requires { 1 ≤ request }
        ensures { result ≡ record { client = id; mark = 0; heads = []; app = app; request = request } }
    {
        Client {
            alloc,
            id,
            mark: 0,
            heads: VecDeque::new(alloc),
            app,
            request,
        }
    }

    /// So many transactions are applied.
    pub fn mark(&self) -> u64
        ensures value { result ≡ self.now.mark }
        ensures within { result < 2 ^ 48 }
    {
        self.mark
    }

    /// The number of the next request.
    pub fn request(&self) -> u64
        ensures value { result ≡ self.now.request }
        ensures some { 1 ≤ result }
    {
        self.request
    }

    pub fn app(&self) -> &A
        ensures { result.now ≡ self.now.app }
    {
        &self.app
    }

    /// What to ask a server next: for heads where none are kept, else for the record of the first one.
    pub fn next_ask(&self) -> ToServer
        ensures value { result ≡ next_ask (state_of A.state self.now) }
        ensures valid { IsValidToServer result }
    {
        let next = self.mark + 1;
        if self.heads.is_empty() {
            ToServer::Feed(next, MAX_HEADS)
        } else {
            ToServer::Get(next)
        }
    }

    /// Takes an answer of a server, and says whether the client moved: it took heads, or applied a record.
    pub fn receive(&mut self, m: &FromServer) -> Result<bool, AllocError>
        requires { HasPlace m.now }
        ensures state { OnOk result (state_of A.state self.new ≡ after_answer A.next (state_of A.state self.old) m.now) }
        ensures moved { IfOk result (λ moved. moved ≡ moves (state_of A.state self.old) m.now) }
        ensures err { OnErr result (state_of A.state self.new ≡ state_of A.state self.old) }
        ensures same { self.new.client ≡ self.old.client }

        // Memory may be wanted only where the client would move.
        ensures memory { OnErr result ((moves (state_of A.state self.old) m.now ≡ true) × (may_want A.wants m.now ≡ true)) }
    {
        match m {
            FromServer::Heads(from, _, heads) => self.keep_heads(*from, heads.items()),
            FromServer::Entry(entry) => self.apply_entry(entry),
            _ => Ok(false),
        }
    }

    // Keeps heads that go on from the mark, where none are kept.
    fn keep_heads(&mut self, from: u64, heads: &[Head]) -> Result<bool, AllocError>
        ensures state { OnOk result (state_of A.state self.new ≡ after_heads (state_of A.state self.old) from heads.now) }
        ensures moved { IfOk result (λ moved. moved ≡ (takes_heads (state_of A.state self.old) from heads.now && not (is_none heads.now))) }
        ensures err { OnErr result (state_of A.state self.new ≡ state_of A.state self.old) }
        ensures same { self.new.client ≡ self.old.client }
        ensures memory { OnErr result ((takes_heads (state_of A.state self.old) from heads.now && not (is_none heads.now)) ≡ true) }
    {
        if heads.is_empty() {
            return Ok(false);
        }
        if !self.takes_heads(from, heads) {
            return Ok(false);
        }
        self.heads = copy_heads(self.alloc, heads)?;
        Ok(true)
    }

    // Whether no heads are kept and these go on from the mark.
    fn takes_heads(&self, from: u64, heads: &[Head]) -> bool
        ensures { result ≡ takes_heads (state_of A.state self.now) from heads.now }
    {
        self.heads.is_empty() && from == self.mark + 1 && have_ids_from(from, heads)
    }

    // Applies the record that follows, where it is the one that the first head told of.
    fn apply_entry(&mut self, entry: &Record) -> Result<bool, AllocError>
        requires { entry.now.id < 2 ^ 48 }
        ensures state { OnOk result (state_of A.state self.new ≡ after_entry A.next (state_of A.state self.old) entry.now) }
        ensures moved { IfOk result (λ moved. moved ≡ applies (state_of A.state self.old) entry.now self.old.heads) }
        ensures err { OnErr result (state_of A.state self.new ≡ state_of A.state self.old) }
        ensures same { self.new.client ≡ self.old.client }
        ensures memory { OnErr result ((applies (state_of A.state self.old) entry.now self.old.heads ≡ true) × (A.wants entry.now.tx.payload ≡ true)) }
    {
        let Some(head) = self.heads.front() else {
            return Ok(false);
        };
        if entry.id != self.mark + 1 {
            return Ok(false);
        }
        if !is_head_of(head, entry) {
            self.heads.clear();
            return Ok(false);
        }
        self.app.apply(entry.tx.payload())?;
        self.heads.pop_front();
        self.mark = entry.id;
        Ok(true)
    }

    /// A transaction of this client at its mark. Each key that the ops name has to be among the write locks. Of several
    /// reasons to refuse the first is told, in the order of `BuildFault`. A refusal uses no request number.
    pub fn build(
        &mut self,
        writes: Vec<Lock>,
        reads: Vec<Lock>,
        ops: &[u8],
    ) -> Result<Tx, BuildFault>
        ensures ok { IfOk result (λ tx. tx ≡ built (state_of A.state self.old) self.old.client writes.items reads.items ops.now) }
        ensures valid { IfOk result IsTransaction }
        ensures after { OnOk result (state_of A.state self.new ≡ after_build (state_of A.state self.old)) }
        ensures same { OnOk result ((self.new.client ≡ self.old.client) × (self.new.app ≡ self.old.app)) }
        ensures err { OnErr result (self.new ≡ self.old) }

        // A refusal is told where it stands, and nothing is built. Memory may be wanted once the locks and the form of
        // the ops are known to be right.
        ensures built { OnOk result (build_refusal (state_of A.state self.old) writes.items reads.items ops.now ≡ None) }
        ensures refused { IfErr result (λ fault. (fault ≡ BuildFault.Memory)
            ⊎ (build_refusal (state_of A.state self.old) writes.items reads.items ops.now ≡ Some fault)) }
        ensures memory { result ≡ Err BuildFault.Memory → form_refusal writes.items reads.items ops.now ≡ None }
    {
        match self.refusal(&writes, &reads, ops) {
            Ok(None) => {}
            Ok(Some(fault)) => return Err(fault),
            Err(_) => return Err(BuildFault::Memory),
        }
        let Ok(tx) = self.transaction(writes, reads, ops) else {
            return Err(BuildFault::Memory);
        };
        self.request += 1;
        Ok(tx)
    }

    // Why this is not built, where that can be told though memory runs out.
    fn refusal(
        &self,
        writes: &[Lock],
        reads: &[Lock],
        ops: &[u8],
    ) -> Result<Option<BuildFault>, AllocError>
        ensures ok { IfOk result (λ refusal. refusal ≡ build_refusal (state_of A.state self.now) writes.now reads.now ops.now) }
        ensures err { OnErr result (form_refusal writes.now reads.now ops.now ≡ None) }
    {
        if let Some(fault) = form_fault(writes, reads, ops) {
            return Ok(Some(fault));
        }
        if let Some(key) = unlocked_key(self.alloc, writes, ops)? {
            return Ok(Some(BuildFault::Unlocked(key)));
        }
        if self.request == u64::MAX {
            return Ok(Some(BuildFault::LastRequest));
        }
        Ok(None)
    }

    // The transaction, where no refusal stands. So only memory can be wanting.
    fn transaction(&self, writes: Vec<Lock>, reads: Vec<Lock>, ops: &[u8]) -> Result<Tx, AllocError>
        ensures ok { IfOk result (λ tx. tx ≡ built (state_of A.state self.now) self.now.client writes.items reads.items ops.now) }
        ensures valid { IfOk result IsTransaction }
    {
        let payload = Vec::from_slice(self.alloc, ops)?;
        match Tx::new(
            self.alloc,
            self.id,
            self.request,
            self.mark,
            reads,
            writes,
            payload,
        ) {
            Ok(tx) => Ok(tx),
            Err(_) => Err(AllocError),
        }
    }
}
