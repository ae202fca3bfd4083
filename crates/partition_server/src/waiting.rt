ghost use Rattle.std.specs.Prelude.{◌≡◌, ◌≢◌, ◌≤◌, ◌<◌, ◌-◌, ◌++◌, ◌∷◌, [], map, drop, take, length, slice_get, Some, IfOk, OnOk, OnErr};
ghost use Rattle.proto_model.specs.Servers.{Waiting, is_due, waits_on};
ghost use Rattle.partition_server.specs.Waits.{WaitUpTo};
ghost use Rattle.partition_server.specs.Answers.{addressed};

use indexmap::IndexMap;
use proto_model::FromServer;
use std::alloc::{AllocError, Global};
use std::marker::Model;

/// Who asked, and the number of the request.
#[derive(Clone, Copy)]
struct Asker {
    client: u64,
    request: u64,
}

/// The requests that wait for their records to be committed, in the order of the records' ids, of which none is left
/// out.
#[derive(Drop)]
pub struct WaitingRequests {
    // The id before the first one's.
    before: u64,
    by_id: IndexMap<u64, Asker>,
}

impl Model for WaitingRequests {
    ghost use Rattle.std.specs.Prelude.{List};
    ghost use Rattle.proto_model.specs.Servers.{Waiting};
    ghost use Rattle.partition_server.specs.ById.{waiting_by, AreById};

    ghost Value = { List Waiting };

    ghost view = { waiting_by };

    ghost invariant = { AreById };
}

impl WaitingRequests {
    pub fn new(alloc: Global) -> WaitingRequests
        ensures { result ≡ [] }
    {
        WaitingRequests {
            before: 0,
            by_id: IndexMap::new(alloc),
        }
    }

    pub fn clear(&mut self)
        ensures { self.new ≡ [] }
    {
        self.before = 0;
        self.by_id.clear();
    }

    /// Adds a request for the record after those of the others.
    pub fn add(&mut self, id: u64, client: u64, request: u64) -> Result<(), AllocError>
        requires some { 1 ≤ id }
        requires next { WaitUpTo (id - 1) self.old }
        ensures ok { OnOk result
            (self.new ≡ self.old ++ record { id = id; client = client; request = request } ∷ []) }
        ensures err { OnErr result (self.new ≡ self.old) }
    {
        match self.by_id.insert(id, Asker { client, request }) {
            Ok(_) => {}
            Err(_) => return Err(AllocError),
        }
        self.before = id - self.by_id.len() as u64;
        Ok(())
    }

    // How many requests are for records up to an id.
    fn count_due(&self, mark: u64) -> u64
        ensures front { is_due mark self.now ≡ take result self.now }
        ensures rest { waits_on mark self.now ≡ drop result self.now }
        ensures within { result ≤ length self.now }
    {
        mark.saturating_sub(self.before)
            .min(self.by_id.len() as u64)
    }

    // The answer to the request at a place, once its record is committed.
    fn answer(&self, place: u64) -> (u64, FromServer)
        requires { place < length self.now }
        ensures { (w : Waiting) → slice_get self.now place ≡ Some w → result ≡ addressed w }
    {
        let id = self.before + 1 + place;
        match self.by_id.get(&id) {
            Some(asker) => (asker.client, FromServer::Committed(asker.request, id)),
            None => unreachable!(),
        }
    }

    // Takes the first request out.
    fn drop_first(&mut self)
        requires { 0 < length self.old }
        ensures { self.new ≡ drop 1 self.old }
    {
        let id = self.before + 1;
        self.by_id.swap_remove(&id);
        self.before = id;
    }

    /// The answers to the requests whose records are committed at a mark, each with its client's number.
    pub fn due(&self, alloc: Global, mark: u64) -> Result<Vec<(u64, FromServer)>, AllocError>
        ensures ok { IfOk result (λ due. due.items ≡ map addressed (is_due mark self.now)) }
        ensures memory { OnErr result (is_due mark self.now ≢ []) }
    {
        let mut due = Vec::new(alloc);
        for place in 0..self.count_due(mark) {
            due.push(self.answer(place))?;
        }
        Ok(due)
    }

    // Takes the requests out whose records are committed at a mark.
    pub fn settle(&mut self, mark: u64)
        ensures { self.new ≡ waits_on mark self.old }
    {
        for _ in 0..self.count_due(mark) {
            self.drop_first();
        }
    }
}
