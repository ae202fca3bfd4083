ghost use Rattle.std.specs.Prelude.{◌≡◌, ◌∷◌, [], true, ℕ, option_to_list, IfOk, IfSome, OnOk, OnErr};
ghost use Rattle.proto_model.specs.Serving.{append_answers, append_refusal, after_append, feed_answer, flush_answer, get_answer, served_after, served_answers};
ghost use Rattle.proto_model.specs.Validity.{HasPlace, IsValidToServer, IsValidFromServer};
ghost use Rattle.partition_server.specs.Held.{config_of, state_of};
ghost use Rattle.partition_server.specs.Answers.{IsRefused, IsUnserved};
ghost use Rattle.partition_server.specs.Faults.{holds_copies, serving_takes_memory, IsValidFault};

use super::Server;
use crate::uncounted::admit_uncounted;
use crate::{AppendFault, ReadFault};
use proto_model::{FromServer, ToServer};
use std::alloc::AllocError;
use tx_model::{Heads, Tx};

impl Server {
    /// Takes a client's request. It is answered at once, except for an append that is taken, which is answered once its
    /// record is committed. Memory is wanted only for such an append, and where the answer holds heads, a record or a
    /// lock.
    pub fn serve(&mut self, m: &ToServer) -> Result<Option<FromServer>, AllocError>
        ensures answers { IfOk result (λ answer. option_to_list answer ≡
            served_answers (config_of self.old) (state_of self.old) m.now) }
        ensures after { OnOk result (state_of self.new ≡
            served_after (config_of self.old) (state_of self.old) m.now) }
        ensures valid { IsValidToServer m.now →
            IfOk result (λ answer. IfSome answer IsValidFromServer) }
        ensures placed { IfOk result (λ answer. IfSome answer HasPlace) }
        ensures config { config_of self.new ≡ config_of self.old }
        ensures kept { OnErr result (self.new ≡ self.old) }
        ensures memory { OnErr result (serving_takes_memory
            (served_answers (config_of self.old) (state_of self.old) m.now) ≡ true) }
    {
        // So what is true of every server is known below.
        let _ = &self.alloc;
        match m {
            ToServer::Append(tx) => self.take_append(tx),
            ToServer::Feed(from, max) => Ok(Some(self.answer_feed(*from, *max)?)),
            ToServer::Get(id) => Ok(Some(self.answer_get(*id)?)),
            ToServer::Flush => Ok(Some(self.answer_flush())),
        }
    }

    fn take_append(&mut self, tx: &Tx) -> Result<Option<FromServer>, AllocError>
        ensures answers { IfOk result (λ answer. option_to_list answer ≡ append_answers tx.now
            (append_refusal (config_of self.old) (state_of self.old) tx.now)) }
        ensures valid { IfOk result (λ answer. IfSome answer IsValidFromServer) }
        ensures placed { IfOk result (λ answer. IfSome answer HasPlace) }
        ensures after { OnOk result (state_of self.new ≡
            after_append (config_of self.old) (state_of self.old) tx.now) }
        ensures config { config_of self.new ≡ config_of self.old }
        ensures kept { OnErr result (self.new ≡ self.old) }
        ensures memory { OnErr result (serving_takes_memory (append_answers tx.now
            (append_refusal (config_of self.old) (state_of self.old) tx.now)) ≡ true) }
    {
        match admit_uncounted(self, tx) {
            Ok(()) => {
                let copy = tx.copy(self.alloc)?;
                self.assign(copy)?;
                Ok(None)
            }
            Err(fault) => Ok(Some(refused(tx.request(), fault)?)),
        }
    }

    fn answer_feed(&self, from: u64, max: u8) -> Result<FromServer, AllocError>
        ensures answer { IfOk result (λ answer. answer ≡
            feed_answer (config_of self.now) (state_of self.now) from max) }
        ensures placed { IfOk result HasPlace }
        ensures memory { OnErr result
            (holds_copies (feed_answer (config_of self.now) (state_of self.now) from max) ≡ true) }
    {
        match self.feed(from, max) {
            Ok((heads, committed)) => Ok(FromServer::Heads(from, committed, Heads::new(heads))),
            Err(fault) => unserved(fault),
        }
    }

    fn answer_get(&self, id: u64) -> Result<FromServer, AllocError>
        ensures answer { IfOk result (λ answer. answer ≡
            get_answer (config_of self.now) (state_of self.now) id) }
        ensures placed { IfOk result HasPlace }
        ensures memory { OnErr result
            (holds_copies (get_answer (config_of self.now) (state_of self.now) id) ≡ true) }
    {
        match self.entry(id) {
            Ok(entry) => Ok(FromServer::Entry(entry)),
            Err(fault) => unserved(fault),
        }
    }

    // It takes no memory.
    fn answer_flush(&self) -> FromServer
        ensures answer { result ≡ flush_answer (config_of self.now) (state_of self.now) }
        ensures placed { HasPlace result }
    {
        match self.shut() {
            None => FromServer::Flushed(self.committed()),
            Some(refusal) => FromServer::Unserved(refusal),
        }
    }
}

// What a client is told of an append that is not taken.
fn refused(request: u64, fault: AppendFault) -> Result<FromServer, AllocError>
    requires { IsValidFault fault }
    ensures answer { IfOk result (IsRefused fault request) }
    ensures valid { IfOk result IsValidFromServer }
    ensures placed { IfOk result HasPlace }
    ensures memory { OnErr result (fault ≡ AppendFault.Memory) }
{
    match fault.refusal() {
        Some(refusal) => Ok(FromServer::Refused(request, refusal)),
        None => Err(AllocError),
    }
}

// What a client is told of a fault.
fn unserved(fault: ReadFault) -> Result<FromServer, AllocError>
    ensures answer { IfOk result (IsUnserved fault) }
    ensures placed { IfOk result HasPlace }
    ensures memory { OnErr result (fault ≡ ReadFault.Memory) }
{
    match fault.refusal() {
        Some(refusal) => Ok(FromServer::Unserved(refusal)),
        None => Err(AllocError),
    }
}
