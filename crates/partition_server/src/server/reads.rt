ghost use Rattle.std.specs.Prelude.{◌≡◌, ◌≢◌, ◌≤◌, [], Some, None, IfOk, IfErr, OnOk};
ghost use Rattle.tx_model.specs.Records.{IsRecord};
ghost use Rattle.tx_model.specs.Logs.{record_at};
ghost use Rattle.tx_model.specs.Spelling.{IsCount};
ghost use Rattle.proto_model.specs.Validity.{AreHeads};
ghost use Rattle.proto_model.specs.Servers.{commit_mark};
ghost use Rattle.proto_model.specs.Serving.{committed_log, feed, shut_in};
ghost use Rattle.partition_server.specs.Held.{config_of, state_of};
ghost use Rattle.partition_server.specs.Faults.{entry_refusal, feed_refusal, read_refusal_of};

use super::Server;
use crate::ReadFault;
use proto_model::{Phase, ReadRefusal};
use tx_model::{Head, Record};

impl Server {
    /// The heads of committed records from an id on, so many at most, and the committed mark. From above the committed
    /// mark there are none. A closed server shows what it had committed.
    pub fn feed(&self, from: u64, max: u8) -> Result<(Vec<Head>, u64), ReadFault>
        ensures heads { IfOk result (λ shown. shown.0.items ≡
            feed (config_of self.now) (state_of self.now) from max) }
        ensures mark { IfOk result (λ shown. shown.1 ≡
            commit_mark (config_of self.now) (state_of self.now)) }
        ensures valid { max ≤ 16 →
            IfOk result (λ shown. AreHeads from shown.0.items × IsCount shown.1) }
        ensures shown { OnOk result (feed_refusal (state_of self.now) from ≡ None) }
        ensures refused { IfErr result (λ fault.
            read_refusal_of fault ≡ feed_refusal (state_of self.now) from) }
        ensures memory { result ≡ Err ReadFault.Memory →
            feed (config_of self.now) (state_of self.now) from max ≢ [] }
    {
        self.check_id(from)?;
        let committed = self.committed();
        match self.log.heads(from, max, committed) {
            Ok(heads) => Ok((heads, committed)),
            Err(_) => Err(ReadFault::Memory),
        }
    }

    /// The committed record of an id. A closed server shows what it had committed.
    pub fn entry(&self, id: u64) -> Result<Record, ReadFault>
        ensures entry { IfOk result (λ r.
            record_at (committed_log (config_of self.now) (state_of self.now)) id ≡ Some r) }
        ensures valid { IfOk result IsRecord }
        ensures shown { OnOk result
            (entry_refusal (config_of self.now) (state_of self.now) id ≡ None) }
        ensures refused { IfErr result (λ fault. read_refusal_of fault ≡
            entry_refusal (config_of self.now) (state_of self.now) id) }
    {
        self.check_id(id)?;
        let committed = self.committed();
        if id > committed {
            return Err(ReadFault::NotYet(committed));
        }
        match self.log.entry(id) {
            Ok(Some(entry)) => Ok(entry),
            Ok(None) => unreachable!(),
            Err(_) => Err(ReadFault::Memory),
        }
    }

    /// The committed mark. It takes no memory.
    pub fn flush(&self) -> Result<u64, ReadFault>
        ensures mark { IfOk result (λ mark.
            mark ≡ commit_mark (config_of self.now) (state_of self.now)) }
        ensures valid { IfOk result IsCount }
        ensures shown { OnOk result (shut_in (state_of self.now).phase ≡ None) }
        ensures refused { IfErr result (λ fault.
            read_refusal_of fault ≡ shut_in (state_of self.now).phase) }
        ensures memory { result ≢ Err ReadFault.Memory }
    {
        match self.shut() {
            None => Ok(self.committed()),
            Some(refusal) => Err(ReadFault::of(refusal)),
        }
    }

    // Why the server shows nothing, unless it shows what is committed.
    pub(super) fn shut(&self) -> Option<ReadRefusal>
        ensures { result ≡ shut_in (state_of self.now).phase }
    {
        match self.nodes.phase() {
            Phase::Running | Phase::Closed(_) => None,
            phase => Some(ReadRefusal::NotRunning(phase)),
        }
    }

    // Whether the server shows records from this id on.
    fn check_id(&self, id: u64) -> Result<(), ReadFault>
        ensures some { OnOk result (id ≢ 0) }
        ensures ok { OnOk result (feed_refusal (state_of self.now) id ≡ None) }
        ensures err { IfErr result (λ fault.
            read_refusal_of fault ≡ feed_refusal (state_of self.now) id) }
        ensures memory { result ≢ Err ReadFault.Memory }
    {
        if let Some(refusal) = self.shut() {
            return Err(ReadFault::of(refusal));
        }
        if id == 0 {
            return Err(ReadFault::BadId);
        }
        Ok(())
    }
}
