ghost use Rattle.std.specs.Prelude.{◌≡◌, ◌<◌, ◌+◌, true, length, None, Err, IfOk, IfErr, OnOk, OnErr};
ghost use Rattle.proto_model.specs.Serving.{after_append, append_refusal, last_id};
ghost use Rattle.partition_server.specs.Held.{config_of, state_of};
ghost use Rattle.partition_server.specs.Faults.{takes_memory, IsLockRefusal, IsRefusedBy, IsValidFault};

use crate::{AppendFault, Server};
use proto_model::Phase;
use std::marker::Brand;
use std::sync::ledger::{Blank, Ledger};
use tx_model::{Steps, Tx};

fn admit_with<L: Ledger>(server: &Server, tx: &Tx, blank: Blank) -> Result<(), AppendFault>
    requires name { blank.name ≡ L.name }
    requires parts { blank.parts ≡ L.parts }
    requires some { 0 < blank.parts }
    ensures taken { OnOk result
        (append_refusal (config_of server.now) (state_of server.now) tx.now ≡ None) }
    ensures refused { IfErr result
        (IsRefusedBy (append_refusal (config_of server.now) (state_of server.now) tx.now)) }
    ensures valid { IfErr result IsValidFault }
    ensures memory { result ≡ Err AppendFault.Memory →
        IsLockRefusal (append_refusal (config_of server.now) (state_of server.now) tx.now) }
    ensures running { OnOk result ((state_of server.now).phase ≡ Phase.Running) }
    ensures room { OnOk result (length server.now.log < last_id) }
{
    let mut steps = Steps::<L>::new(blank);
    server.admit(tx, &mut steps)
}

// Whether a transaction is taken. No steps are counted for the caller.
pub(crate) fn admit_uncounted(server: &Server, tx: &Tx) -> Result<(), AppendFault>
    ensures taken { OnOk result
        (append_refusal (config_of server.now) (state_of server.now) tx.now ≡ None) }
    ensures refused { IfErr result
        (IsRefusedBy (append_refusal (config_of server.now) (state_of server.now) tx.now)) }
    ensures valid { IfErr result IsValidFault }
    ensures memory { result ≡ Err AppendFault.Memory →
        IsLockRefusal (append_refusal (config_of server.now) (state_of server.now) tx.now) }
    ensures running { OnOk result ((state_of server.now).phase ≡ Phase.Running) }
    ensures room { OnOk result (length server.now.log < last_id) }
{
    admit_with::<Brand>(server, tx, Blank::new(1))
}

/// Assigns the next id to a transaction, or refuses it, and counts no steps for the caller.
pub fn append_uncounted(server: &mut Server, tx: Tx) -> Result<u64, AppendFault>
    ensures taken { OnOk result
        (append_refusal (config_of server.old) (state_of server.old) tx ≡ None) }
    ensures id { IfOk result (λ id. id ≡ length server.old.log + 1) }
    ensures after { OnOk result (state_of server.new ≡
        after_append (config_of server.old) (state_of server.old) tx) }
    ensures config { config_of server.new ≡ config_of server.old }
    ensures refused { IfErr result
        (IsRefusedBy (append_refusal (config_of server.old) (state_of server.old) tx)) }
    ensures valid { IfErr result IsValidFault }
    ensures memory { result ≡ Err AppendFault.Memory →
        takes_memory (append_refusal (config_of server.old) (state_of server.old) tx) ≡ true }
    ensures kept { OnErr result (server.new ≡ server.old) }
{
    admit_uncounted(server, &tx)?;
    match server.assign(tx) {
        Ok(id) => Ok(id),
        Err(_) => Err(AppendFault::Memory),
    }
}
