ghost use Rattle.std.specs.Prelude.{◌≡◌, ℕ, List, None};
ghost use Rattle.tx_model.specs.declared.record.Record.{Record};
ghost use Rattle.tx_model.specs.Transactions.{Transaction};
ghost use Rattle.tx_model.specs.Logs.{NamesNoHeldLock};
ghost use Rattle.tx_model.specs.Probes.{Shape, admission};

/// A transaction that is admitted names no lock that a record above its mark holds, whatever the table's shape and
/// start.
pub fn admitted_name_no_held_lock()
    ensures { (shape : Shape) (start : ℕ) (log : List Record) (tx : Transaction) →
        admission shape start log tx ≡ None → NamesNoHeldLock log tx }
{}
