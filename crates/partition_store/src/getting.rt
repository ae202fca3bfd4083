//! Records of the log by their ids.
ghost use Rattle.std.specs.Prelude.{◌≡◌, ◌↔◌, ◌+◌, ◌-◌, ◌^◌, ◌≤◌, ◌<◌, [], ◌∷◌, ◌++◌, false, length, take, drop, min, slice_get, option_copied, Ok, None, Some, IfOk, IfSome, IsErrOf};
ghost use Rattle.std.specs.Option.{option_to_list};
ghost use Rattle.tx_model.specs.Records.{IsRecord, RiseByOne};
ghost use Rattle.tx_model.specs.Spelling.{IsCount};
ghost use Rattle.disk_model.specs.History.{KeepsWorking};
ghost use Rattle.disk_model.specs.LoadFaults.{IsNotDamaged, HasDiskCause};
ghost use Rattle.disk_model.specs.declared.unloaded.LoadFault.TheVariants.{Disk as DiskBroke};
ghost use Rattle.segment_store.specs.Index.{count_of};
ghost use Rattle.proto_model.specs.Crashes.{unstaged};
ghost use Rattle.proto_model.specs.Nodes.{HasNodeCause, IsUndamaged};
ghost use Rattle.proto_model.specs.declared.replica.NodeFault.TheVariants.{Disk as Broke, Full};
ghost use Rattle.partition_store.specs.Stands.{reads_of, LeavesAtEach};
ghost use Rattle.partition_store.specs.Stores.{state_by, IsChain, AreInOrder, records_by, IsDurable, IsAnswer};
ghost use Rattle.partition_store.specs.Found.{AreIndexed, IsFound, node_result, shuts_store};

use crate::Store;
use disk_model::{Disk, LoadFault};
use proto_model::NodeFault;
use segment_store::Segment;
use std::alloc::Global;
use tx_model::Record;

// The segment that has the record with this id, of closed ones and the last.
fn find<'a>(closed: &'a [Segment], last: &'a Segment, id: u64) -> &'a Segment
    requires first { 1 ≤ id }
    requires order { IsChain 1 closed.now last.now.first }
    requires end { id < last.now.first + count_of last.now }
    ensures { IsFound (closed.now ++ last.now ∷ []) id result.now }
{
    if last.first() <= id {
        return last;
    }
    let behind = closed.partition_point(|segment| segment.first() <= id);
    &closed[behind - 1]
}

// The record with this id, of the log of these segments.
fn read_one<D: Disk>(
    closed: &[Segment],
    last: Option<&Segment>,
    disk: &mut D,
    len: u64,
    id: u64,
) -> Result<Option<Record>, LoadFault>
    requires order { AreInOrder closed.now (option_copied last) len }
    requires indexed { D.tells → AreIndexed (reads_of (D.history disk.old).now)
        (closed.now ++ option_to_list (option_copied last)) }
    ensures none { (result ≡ Ok None) ↔ ((1 ≤ id) × (id ≤ len) → ⊥) }
    ensures found { IfOk result (λ found. IfSome found (λ r. (r.id ≡ id) × IsRecord r)) }
    ensures log { IfOk result (λ found. IfSome found (λ r. D.tells →
        slice_get (records_by (reads_of (D.history disk.old).now)
        (closed.now ++ option_to_list (option_copied last.entry))) (id - 1) ≡ Some r)) }
    ensures history { D.tells → D.history disk.new ≡ D.history disk.old }
    ensures not_damaged { D.tells → IsNotDamaged result }
    ensures cause { HasDiskCause (D.faults disk.old) (D.faults disk.new) result }
    ensures keeps { KeepsWorking D.reliable D.unfailing disk.old disk.new
        (IsErrOf result DiskBroke) }
{
    let Some(last) = last else {
        return Ok(None);
    };
    if id < 1 || len < id {
        return Ok(None);
    }
    find(closed, last, id).get(disk, id)
}

// So many records in a row, of the log of these segments.
fn read_run<D: Disk>(
    alloc: Global,
    closed: &[Segment],
    last: &Segment,
    disk: &mut D,
    from: u64,
    count: u8,
) -> Result<Vec<Record>, LoadFault>
    requires first { 1 ≤ from }
    requires order { IsChain 1 closed.now last.now.first }
    requires end { from + count ≤ last.now.first + count_of last.now }
    requires range { from + count ≤ 2 ^ 48 }
    requires indexed { D.tells → AreIndexed (reads_of (D.history disk.old).now)
        (closed.now ++ last.now ∷ []) }
    ensures count { IfOk result (λ found. length found.items ≡ count) }
    ensures found { IfOk result (λ found. RiseByOne from found.items) }
    ensures log { IfOk result (λ found. D.tells →
        found.items ≡ take count (drop (from - 1) (records_by (reads_of (D.history disk.old).now)
        (closed.now ++ last.now ∷ [])))) }
    ensures history { D.tells → D.history disk.new ≡ D.history disk.old }
    ensures not_damaged { D.tells → IsNotDamaged result }
    ensures cause { HasDiskCause (D.faults disk.old) (D.faults disk.new) result }
    ensures keeps { KeepsWorking D.reliable D.unfailing disk.old disk.new
        (IsErrOf result DiskBroke) }
{
    let mut found = Vec::with_capacity(alloc, count as usize)?;
    'segments: while found.len() < count as usize {
        let next = from + found.len() as u64;
        let segment = find(closed, last, next);
        let mut more = segment.get_run(disk, next, count - found.len() as u8)?;
        found.append(&mut more)?;
    }
    Ok(found)
}

// The records with ids from `from` on, at most `max` of them, of the log of these segments.
fn read_up_to<D: Disk>(
    alloc: Global,
    closed: &[Segment],
    last: Option<&Segment>,
    disk: &mut D,
    len: u64,
    from: u64,
    max: u8,
) -> Result<Vec<Record>, LoadFault>
    requires first { 1 ≤ from }
    requires range { IsCount len }
    requires order { AreInOrder closed.now (option_copied last) len }
    requires indexed { D.tells → AreIndexed (reads_of (D.history disk.old).now)
        (closed.now ++ option_to_list (option_copied last)) }
    ensures count { IfOk result (λ found. length found.items ≡ min max (len + 1 - from)) }
    ensures found { IfOk result (λ found. RiseByOne from found.items) }
    ensures log { IfOk result (λ found. D.tells →
        found.items ≡ take max (drop (from - 1) (records_by (reads_of (D.history disk.old).now)
        (closed.now ++ option_to_list (option_copied last.entry))))) }
    ensures history { D.tells → D.history disk.new ≡ D.history disk.old }
    ensures not_damaged { D.tells → IsNotDamaged result }
    ensures cause { HasDiskCause (D.faults disk.old) (D.faults disk.new) result }
    ensures keeps { KeepsWorking D.reliable D.unfailing disk.old disk.new
        (IsErrOf result DiskBroke) }
{
    let Some(last) = last else {
        return Ok(Vec::new(alloc));
    };
    if len < from {
        return Ok(Vec::new(alloc));
    }
    let left = len - from + 1;
    read_run(alloc, closed, last, disk, from, left.min(max as u64) as u8)
}

impl<D: Disk> Store<D> {
    /// The record of the log with this id, read from the disk.
    ///
    /// `Damaged` comes only where what is read at the record's place is not the frame that was written there, and so
    /// never from a disk that tells its content.
    pub fn get(&mut self, id: u64) -> Result<Option<Record>, NodeFault>
        ensures none { (result ≡ Ok None) ↔ ((self.old.shut ≡ false)
            × ((1 ≤ id) × (id ≤ self.old.status.length) → ⊥)) }
        ensures found { IfOk result (λ found. IfSome found (λ r. (r.id ≡ id) × IsRecord r)) }
        ensures log { IfOk result (λ found. IfSome found (λ r. D.tells →
            slice_get (state_by D.history self.old).log (id - 1) ≡ Some r)) }

        // It changes nothing, but that it may shut the store.
        ensures same { self.new ≡ record self.old { disk = self.new.disk; shut = self.new.shut } }
        ensures history { D.tells → D.history self.new.disk ≡ D.history self.old.disk }
        ensures any_moment { D.tells → self.old.shut ≡ false → LeavesAtEach D.plain
            (λ r. r ≡ unstaged (state_by D.history self.old))
            (D.history self.old.disk) (D.history self.new.disk) }
        ensures durable { D.tells → self.new.shut ≡ false →
            IsDurable D.plain (D.history self.new.disk).now self.new }

        ensures answer { IsAnswer D.tells D.history self.old self.new result }
        ensures never { IsErrOf result Full → ⊥ }
        ensures undamaged { D.tells → IsUndamaged result }
        ensures cause { HasNodeCause (D.faults self.old.disk) (D.faults self.new.disk) result }
        ensures keeps { KeepsWorking D.reliable D.unfailing self.old.disk self.new.disk
            (IsErrOf result Broke) }
    {
        if self.shut {
            return Err(NodeFault::Shut);
        }
        let found = read_one(
            &self.closed,
            self.last.as_ref(),
            &mut self.disk,
            self.status.length,
            id,
        );
        self.answer(found)
    }

    /// The records of the log with ids from `from` on, at most `max` of them. Those that lie together in a file are read
    /// at once.
    ///
    /// It answers as many as the log has. `Damaged` comes as for `get`, for the first record that is not there.
    pub fn get_run(&mut self, from: u64, max: u8) -> Result<Vec<Record>, NodeFault>
        requires { 1 ≤ from }
        ensures count { IfOk result (λ found.
            length found.items ≡ min max (self.old.status.length + 1 - from)) }
        ensures found { IfOk result (λ found. RiseByOne from found.items) }
        ensures log { IfOk result (λ found. D.tells →
            found.items ≡ take max (drop (from - 1) (state_by D.history self.old).log)) }

        // As for `get`.
        ensures same { self.new ≡ record self.old { disk = self.new.disk; shut = self.new.shut } }
        ensures history { D.tells → D.history self.new.disk ≡ D.history self.old.disk }
        ensures any_moment { D.tells → self.old.shut ≡ false → LeavesAtEach D.plain
            (λ r. r ≡ unstaged (state_by D.history self.old))
            (D.history self.old.disk) (D.history self.new.disk) }
        ensures durable { D.tells → self.new.shut ≡ false →
            IsDurable D.plain (D.history self.new.disk).now self.new }

        ensures answer { IsAnswer D.tells D.history self.old self.new result }
        ensures never { IsErrOf result Full → ⊥ }
        ensures undamaged { D.tells → IsUndamaged result }
        ensures cause { HasNodeCause (D.faults self.old.disk) (D.faults self.new.disk) result }
        ensures keeps { KeepsWorking D.reliable D.unfailing self.old.disk self.new.disk
            (IsErrOf result Broke) }
    {
        if self.shut {
            return Err(NodeFault::Shut);
        }
        let found = read_up_to(
            self.alloc,
            &self.closed,
            self.last.as_ref(),
            &mut self.disk,
            self.status.length,
            from,
            max,
        );
        self.answer(found)
    }

    // A read's answer. But for want of memory a fault shuts the store.
    fn answer<T>(&mut self, read: Result<T, LoadFault>) -> Result<T, NodeFault>
        requires { self.old.shut ≡ false }
        ensures result { result ≡ node_result read }
        ensures same { self.new ≡ record self.old { shut = shuts_store read } }
    {
        match read {
            Ok(found) => Ok(found),
            Err(LoadFault::Memory) => Err(NodeFault::Memory),
            Err(LoadFault::Disk) => {
                self.shut = true;
                Err(NodeFault::Disk)
            }
            Err(LoadFault::Damaged(file, at)) => {
                self.shut = true;
                Err(NodeFault::Damaged(file, at))
            }
        }
    }
}
