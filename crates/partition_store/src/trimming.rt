//! The last part of loading: tails that hold no frame are cut away, and what was counted is synced.
ghost use Rattle.std.specs.Prelude.{◌≡◌, ◌≢◌, ◌∷◌, [], ℕ, List, IfSome, OnOk, IsErrOf};
ghost use Rattle.tx_model.specs.declared.meta.Meta.{Meta as MetaValue};
ghost use Rattle.tx_model.specs.Frames.{joined};
ghost use Rattle.tx_model.specs.Contents.{entries_of};
ghost use Rattle.disk_model.specs.File.{IsPlain};
ghost use Rattle.disk_model.specs.History.{AtEach, KeepsWorking};
ghost use Rattle.disk_model.specs.LoadFaults.{IsNotDamaged, HasDiskCause};
ghost use Rattle.disk_model.specs.declared.unloaded.LoadFault.TheVariants.{Disk as Broke, Memory as NoMemory};
ghost use Rattle.proto_model.specs.Held.{EachNamed};
ghost use Rattle.partition_store.specs.Loading.{named_file, frames_of, HoldFrames, AreFirm, HasFirmFiles, IsLastFile, AreRead, AreTrimmed};

use disk_model::{Disk, LoadFault};
use meta_journal::Journal;
use segment_store::Segment;
use tx_model::Meta;

// The file that an entry names.
fn named_file(entry: &Meta) -> Option<u32>
    ensures { result ≡ named_file entry.now }
{
    match *entry {
        Meta::Adopt(_, _, file, _) | Meta::Roll(file, _) => Some(file),
        Meta::Promise(_) | Meta::Low(_) | Meta::Value(_) => None,
    }
}

// Syncs the file that an entry names.
fn sync_file<D: Disk>(disk: &mut D, entry: &Meta) -> Result<(), LoadFault>
    ensures named { OnOk result (D.tells →
        EachNamed (λ q. IsPlain ((D.history disk.new).now q)) (entry.now ∷ [])) }
    ensures plain { OnOk result (D.tells → (q : ℕ) →
        IsPlain ((D.history disk.old).now q) → IsPlain ((D.history disk.new).now q)) }
    ensures reads { OnOk result (D.tells → (q : ℕ) →
        ((D.history disk.new).now q).reads ≡ ((D.history disk.old).now q).reads) }
    ensures firm { D.tells → (frames : ℕ → List (List ℕ)) →
        HoldFrames frames (D.history disk.old).now → AreFirm frames (D.history disk.old).now →
        AtEach (AreFirm frames) (D.history disk.old) (D.history disk.new) }
    ensures only { IsNotDamaged result × (IsErrOf result NoMemory → ⊥) }
    ensures cause { HasDiskCause (D.faults disk.old) (D.faults disk.new) result }
    ensures keeps { KeepsWorking D.reliable D.unfailing disk.old disk.new (IsErrOf result Broke) }
{
    let Some(file) = named_file(entry) else {
        return Ok(());
    };
    disk.sync(file)?;
    Ok(())
}

// Syncs each file that the entries name.
fn sync_named<D: Disk>(disk: &mut D, entries: &[Meta]) -> Result<(), LoadFault>
    ensures named { OnOk result (D.tells →
        EachNamed (λ q. IsPlain ((D.history disk.new).now q)) entries.now) }
    ensures plain { OnOk result (D.tells → (q : ℕ) →
        IsPlain ((D.history disk.old).now q) → IsPlain ((D.history disk.new).now q)) }
    ensures reads { OnOk result (D.tells → (q : ℕ) →
        ((D.history disk.new).now q).reads ≡ ((D.history disk.old).now q).reads) }
    ensures firm { D.tells → (frames : ℕ → List (List ℕ)) →
        HoldFrames frames (D.history disk.old).now → AreFirm frames (D.history disk.old).now →
        AtEach (AreFirm frames) (D.history disk.old) (D.history disk.new) }
    ensures only { IsNotDamaged result × (IsErrOf result NoMemory → ⊥) }
    ensures cause { HasDiskCause (D.faults disk.old) (D.faults disk.new) result }
    ensures keeps { KeepsWorking D.reliable D.unfailing disk.old disk.new (IsErrOf result Broke) }
{
    for entry in entries {
        sync_file(disk, entry)?;
    }
    Ok(())
}

// Cuts the last file where its last record ends.
fn cut_last<D: Disk>(disk: &mut D, last: &Option<Segment>) -> Result<(), LoadFault>
    ensures cut { OnOk result (D.tells → (entries : List MetaValue) →
        IfSome last.now (IsLastFile entries (D.history disk.old).now) →
        IfSome last.now (λ i. ((D.history disk.new).now i.file).reads
        ≡ joined (frames_of (D.history disk.old).now i.file))) }
    ensures others { OnOk result (D.tells → (q : ℕ) → IfSome last.now (λ i. q ≢ i.file) →
        (D.history disk.new).now q ≡ (D.history disk.old).now q) }
    ensures firm { D.tells → (frames : ℕ → List (List ℕ)) →
        HoldFrames frames (D.history disk.old).now → AreFirm frames (D.history disk.old).now →
        IfSome last.now (IsLastFile (entries_of (frames 0)) (D.history disk.old).now) →
        AtEach (AreFirm frames) (D.history disk.old) (D.history disk.new) }
    ensures memory { IsErrOf result NoMemory → D.tells → D.history disk.new ≡ D.history disk.old }
    ensures only { IsNotDamaged result }
    ensures cause { HasDiskCause (D.faults disk.old) (D.faults disk.new) result }
    ensures keeps { KeepsWorking D.reliable D.unfailing disk.old disk.new (IsErrOf result Broke) }
{
    let Some(segment) = last else {
        return Ok(());
    };
    disk.cut(segment.file(), segment.end())?;
    Ok(())
}

/// Cuts the journal and the last file where their last frames end, and syncs the journal and each file that an entry
/// names, also where nothing was cut.
pub(crate) fn trim<D: Disk>(
    disk: &mut D,
    journal: &Journal,
    last: &Option<Segment>,
    entries: &[Meta],
) -> Result<(), LoadFault>
    requires { D.tells → AreRead (D.history disk.old).now journal.now last.now entries.now }
    ensures trimmed { OnOk result (D.tells →
        AreTrimmed last.now entries.now (D.history disk.old).now (D.history disk.new).now) }

    // Where the frames are firm, they are so at each moment.
    ensures firm { D.tells → HasFirmFiles (D.history disk.old).now →
        AtEach (AreFirm (frames_of (D.history disk.old).now))
        (D.history disk.old) (D.history disk.new) }
    ensures memory { IsErrOf result NoMemory → D.tells →
        HoldFrames (frames_of (D.history disk.old).now) (D.history disk.new).now }
    ensures only { IsNotDamaged result }
    ensures cause { HasDiskCause (D.faults disk.old) (D.faults disk.new) result }
    ensures keeps { KeepsWorking D.reliable D.unfailing disk.old disk.new (IsErrOf result Broke) }
{
    disk.cut(0, journal.end())?;
    cut_last(disk, last)?;
    disk.sync(0)?;
    sync_named(disk, entries)?;
    Ok(())
}
