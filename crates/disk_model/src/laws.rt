//! Laws of images, as contracts of functions that do nothing.
ghost use Rattle.std.specs.Prelude.{◌≡◌, ◌≤◌, ℕ, List, length, take};
ghost use Rattle.disk_model.specs.Chance.{PassesByChance};
ghost use Rattle.disk_model.specs.File.{File, IsDuring, IsImage, IsPlain, IsSound, IsSyncedAsPut, overlaid, settled, shortened, written};
ghost use Rattle.tx_model.specs.Frames.{IsFraming, frames_in, joined};
ghost use Rattle.disk_model.specs.Frames.{HasFirmFrames, IsAsPut, IsFirm};
ghost use Rattle.disk_model.specs.History.{Always, EachMoment, History, changed_at};

use crate::Disk;

/// Where what is synced is what was put, the frames of an image were put, unless it passes by chance. And where they
/// were put, it doesn't.
pub fn images_are_as_put_but_by_chance()
    ensures as_put { (len : List ℕ → ℕ) (file : File) (image : List ℕ) →
        IsSyncedAsPut file → IsImage file image → ¬ PassesByChance len file image →
        IsAsPut len file image }
    ensures no_chance { (len : List ℕ → ℕ) (file : File) (image : List ℕ) →
        IsFraming len → IsAsPut len file image → ¬ PassesByChance len file image }
{}

/// So it is at each moment of each disk that tells: its frames are as they were put, unless it passes by chance.
pub fn every_disk_is_as_put_but_by_chance<D: Disk>(disk: &D)
    ensures { D.tells → Always
        (λ file. (len : List ℕ → ℕ) (image : List ℕ) → IsImage file image →
        ¬ PassesByChance len file image → IsAsPut len file image)
        (D.history disk.now) }
{}

/// What a disk promises of each file at each moment is kept by a write, a cut and a sync.
pub fn files_stay_sound()
    ensures write { (file : File) (at : ℕ) (bytes : List ℕ) →
        IsSound file → at ≤ length file.reads → IsSound (written at bytes file) }
    ensures cut { (file : File) (len : ℕ) → IsSound file → IsSound (shortened len file) }
    ensures sync { (bytes : List ℕ) → IsSound (settled bytes) }
{}

/// A crash leaves of a plain file what it reads, and all of that was put.
pub fn plain_files_are_left_as_read()
    ensures image { (file : File) (image : List ℕ) → IsPlain file → IsImage file image →
        image ≡ file.reads }
    ensures as_put { (len : List ℕ → ℕ) (file : File) → IsPlain file → IsAsPut len file file.reads }
{}

/// Each image of a file whose frames are firm begins with these frames alone, unless it passes by chance. And a file
/// that is on the disk is so, as is one whose tail behind its firm frames is cut away.
pub fn firm_frames_are_left()
    ensures left { (len : List ℕ → ℕ) (frames : List (List ℕ)) (file : File) (image : List ℕ) →
        IsFraming len → IsSyncedAsPut file → IsFirm len frames file →
        IsImage file image → ¬ PassesByChance len file image → frames_in len image ≡ frames }
    ensures plain { (len : List ℕ → ℕ) (file : File) →
        IsFraming len → IsPlain file → HasFirmFrames len file }
    ensures cut { (len : List ℕ → ℕ) (frames : List (List ℕ)) (file : File) → IsFraming len →
        IsFirm len frames file → IsFirm len frames (shortened (length (joined frames)) file) }
{}

/// The clauses on a disk's calls are met too by one that keeps changes in a cache, of which a crash may leave any part
/// up to the sync.
pub fn a_cache_is_a_disk()
    ensures write { (h : History) (file at : ℕ) (bytes : List ℕ) → Always IsSound h →
        at ≤ length (h.now file).reads →
        Always IsSound (changed_at file (written at bytes) h)
        × EachMoment file
        (IsDuring (at ≡ length (h.now file).reads) (written at bytes (h.now file)))
        h (changed_at file (written at bytes) h)
        × (((changed_at file (written at bytes) h).now file).reads
        ≡ overlaid (h.now file).reads at bytes) }
    ensures cut { (h : History) (file len : ℕ) → Always IsSound h →
        Always IsSound (changed_at file (shortened len) h)
        × EachMoment file (IsDuring (Unit {0}) (shortened len (h.now file)))
        h (changed_at file (shortened len) h)
        × (((changed_at file (shortened len) h).now file).reads ≡ take len (h.now file).reads) }
    ensures sync { (h : History) (file : ℕ) → Always IsSound h →
        Always IsSound (changed_at file (λ f. settled f.reads) h)
        × EachMoment file (λ f. f ≡ settled (h.now file).reads)
        h (changed_at file (λ f. settled f.reads) h)
        × ((changed_at file (λ f. settled f.reads) h).now file ≡ settled (h.now file).reads) }
{}
