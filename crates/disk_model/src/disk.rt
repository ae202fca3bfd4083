ghost use Rattle.std.specs.Prelude.{◌≡◌, ◌+◌, ◌^◌, ◌<◌, ◌≤◌, ℕ, length, take, Err, IfOk, OnOk, IsErr};
ghost use Rattle.io_core.specs.Causes.{HasCause, HasCauseOrMemory, HasWant};
ghost use Rattle.disk_model.specs.File.{IsSound, IsPlain, IsDuring, written, shortened, settled, overlaid};
ghost use Rattle.disk_model.specs.History.{History, Always, EachMoment, IsRead, KeepsWorking};

use io_core::{Failed, Fault};

/// Files by number. A file that was never written is empty.
///
/// What is said of content is said where the disk tells it. Between two syncs of a file a crash may leave anything at
/// the places that were written, cut away or newly reached, and leaves the others as they are. A clause on moments
/// speaks of each one since the call's start, whatever the result is.
///
/// A call answers a fault only where the count of faults rose, and runs out of memory only where that is counted too.
/// After running out of memory nothing has changed.
pub trait Disk {
    /// Whether it tells its content. A real disk doesn't.
    ghost tells: { Type 0 };

    /// Whether a crash leaves what is read, at each moment. That of a disk in memory does.
    ghost plain: { Type 0 };

    /// The files now and at each moment before.
    ghost history: { Self → History };

    /// How often a call has failed, up to the greatest `u64`. Running out of memory is no fault.
    ghost faults: { Self → ℕ };

    /// How often memory ran out, up to the greatest `u64`.
    ghost wants: { Self → ℕ };

    /// Whether no call was chosen to fail, so that one fails only by a fuse, up to the crash that takes it away.
    ghost reliable: { Self → Type 0 };

    /// Whether no call fails.
    ghost unfailing: { Self → Type 0 };

    /// How many bytes the file has.
    fn len(&mut self, file: u32) -> Result<u64, Failed>
        ensures len { IfOk result (λ n. tells → n ≡ length ((history self.old).now file).reads) }
        ensures same { tells → history self.new ≡ history self.old }
        ensures cause { HasCause (faults self.old) (faults self.new) result }
        ensures keeps { KeepsWorking reliable unfailing self.old self.new (IsErr result) };

    /// Reads from `at` on into the front of `into`, and says how many bytes. For a non-empty `into`, `Ok(0)` comes
    /// only at or past the end.
    fn read(&mut self, file: u32, at: u64, into: &mut [u8]) -> Result<usize, Failed>
        ensures bound { IfOk result (λ n. n ≤ length into.old) }
        ensures room { IfOk result (λ n. at + n < 2 ^ 64) }
        ensures read { IfOk result (λ n. tells →
            IsRead ((history self.old).now file).reads at into.new n) }
        ensures same { tells → history self.new ≡ history self.old }
        ensures cause { HasCause (faults self.old) (faults self.new) result }
        ensures keeps { KeepsWorking reliable unfailing self.old self.new (IsErr result) };

    /// Writes the bytes from `at` on, which is at most the file's length.
    fn write_at(&mut self, file: u32, at: u64, bytes: &[u8]) -> Result<(), Fault>
        requires { tells → at ≤ length ((history self.old).now file).reads }

        // Meanwhile the file has no image that it wouldn't have with the write done. Where the bytes are added at the
        // end, what was put meanwhile is a front of what is put then.
        ensures moments { tells → EachMoment file
            (IsDuring (at ≡ length ((history self.old).now file).reads)
            (written at bytes.now ((history self.old).now file)))
            (history self.old) (history self.new) }

        ensures reads { OnOk result (tells →
            ((history self.new).now file).reads
            ≡ overlaid ((history self.old).now file).reads at bytes.now) }
        ensures room { OnOk result (at + length bytes.now < 2 ^ 64) }
        ensures memory { result ≡ Err Fault.Memory → tells → history self.new ≡ history self.old }
        ensures cause { HasCauseOrMemory (faults self.old) (faults self.new) result }
        ensures want { HasWant (wants self.old) (wants self.new) result }
        ensures keeps { KeepsWorking reliable unfailing self.old self.new
            (result ≡ Err Fault.Failed) };

    /// Cuts the file to a length. A shorter file stays as it is.
    fn cut(&mut self, file: u32, len: u64) -> Result<(), Fault>
        ensures moments { tells → EachMoment file
            (IsDuring (Unit {0}) (shortened len ((history self.old).now file)))
            (history self.old) (history self.new) }
        ensures reads { OnOk result (tells →
            ((history self.new).now file).reads ≡ take len ((history self.old).now file).reads) }
        ensures memory { result ≡ Err Fault.Memory → tells → history self.new ≡ history self.old }
        ensures cause { HasCauseOrMemory (faults self.old) (faults self.new) result }
        ensures want { HasWant (wants self.old) (wants self.new) result }
        ensures keeps { KeepsWorking reliable unfailing self.old self.new
            (result ≡ Err Fault.Failed) };

    /// Puts all that is read of the file where a crash leaves it.
    fn sync(&mut self, file: u32) -> Result<(), Failed>
        ensures moments { tells → EachMoment file
            (λ f. f ≡ settled ((history self.old).now file).reads)
            (history self.old) (history self.new) }
        ensures synced { OnOk result (tells →
            (history self.new).now file ≡ settled ((history self.old).now file).reads) }
        ensures cause { HasCause (faults self.old) (faults self.new) result }
        ensures keeps { KeepsWorking reliable unfailing self.old self.new (IsErr result) };

    /// At each moment each file as it reads is one of its images, and what is synced is what was put.
    ghost sound: { (disk : Self) → tells → Always IsSound (history disk) };

    /// On a plain disk nothing is unsynced, at each moment.
    ghost settles: { (disk : Self) → tells → plain → Always IsPlain (history disk) };
}

impl<T: Disk> Disk for &mut T {
    ghost tells = { T.tells };

    ghost plain = { T.plain };

    ghost history = { λ d. T.history d.now };

    ghost faults = { λ d. T.faults d.now };

    ghost wants = { λ d. T.wants d.now };

    ghost reliable = { λ d. T.reliable d.now };

    ghost unfailing = { λ d. T.unfailing d.now };

    ghost sound = { λ d t. T.sound d.now t };

    ghost settles = { λ d t p. T.settles d.now t p };

    fn len(&mut self, file: u32) -> Result<u64, Failed> {
        (**self).len(file)
    }

    fn read(&mut self, file: u32, at: u64, into: &mut [u8]) -> Result<usize, Failed> {
        (**self).read(file, at, into)
    }

    fn write_at(&mut self, file: u32, at: u64, bytes: &[u8]) -> Result<(), Fault> {
        (**self).write_at(file, at, bytes)
    }

    fn cut(&mut self, file: u32, len: u64) -> Result<(), Fault> {
        (**self).cut(file, len)
    }

    fn sync(&mut self, file: u32) -> Result<(), Failed> {
        (**self).sync(file)
    }
}
