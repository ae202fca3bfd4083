ghost use Rattle.std.specs.Prelude.{◌≤◌, ◌<◌, ◌+◌, ◌^◌, length, IfOk, IfSome};
ghost use Rattle.io_core.specs.Causes.{Rose};
ghost use Rattle.disk_model.specs.Replay.{start};

use arrayvec::ArrayString;
use disk_model::Disk;
use io_core::{Failed, Fault};
use std::fmt::Write;
use std::fs::{File, OpenOptions};
use std::io;
use std::io::ErrorKind;
use std::os::unix::fs::FileExt;

/// So many files are kept open at most: those in use are two or three, and a node's files grow in number while it lives.
const OPEN_FILES: usize = 8;

/// The longest name is `waltz.4294967295`.
const NAME_ROOM: usize = 16;

/// No file of the system is longer.
const MAX_LEN: u64 = i64::MAX as u64;

// A file that is open, and its number.
#[derive(Drop)]
struct Opened {
    number: u32,
    file: File,
}

// The files `waltz.NUMBER` of the current folder.
#[derive(Drop)]
struct Folder {
    // The folder itself, once it is locked: no other process reads or writes these files then.
    locked: Option<File>,
    // The one used last comes first.
    files: [Option<Opened>; OPEN_FILES],
    // Whether the folder's entries are known to be on the device. At first they aren't: an earlier process may have
    // stopped between making a file and syncing the folder.
    is_settled: bool,
}

// Opens a file of the folder: none where there is none and it isn't to be made.
fn open(rt: &HostRuntime, number: u32, is_made: bool) -> io::Result<Option<File>> {
    let mut name = ArrayString::<NAME_ROOM>::new();
    if write!(name, "waltz.{number}").is_err() {
        return Err(io::Error::from(ErrorKind::InvalidFilename));
    }
    let mut how = OpenOptions::new();
    how.read(true).write(true).create(is_made);
    match how.open(rt, name.as_str()) {
        Ok(file) => Ok(Some(file)),
        Err(error) if error.kind() == ErrorKind::NotFound => Ok(None),
        Err(error) => Err(error),
    }
}

impl Folder {
    // Locks the folder, unless it is. It fails where another process has locked it.
    fn lock(&mut self, rt: &HostRuntime) -> io::Result<()> {
        if self.locked.is_none() {
            let folder = File::open(rt, ".")?;
            folder.try_lock()?;
            self.locked = Some(folder);
        }
        Ok(())
    }

    // Where the file stands among those that are open. It is opened in place of the one that was used longest ago, and
    // made where that is wanted.
    fn place(&mut self, rt: &HostRuntime, number: u32, is_made: bool) -> io::Result<Option<usize>>
        ensures { IfOk result (λ found. IfSome found (λ at. at < 8)) }
    {
        for at in 0..OPEN_FILES {
            if matches!(&self.files[at], Some(opened) if opened.number == number) {
                return Ok(Some(at));
            }
        }
        self.lock(rt)?;
        match open(rt, number, is_made)? {
            Some(file) => {
                self.files[OPEN_FILES - 1] = Some(Opened { number, file });
                self.is_settled = self.is_settled && !is_made;
                Ok(Some(OPEN_FILES - 1))
            }
            None => Ok(None),
        }
    }

    // The file, which is made where there is none and that is wanted.
    fn file(&mut self, rt: &HostRuntime, number: u32, is_made: bool) -> io::Result<Option<&File>> {
        let Some(at) = self.place(rt, number, is_made)? else {
            return Ok(None);
        };
        self.files[..=at].rotate_right(1);
        Ok(self.last_used())
    }

    // The file that was used last.
    fn last_used(&self) -> Option<&File> {
        match &self.files[0] {
            Some(opened) => Some(&opened.file),
            None => None,
        }
    }

    // Puts the entries of the folder on the device, unless they are there.
    fn settle(&mut self, rt: &HostRuntime) -> io::Result<()> {
        self.lock(rt)?;
        match &self.locked {
            Some(folder) if !self.is_settled => folder.sync_all()?,
            _ => {}
        }
        self.is_settled = true;
        Ok(())
    }

    fn len(&mut self, rt: &HostRuntime, number: u32) -> io::Result<u64> {
        match self.file(rt, number, false)? {
            Some(file) => Ok(file.metadata()?.len()),
            None => Ok(0),
        }
    }

    fn read(&mut self, rt: &HostRuntime, number: u32, at: u64, into: &mut [u8]) -> io::Result<usize>
        ensures { IfOk result (λ n. (n ≤ length into.old) × (at + n < 2 ^ 64)) }
    {
        if at > MAX_LEN {
            return Ok(0);
        }
        match self.file(rt, number, false)? {
            Some(file) => read_at(file, at, into),
            None => Ok(0),
        }
    }

    fn write(&mut self, rt: &HostRuntime, number: u32, at: u64, bytes: &[u8]) -> io::Result<()> {
        match self.file(rt, number, true)? {
            Some(file) => file.write_all_at(bytes, at),
            None => Err(io::Error::from(ErrorKind::NotFound)),
        }
    }

    fn cut(&mut self, rt: &HostRuntime, number: u32, len: u64) -> io::Result<()> {
        match self.file(rt, number, false)? {
            Some(file) if file.metadata()?.len() > len => file.set_len(len),
            _ => Ok(()),
        }
    }

    // The file's bytes and length, and its entry in the folder, are on the device then.
    fn sync(&mut self, rt: &HostRuntime, number: u32) -> io::Result<()> {
        self.settle(rt)?;
        match self.file(rt, number, false)? {
            Some(file) => file.sync_data(),
            None => Ok(()),
        }
    }
}

// Reads from a place on. A call that was interrupted is made again.
fn read_at(file: &File, at: u64, into: &mut [u8]) -> io::Result<usize>
    requires { at < 2 ^ 63 }
    ensures { IfOk result (λ n. (n ≤ length into.old) × (at + n < 2 ^ 64)) }
{
    for _ in 0..u64::MAX {
        match file.read_at(into, at) {
            Err(error) if error.kind() == ErrorKind::Interrupted => {}
            result => return result,
        }
    }
    Err(io::Error::from(ErrorKind::Interrupted))
}

/// The files `waltz.NUMBER` of the current folder, and how often a call failed. It tells nothing of their content.
///
/// A file that was never written is missing, and reads as an empty one. A sync reaches the device, and so does the
/// folder's entry of each file that was made before. The first call locks the folder, and each call fails while another
/// process has locked it.
#[derive(Drop)]
pub struct FolderDisk<'a> {
    rt: &'a HostRuntime,
    folder: Folder,
    faults: u64,
}

impl<'a> FolderDisk<'a> {
    /// The disk of the current folder, of which nothing is opened yet.
    pub fn new(rt: &'a HostRuntime) -> Self {
        FolderDisk {
            rt,
            folder: Folder {
                locked: None,
                files: [None, None, None, None, None, None, None, None],
                is_settled: false,
            },
            faults: 0,
        }
    }

    // Counts a failed call.
    fn failed(&mut self) -> Failed
        ensures later { self.old.faults ≤ self.new.faults }
        ensures rose { Rose self.old.faults self.new.faults }
    {
        self.faults = self.faults.saturating_add(1);
        Failed
    }
}

impl<'a> Disk for FolderDisk<'a> {
    ghost tells = { ⊥ };

    ghost plain = { ⊥ };

    ghost history = { λ d. start };

    ghost faults = { λ d. d.faults };

    ghost wants = { λ d. 0 };

    ghost reliable = { λ d. ⊥ };

    ghost unfailing = { λ d. ⊥ };

    ghost sound = { λ d t. absurd t };

    ghost settles = { λ d t p. absurd t };

    fn len(&mut self, file: u32) -> Result<u64, Failed> {
        match self.folder.len(self.rt, file) {
            Ok(len) => Ok(len),
            Err(_) => Err(self.failed()),
        }
    }

    fn read(&mut self, file: u32, at: u64, into: &mut [u8]) -> Result<usize, Failed> {
        match self.folder.read(self.rt, file, at, into) {
            Ok(count) => Ok(count),
            Err(_) => Err(self.failed()),
        }
    }

    fn write_at(&mut self, file: u32, at: u64, bytes: &[u8]) -> Result<(), Fault> {
        if at.checked_add(bytes.len() as u64).is_none() {
            return Err(Fault::from(self.failed()));
        }
        match self.folder.write(self.rt, file, at, bytes) {
            Ok(()) => Ok(()),
            Err(_) => Err(Fault::from(self.failed())),
        }
    }

    fn cut(&mut self, file: u32, len: u64) -> Result<(), Fault> {
        match self.folder.cut(self.rt, file, len) {
            Ok(()) => Ok(()),
            Err(_) => Err(Fault::from(self.failed())),
        }
    }

    fn sync(&mut self, file: u32) -> Result<(), Failed> {
        match self.folder.sync(self.rt, file) {
            Ok(()) => Ok(()),
            Err(_) => Err(self.failed()),
        }
    }
}
