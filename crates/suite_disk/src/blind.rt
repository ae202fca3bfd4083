ghost use Rattle.disk_model.specs.Replay.{start};

use disk_model::Disk;
use io_core::{Failed, Fault};

// A disk that tells nothing, as a real one. It keeps a length alone: a byte reads as its place, one a call. It fails at
// each sync.
#[derive(Drop)]
pub struct Blind {
    pub len: u64,
    pub faults: u64,
}

impl Blind {
    pub fn new() -> Blind {
        Blind { len: 0, faults: 0 }
    }
}

impl Disk for Blind {
    ghost tells = { ⊥ };

    ghost plain = { ⊥ };

    ghost history = { λ _. start };

    ghost faults = { λ b. b.faults };

    ghost wants = { λ _. 0 };

    ghost reliable = { λ _. ⊥ };

    ghost unfailing = { λ _. ⊥ };

    ghost sound = { λ _ t. absurd t };

    ghost settles = { λ _ t _. absurd t };

    fn len(&mut self, _file: u32) -> Result<u64, Failed> {
        Ok(self.len)
    }

    fn read(&mut self, _file: u32, at: u64, into: &mut [u8]) -> Result<usize, Failed> {
        if at >= self.len || into.is_empty() {
            return Ok(0);
        }
        into[0] = (at % 256) as u8;
        Ok(1)
    }

    fn write_at(&mut self, _file: u32, at: u64, bytes: &[u8]) -> Result<(), Fault> {
        match at.checked_add(bytes.len() as u64) {
            Some(end) => self.len = end,
            None => {
                self.faults = self.faults.saturating_add(1);
                return Err(Fault::Failed);
            }
        }
        Ok(())
    }

    fn cut(&mut self, _file: u32, len: u64) -> Result<(), Fault> {
        self.len = self.len.min(len);
        Ok(())
    }

    fn sync(&mut self, _file: u32) -> Result<(), Failed> {
        self.faults = self.faults.saturating_add(1);
        Err(Failed)
    }
}
