ghost use Rattle.std.specs.Prelude.{◌≡◌, ◌↔◌, IsTrue};
ghost use Rattle.disk_model.specs.MemDisk.{IsSpent, let_through, used, tripped, renewed};

/// How many more bytes a disk in memory takes before it fails for good.
#[derive(Clone, Copy)]
pub enum Fuse {
    /// As many as are written.
    Off,
    /// So many.
    Left(u64),
    /// A call has failed because of it.
    Burnt,
}

impl Fuse {
    /// Whether it lets no byte through, so that each call fails.
    pub fn is_spent(self) -> bool
        ensures { IsTrue result ↔ IsSpent self }
    {
        match self {
            Fuse::Off => false,
            Fuse::Left(left) => left == 0,
            Fuse::Burnt => true,
        }
    }

    /// How many of so many bytes it lets through.
    pub fn let_through(self, count: usize) -> usize
        ensures { result ≡ let_through self count }
    {
        match self {
            Fuse::Off => count,
            Fuse::Left(left) => left.min(count as u64) as usize,
            Fuse::Burnt => 0,
        }
    }

    /// The fuse after a write of so many bytes.
    pub fn used(self, count: usize) -> Fuse
        ensures { result ≡ used self count }
    {
        match self {
            Fuse::Off => Fuse::Off,
            Fuse::Left(left) => {
                if left < count as u64 {
                    Fuse::Burnt
                } else {
                    Fuse::Left(left - count as u64)
                }
            }
            Fuse::Burnt => Fuse::Burnt,
        }
    }

    /// The fuse after a call that failed, whatever it was.
    pub fn tripped(self) -> Fuse
        ensures { result ≡ tripped self }
    {
        match self {
            Fuse::Left(0) => Fuse::Burnt,
            fuse => fuse,
        }
    }

    /// The fuse that is set to so many bytes, unless it has burnt.
    pub fn renewed(self, bytes: u64) -> Fuse
        ensures { result ≡ renewed self bytes }
    {
        match self {
            Fuse::Burnt => Fuse::Burnt,
            _ => Fuse::Left(bytes),
        }
    }
}
