/// Why no frame was read.
#[derive(Clone, Copy, Debug, PartialEq, Eq)]
pub enum FrameFault {
    /// Less than a whole frame stands there: more bytes may still make one.
    Short,
    /// No frame stands there, and none will whatever follows. What is wrong stands this many bytes from the front: the
    /// length (0), the body (4) or the check (4 and the length). It is an index into the slice that was read, and so
    /// a `usize`.
    Bad(usize),
    /// There was no memory for what stands there.
    Memory,
}
