//! What a program reads from and writes to, as traits with a written meaning, and their forms in memory.
#![tactic(auto)]

mod fault;
mod kept;
mod line;
mod link;
mod mem_link;
mod mem_port;
mod number;
mod port;
mod room;
mod sink;
mod source;

pub use fault::{Failed, Fault};
pub use line::{MAX_LINE, Pending, ReadLine, next_byte, next_line};
pub use link::{Back, Link};
pub use mem_link::MemLink;
pub use mem_port::MemPort;
pub use number::read_number;
pub use port::{Port, Turn};
pub use sink::{MemSink, Sink, write_all};
pub use source::{MemSource, Source};
