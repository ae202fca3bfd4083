ghost use Rattle.std.specs.Prelude.{◌≡◌, ◌++◌, OnOk, IfOk};
ghost use Rattle.std.specs.String.{string_bytes};
ghost use Rattle.server_loop.specs.Ends.{status_of, last_line, out_text, outs_text};

use crate::Out;
use std::alloc::{AllocError, Global};
use std::fmt::Write;

/// How the server's command ends. Each end has a status and a last line.
#[derive(Clone, Copy, Debug, PartialEq, Eq)]
pub enum End {
    /// It took `Bye`.
    Bye,
    /// No request comes any more.
    Port,
    /// It took as many requests as it takes at most.
    Turns,
    /// The port failed.
    Peer,
    /// An exchange with the register failed.
    Register,
    /// The register replied by no awaited message.
    Garbled,
    /// The register's number is the greatest one.
    Exhausted,
    /// This later session closed the server, or was drawn before it drew its own.
    TakenOver(u64),
    /// The recovery ended with too many nodes out: of each node, by its number, whether it is.
    NoQuorum([Out; 8]),
    /// The sink failed.
    WriteFault,
    /// There was no memory.
    Memory,
}

impl End {
    pub fn status(&self) -> u8
        ensures { result ≡ status_of self.now }
    {
        match self {
            End::Bye | End::Port | End::Turns => 0,
            End::Peer => 13,
            End::Register => 14,
            End::Garbled => 19,
            End::Exhausted => 18,
            End::TakenOver(_) => 16,
            End::NoQuorum(_) => 17,
            End::WriteFault => 11,
            End::Memory => 20,
        }
    }
}

// Adds a node that is out, with the reason.
fn add_out(node: u8, out: Out, text: &mut String) -> Result<(), AllocError>
    ensures { OnOk result (string_bytes text.new ≡ string_bytes text.old ++ out_text node out) }
{
    match out {
        Out::In => Ok(()),
        Out::Failed => write!(text, " {node}:failed"),
        Out::Other => write!(text, " {node}:other"),
    }
}

// Adds the nodes that are out, in the order of their numbers.
fn add_outs(outs: &[Out; 8], text: &mut String) -> Result<(), AllocError>
    ensures { OnOk result (string_bytes text.new ≡ string_bytes text.old ++ outs_text outs.now 7) }
{
    for before in 0..7u8 {
        add_out(before + 1, outs[before as usize + 1], text)?;
    }
    Ok(())
}

/// The last line of an end, with its line feed.
pub fn last_line(alloc: Global, end: &End) -> Result<String, AllocError>
    ensures { IfOk result (λ text. string_bytes text ≡ last_line end.now) }
{
    let mut text = String::new(alloc);
    match end {
        End::Bye => text.push_str("end bye\n")?,
        End::Port => text.push_str("end port\n")?,
        End::Turns => text.push_str("end turns\n")?,
        End::Peer => text.push_str("! peer\n")?,
        End::Register => text.push_str("! register\n")?,
        End::Garbled => text.push_str("! answer\n")?,
        End::Exhausted => text.push_str("! exhausted\n")?,
        End::TakenOver(session) => write!(text, "! taken over by {session}\n")?,
        End::NoQuorum(outs) => {
            text.push_str("! no quorum")?;
            add_outs(outs, &mut text)?;
            text.push_str("\n")?;
        }
        End::WriteFault | End::Memory => {}
    }
    Ok(text)
}
