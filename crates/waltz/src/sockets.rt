ghost use Rattle.std.specs.Prelude.{◌≡◌, ◌≤◌, ◌+◌, [], length, IfOk, IfSome};
ghost use Rattle.io_core.specs.Causes.{Rose};

use io_core::{Back, Failed, Fault, Link, Port, Turn};
use std::io;
use std::io::{ErrorKind, Read, Write};
use std::net::{Ipv4Addr, Net, OpenListener, OpenStream, Shutdown, TcpListener, TcpStream};
use std::time::Duration;

/// So many seconds may whoever asks leave a port waiting. Then its request counts as broken off.
const PORT_PATIENCE: u64 = 5;

/// So many pieces of a request that is too long are read and dropped, so that whoever sends it comes to read the answer.
const DROPPED_PIECES: u32 = 4096;

// Bounds how long the peer may leave a call waiting.
fn be_patient<S: OpenStream>(stream: &S, seconds: u64) -> io::Result<()> {
    let patience = Some(Duration::from_secs(seconds));
    stream.set_read_timeout(patience)?;
    stream.set_write_timeout(patience)
}

// Reads into the room from this place on. A call that was interrupted is made again.
fn read_at<S: Read>(stream: &mut S, into: &mut [u8], at: usize) -> io::Result<usize>
    requires { at ≤ length into.old }
    ensures within { IfOk result (λ n. at + n ≤ length into.new) }
    ensures room { length into.new ≡ length into.old }
{
    let (_, rest) = into.split_at_mut(at);
    for _ in 0..u64::MAX {
        match stream.read(rest) {
            Err(error) if error.kind() == ErrorKind::Interrupted => {}
            result => return result,
        }
    }
    Ok(0)
}

// Reads to the end of the stream, or up to the end of the room. The second says whether the stream's end was read.
fn read_all<S: Read>(stream: &mut S, into: &mut [u8]) -> (usize, io::Result<bool>)
    ensures within { result.0 ≤ length into.new }
    ensures room { length into.new ≡ length into.old }
{
    let mut at = 0;
    'pieces: while at < into.len() {
        match read_at(stream, into, at) {
            Ok(0) => return (at, Ok(true)),
            Ok(count) => at += count,
            Err(error) => return (at, Err(error)),
        }
    }
    let mut more = [0; 1];
    match read_at(stream, &mut more, 0) {
        Ok(count) => (at, Ok(count == 0)),
        Err(error) => (at, Err(error)),
    }
}

// Reads what is left of a stream over what the room has, up to a limit.
fn drain<S: Read>(stream: &mut S, room: &mut [u8])
    ensures { length room.new ≡ length room.old }
{
    for _ in 0..DROPPED_PIECES {
        match read_at(stream, room, 0) {
            Ok(0) => return,
            Ok(_) => {}
            Err(_) => return,
        }
    }
}

// The next connection. One that its peer broke off before it was taken is passed over.
fn accept<L: OpenListener<Stream = S>, S: OpenStream + Drop>(listener: &L) -> io::Result<S> {
    for _ in 0..u64::MAX {
        match listener.accept() {
            Ok((stream, _)) => {
                if be_patient(&stream, PORT_PATIENCE).is_ok() {
                    return Ok(stream);
                }
            }
            Err(error) if error.kind() == ErrorKind::ConnectionAborted => {}
            Err(error) if error.kind() == ErrorKind::Interrupted => {}
            Err(error) => return Err(error),
        }
    }
    Err(io::Error::from(ErrorKind::TimedOut))
}

/// A port over TCP on 127.0.0.1, and how often its calls failed. It tells nothing of content.
///
/// A request ends where its sender shuts its side of the connection. The answer is all that is sent back.
#[derive(Drop)]
pub struct TcpPort<'a, R: Net> {
    net: &'a R,
    listener: Option<R::Listener>,
    stream: Option<R::Stream>,
    faults: u64,
    lost: u64,
}

impl<'a, R: Net> TcpPort<'a, R> {
    /// A port that doesn't listen yet.
    pub fn new(net: &'a R) -> Self {
        TcpPort {
            net,
            listener: None,
            stream: None,
            faults: 0,
            lost: 0,
        }
    }

    // Counts a call that failed to take a request.
    fn failed(&mut self) -> Failed
        ensures later { self.old.faults ≤ self.new.faults }
        ensures rose { Rose self.old.faults self.new.faults }
        ensures lost { self.new.lost ≡ self.old.lost }
    {
        self.faults = self.faults.saturating_add(1);
        Failed
    }

    // Counts an answer that was not given.
    fn lost(&mut self) -> Failed
        ensures later { self.old.lost ≤ self.new.lost }
        ensures rose { Rose self.old.lost self.new.lost }
        ensures faults { self.new.faults ≡ self.old.faults }
    {
        self.lost = self.lost.saturating_add(1);
        Failed
    }
}

impl<'a, R: Net> Port for TcpPort<'a, R> {
    ghost tells = { ⊥ };

    ghost coming = { λ p. [] };

    ghost answers = { λ p. [] };

    ghost faults = { λ p. p.faults };

    ghost lost = { λ p. p.lost };

    ghost wants = { λ p. 0 };

    fn listen(&mut self, port: u16) -> Result<(), Failed> {
        match TcpListener::bind(self.net, (Ipv4Addr::LOCALHOST, port)) {
            Ok(listener) => {
                self.listener = Some(listener);
                Ok(())
            }
            Err(_) => Err(self.failed()),
        }
    }

    fn next(&mut self, into: &mut [u8]) -> Result<Turn, Failed> {
        self.stream = None;
        let Some(listener) = &self.listener else {
            return Err(self.failed());
        };
        let Ok(mut stream) = accept(listener) else {
            return Err(self.failed());
        };
        // A request that was broken off is given as far as it came.
        let (count, end) = read_all(&mut stream, into);
        let is_long = matches!(end, Ok(false));
        if is_long {
            drain(&mut stream, into);
        }
        self.stream = Some(stream);
        Ok(if is_long {
            Turn::TooLong
        } else {
            Turn::Got(count)
        })
    }

    fn answer(&mut self, bytes: &[u8]) -> Result<(), Fault> {
        let Some(mut stream) = self.stream.take() else {
            return Err(Fault::from(self.lost()));
        };
        match stream.write_all(bytes) {
            Ok(()) => Ok(()),
            Err(_) => Err(Fault::from(self.lost())),
        }
    }
}

/// A link over TCP on 127.0.0.1, and how often its exchanges failed. It tells nothing of content.
#[derive(Drop)]
pub struct TcpLink<'a, R: Net> {
    net: &'a R,
    patience: u64,
    faults: u64,
}

impl<'a, R: Net> TcpLink<'a, R> {
    /// A link that waits so many seconds for each piece of a reply, then the exchange has failed.
    pub fn new(net: &'a R, patience: u64) -> Self {
        TcpLink {
            net,
            patience,
            faults: 0,
        }
    }
}

// Sends all, tells that this is all, and reads the reply to its end. None is a reply that doesn't end in the room.
fn ask<S: Read + Write + OpenStream>(
    stream: &mut S,
    bytes: &[u8],
    into: &mut [u8],
) -> io::Result<Option<usize>>
    ensures within { IfOk result (λ some. IfSome some (λ n. n ≤ length into.new)) }
    ensures room { length into.new ≡ length into.old }
{
    stream.write_all(bytes)?;
    stream.shutdown(Shutdown::Write)?;
    let (count, end) = read_all(stream, into);
    match end {
        Ok(true) => Ok(Some(count)),
        Ok(false) => Ok(None),
        Err(error) => Err(error),
    }
}

// One exchange on a connection of its own.
fn exchange<R: Net>(
    net: &R,
    patience: u64,
    port: u16,
    bytes: &[u8],
    into: &mut [u8],
) -> io::Result<Option<usize>>
    ensures within { IfOk result (λ some. IfSome some (λ n. n ≤ length into.new)) }
    ensures room { length into.new ≡ length into.old }
{
    let mut stream = TcpStream::connect(net, (Ipv4Addr::LOCALHOST, port))?;
    be_patient(&stream, patience)?;
    ask(&mut stream, bytes, into)
}

impl<'a, R: Net> Link for TcpLink<'a, R> {
    ghost tells = { ⊥ };

    ghost transcript = { λ l. [] };

    ghost faults = { λ l. l.faults };

    ghost wants = { λ l. 0 };

    fn exchange(&mut self, port: u16, bytes: &[u8], into: &mut [u8]) -> Result<Back, Fault> {
        match exchange(self.net, self.patience, port, bytes, into) {
            Ok(Some(count)) => Ok(Back::Got(count)),
            Ok(None) => Ok(Back::TooLong),
            Err(_) => {
                self.faults = self.faults.saturating_add(1);
                Err(Fault::Failed)
            }
        }
    }
}
