//! The program `waltz` over the real devices: the standard streams, the files of the current folder, and TCP.
#![tactic(auto)]

mod adapters;
mod folder;
mod sockets;

use adapters::{StreamSink, StreamSource};
use folder::FolderDisk;
use sockets::{TcpLink, TcpPort};
use std::io::ErrorKind;
use std::process::ExitCode;
use std::rt::Env;
use std::{env, io};
use waltz_cli::run;

/// The status where there is no memory for the command line.
const NO_MEMORY: u8 = 20;

/// So many seconds does a server wait for a node's reply.
const NODE_PATIENCE: u64 = 15;

/// So many seconds do the other commands wait for a reply: longer than a server waits for seven nodes, one after the other.
const SERVER_PATIENCE: u64 = 120;

// How long the link of this command waits for a reply.
fn patience(words: &[String]) -> u64 {
    match words.first() {
        Some(word) if word.as_str() == "server" => NODE_PATIENCE,
        _ => SERVER_PATIENCE,
    }
}

// The words of the command line, without the program's own name.
fn words(rt: &(impl Env + AllocGlobal)) -> io::Result<Vec<String>> {
    let mut words = Vec::new(rt.alloc());
    for word in env::args(rt)?.skip(1) {
        words.push(word)?;
    }
    Ok(words)
}

fn main(rt: HostRuntime) -> ExitCode {
    let words = match words(&rt) {
        Ok(words) => words,
        Err(error) if error.kind() == ErrorKind::OutOfMemory => return ExitCode::from(NO_MEMORY),
        // A command line that is not UTF-8 is in no form, as one without words.
        Err(_) => Vec::new(rt.alloc()),
    };
    let mut source = StreamSource::new(rt.reader());
    let mut sink = StreamSink::new(io::writer(&rt));
    let mut disk = FolderDisk::new(&rt);
    let mut port = TcpPort::new(&rt);
    let mut link = TcpLink::new(&rt, patience(&words));
    let status = run(
        rt.alloc(),
        &words,
        &mut source,
        &mut sink,
        &mut disk,
        &mut port,
        &mut link,
    );
    ExitCode::from(status)
}
