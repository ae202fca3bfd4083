//! Measures frames against SHA-256 alone: `bench frames encode N`, `bench frames decode N` and `bench digest N` do this
//! work N times, and print how many bytes that was and a sum that depends on all of it. `bench segment N` appends N
//! records to a segment over a disk in memory, eight at a time, and loads it again. `bench get N` reads eight records of
//! one N times each by its own call, and `bench run N` by one. `bench store N` appends N batches of eight records to a
//! store over a disk in memory, `bench load N` loads it after them, and `bench disk N` only writes the same frames.
//! `bench server N` has a server of three nodes take N appends, and `bench hashes N` makes their hashes alone. `bench
//! apply N` applies N transactions of four ops. `bench world N` reads a schedule from standard input, and steps N fresh
//! worlds by its events. It keeps no time itself.
#![tactic(auto)]

mod applying;
mod days;
mod job;
mod segment;
mod serving;
mod storing;
mod work;

use applying::apply;
use days::step_schedule;
use job::{Job, job_of};
use segment::{append_and_get, append_and_load};
use serving::{hash_alone, serve};
use std::alloc::Global;
use std::io::Read;
use std::{env, io};
use storing::{store_and_load, store_batches, write_batches};
use work::{Tally, decode, digest, encode};

fn main(rt: HostRuntime) -> io::Result<()> {
    let alloc = rt.alloc();
    let mut words = Vec::new(alloc);
    for word in env::args(&rt)?.skip(1) {
        words.push(word)?;
    }
    let Some(job) = job_of(&words) else {
        println!(rt;
            "bench frames encode N | bench frames decode N | bench digest N | bench segment N | bench get N | bench run N"
        )?;
        println!(rt;
            "bench store N | bench load N | bench disk N | bench server N | bench hashes N | bench apply N | bench world N"
        )?;
        return Ok(());
    };
    let Tally { bytes, sum } = done(alloc, job, rt.reader())?;
    println!(rt; "{bytes} bytes, sum {sum}")?;
    Ok(())
}

fn done<R: Read + Drop>(alloc: Global, job: Job, input: R) -> io::Result<Tally> {
    match job {
        Job::Encode(times) => encode(alloc, times),
        Job::Decode(times) => decode(alloc, times),
        Job::Digest(times) => digest(alloc, times),
        Job::Segment(count) => append_and_load(alloc, count),
        Job::Get(times) => append_and_get(alloc, times, false),
        Job::GetRun(times) => append_and_get(alloc, times, true),
        Job::Store(batches) => store_batches(alloc, batches),
        Job::Load(batches) => store_and_load(alloc, batches),
        Job::Disk(batches) => write_batches(alloc, batches),
        Job::Server(count) => serve(alloc, count),
        Job::Hashes(count) => Ok(hash_alone(count)),
        Job::Apply(times) => apply(alloc, times),
        Job::World(days) => step_schedule(alloc, input, days),
    }
}
