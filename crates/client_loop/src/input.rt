ghost use Rattle.std.specs.Prelude.{◌≡◌, [], Err, IfOk};
ghost use Rattle.std.specs.Io.KnownBytes.{prepend_known};
ghost use Rattle.io_core.specs.Causes.{HasCauseOrMemory};
ghost use Rattle.io_core.specs.Lines.{TakesPart, IsTooLong};
ghost use Rattle.schedule_text.specs.Taken.{ReadsOn};
ghost use Rattle.client_loop.specs.Ends.{Counts};
ghost use Rattle.client_loop.specs.Reading.{IsLineOrBad, IsLongBad, IsNextOf, LastOf};

use crate::end::End;
use io_core::{Fault, Pending, ReadLine, Source, next_byte, next_line};
use schedule_text::{LineFault, ScriptLine, long_lines_are_bad, read_script};
use std::alloc::{AllocError, Global};

/// What was read and not used yet, and the line that is read now.
#[derive(Drop)]
pub struct Input {
    pub pending: Pending,
    line: Vec<u8>,
}

impl Input {
    pub fn new(alloc: Global) -> Input
        ensures { result.pending ≡ [] }
    {
        Input {
            pending: Pending::new(),
            line: Vec::new(alloc),
        }
    }
}

/// What the next line of a script is.
#[derive(Drop)]
pub enum Next {
    Line(ScriptLine),
    /// It is none, from this place on.
    Bad(u64),
    /// There is none.
    End,
}

// What a line is.
fn read_whole(alloc: Global, line: &[u8]) -> Result<Next, AllocError>
    ensures { IfOk result (IsLineOrBad line.now) }
{
    match read_script(alloc, line) {
        Ok(script) => Ok(Next::Line(script)),
        Err(LineFault::Bad(at)) => Ok(Next::Bad(at)),
        Err(LineFault::Range(_)) => Err(AllocError),
        Err(LineFault::Memory) => Err(AllocError),
    }
}

// Where a line is bad that begins so and is too long.
#[tactic(auto, using(crate::proofs::NextLines::long_is_bad))]
fn read_long(alloc: Global, front: &[u8]) -> Result<Next, AllocError>
    requires { IsTooLong 512 front.now }
    ensures { IfOk result (IsLongBad front.now) }
{
    // So the line is bad where its front is.
    long_lines_are_bad();
    match read_script(alloc, front) {
        Ok(_) => Err(AllocError),
        Err(LineFault::Bad(at)) => Ok(Next::Bad(at)),
        Err(LineFault::Range(_)) => Err(AllocError),
        Err(LineFault::Memory) => Err(AllocError),
    }
}

/// Reads the next line, and what it is.
pub fn next_script<S: Source>(
    alloc: Global,
    source: &mut S,
    input: &mut Input,
) -> Result<Next, Fault>
    ensures next { IfOk result (IsNextOf
        (prepend_known input.old.pending (S.left source.old))
        (prepend_known input.new.pending (S.left source.new))) }
    ensures failed { result ≡ Err Fault.Failed → (input.new.pending ≡ [])
        × TakesPart 512 (prepend_known input.old.pending (S.left source.old)) (S.left source.new) }
    ensures reads { ReadsOn S.left S.before source.old source.new 512 input.old.pending }
    ensures cause { HasCauseOrMemory (S.faults source.old) (S.faults source.new) result }
{
    match next_line(source, &mut input.pending, &mut input.line) {
        Ok(ReadLine::End) => Ok(Next::End),
        Ok(ReadLine::TooLong) => match read_long(alloc, &input.line) {
            Ok(next) => Ok(next),
            Err(_) => Err(Fault::Memory),
        },
        Ok(ReadLine::Line) => match read_whole(alloc, &input.line) {
            Ok(next) => Ok(next),
            Err(_) => Err(Fault::Memory),
        },
        Err(fault) => Err(fault),
    }
}

/// Looks for a byte after the last line that is allowed.
pub fn read_last<S: Source>(source: &mut S, input: &mut Input) -> End
    ensures last { LastOf
        (prepend_known input.old.pending (S.left source.old))
        (prepend_known input.new.pending (S.left source.new)) result }
    ensures empty { result ≡ End.ReadFault → input.new.pending ≡ [] }
    ensures reads { result ≡ End.Limit → ReadsOn S.left S.before source.old source.new 0 input.old.pending }
    ensures faults { Counts (S.faults source.old) (S.faults source.new) (result ≡ End.ReadFault) }
{
    match next_byte(source, &mut input.pending) {
        Ok(Some(_)) => End::Limit,
        Ok(None) => End::Done,
        Err(_) => End::ReadFault,
    }
}
