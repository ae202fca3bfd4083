ghost use Rattle.schedule_replay.specs.NumberedLaws.{NumbersHaveSchedules, NumbersHaveOneRun};

/// The text of a number's schedule has its lines, and these are a schedule of its cluster and its events: each in form, and
/// its numbers in range.
pub fn numbers_have_schedules()
    ensures { NumbersHaveSchedules }
{}

/// Two runs of the schedule of a number have the same outcomes and the same end, but for the bytes of files: so a replay of
/// its text prints one text, and ends where a drill counts.
pub fn numbers_have_one_run()
    ensures { NumbersHaveOneRun }
{}
