ghost use Rattle.schedule_text.specs.ReadingLaws.{LinesAreOne, FaultsAreOne, RangesAreOne, PlacesAreCapped, LongLinesAreBad};

/// A line is one event at most, a first line one cluster, and a script's line one line of a script.
pub fn lines_are_one()
    ensures { LinesAreOne }
{}

/// A line has one place at most and one name of a number out of range, and no such name where it is in range. So each
/// fault is the only one.
pub fn faults_are_one()
    ensures { FaultsAreOne }
{}

/// The ranges by which a number is found to be out of range are those of events and clusters.
pub fn ranges_are_one()
    ensures { RangesAreOne }
{}

/// A place is one more than the length of the longest of all prefixes of the line that begin some line in form, however
/// long the line is, and at most 513. So it is enough to look at the first 512 bytes.
pub fn places_are_capped()
    ensures { PlacesAreCapped }
{}

/// A line of more than 512 bytes is bad, and its place is that of its first 513 bytes.
pub fn long_lines_are_bad()
    ensures { LongLinesAreBad }
{}
