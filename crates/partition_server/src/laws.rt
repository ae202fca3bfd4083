ghost use Rattle.partition_server.specs.CommitMarks.{CommitMarksAreExact};

/// The commit mark of a session's server is exactly that of the acknowledgements that it took: the greatest length that a
/// quorum of nodes acknowledged, or 0.
pub fn commit_marks_are_exact()
    ensures { CommitMarksAreExact }
{}
