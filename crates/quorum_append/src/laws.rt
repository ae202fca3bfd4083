ghost use Rattle.quorum_append.specs.Acknowledgements.{MarksAreFound};

/// The commit mark is what a search below any bound of the acknowledged lengths finds, and there is one alone.
pub fn marks_are_found()
    ensures { MarksAreFound }
{}
