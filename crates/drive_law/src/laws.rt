ghost use Rattle.drive_law.specs.Causes.{NoQuorumHasItsCause, PendingHasItsCause, RecoveredLogIsChosen};
ghost use Rattle.drive_law.specs.Honest.{ASessionIsWonOnce, ASessionOverLinksIsWonOnce};

/// Where a server is running after a drive and a quorum does not hold its whole log, fewer nodes than a quorum take part
/// any more: the others are out.
pub fn pending_has_its_cause()
    ensures { PendingHasItsCause }
{}

/// Where a recovery's drive leaves the server opening or repairing, fewer nodes than a quorum take part any more. Where
/// it leaves it fetching, the chosen node is out.
pub fn no_quorum_has_its_cause()
    ensures { NoQuorumHasItsCause }
{}

/// Where a server is running after a recovery's drive, its log is the chosen one, of the length that it chose.
pub fn recovered_log_is_chosen()
    ensures { RecoveredLogIsChosen }
{}

/// Where a register's peer replies to the requests that it took, of all its users, as the register would, a session that is
/// won later is greater than each that was won before. So none is won twice.
pub fn a_session_is_won_once()
    ensures { ASessionIsWonOnce }
{}

/// The same of the users of such a peer over links, by what each of them was told in its own exchanges: two calls or draws
/// whose last exchanges the peer took at two places win two sessions.
pub fn a_session_over_links_is_won_once()
    ensures { ASessionOverLinksIsWonOnce }
{}
