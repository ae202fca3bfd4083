ghost use Rattle.world_law.specs.Laws.{EveryRunIsSafe, EveryRunIsSound, BooksAreClean, SessionsAgree, TheOneLogGrows, TheOneLogIsFound, ThereIsOneLog, TheOneLogIsALog, TheOneLogIsClean, TheOneLogIsWellLocked, ClientsAreServed, RequestsEnterOnce, CleanLogsHaveValidReads, ReadsAreValid};

/// In each world of each run all committed logs are prefixes of one log, which is clean and only grows, and each client's
/// application is the serial application of its first transactions.
pub fn every_run_is_safe()
    ensures { EveryRunIsSafe }
{}

/// In each world of each run no server keeps a number above the register's and no node has promised a session above it; no
/// session is won twice, no two servers have one session, and an envelope stays what it was.
pub fn every_run_is_sound()
    ensures { EveryRunIsSound }
{}

/// Every session's book is clean, and each node's log begins the book of its adopted session, or is empty where it adopted
/// none.
pub fn books_clean()
    ensures { BooksAreClean }
{}

/// What a session committed begins the chosen log of each later session that came to repairing, and the one log, which only
/// grows.
pub fn agreement()
    ensures agree { SessionsAgree }
    ensures grows { TheOneLogGrows }
{}

/// The one log is a log, its k-th record having the id k, and clean: what a transaction named, no record strictly between its
/// mark and its place holds.
pub fn acceptance()
    ensures numbered { TheOneLogIsALog }
    ensures clean { TheOneLogIsClean }
{}

/// Each head and each entry that a server gave stands in the one log at its id, and each client's application is the serial
/// application of its first transactions.
pub fn applications()
    ensures { ClientsAreServed }
{}

/// The search for the one log finds the longest commit, of several the one of the least session; and there is no other.
pub fn one_log_is_found()
    ensures found { TheOneLogIsFound }
    ensures one { ThereIsOneLog }
{}

/// The numbers that a client had at its mark still stand just before the place of its transaction, at each key that it named:
/// so in every log that is clean and well-locked, and in the one log, which is both.
pub fn valid_reads()
    ensures logs { CleanLogsHaveValidReads }
    ensures locked { TheOneLogIsWellLocked }
    ensures reads { ReadsAreValid }
{}

/// Two places of the one log with the same client and request hold one transaction, which has no write lock. So a request that
/// holds a write lock enters at most once.
pub fn repeats()
    ensures { RequestsEnterOnce }
{}
