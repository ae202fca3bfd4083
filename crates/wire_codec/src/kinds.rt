//! The bytes that name families, kinds, reasons and phases, for writing and for reading.

pub(crate) mod family {
    pub(crate) const TO_NODE: u8 = 1;

    pub(crate) const FROM_NODE: u8 = 2;

    pub(crate) const TO_SERVER: u8 = 3;

    pub(crate) const FROM_SERVER: u8 = 4;

    pub(crate) const TO_REGISTER: u8 = 5;

    pub(crate) const FROM_REGISTER: u8 = 6;

    pub(crate) const CONTROL: u8 = 7;
}

pub(crate) mod to_node {
    pub(crate) const OPEN: u8 = 1;

    pub(crate) const FETCH: u8 = 2;

    pub(crate) const STAGE: u8 = 3;

    pub(crate) const ADOPT: u8 = 4;

    pub(crate) const APPEND: u8 = 5;

    pub(crate) const LOW: u8 = 6;
}

pub(crate) mod from_node {
    pub(crate) const OPENED: u8 = 1;

    pub(crate) const STALE: u8 = 2;

    pub(crate) const UNOPENED: u8 = 3;

    pub(crate) const RECORDS: u8 = 4;

    pub(crate) const STAGED: u8 = 5;

    pub(crate) const STAGE_AT: u8 = 6;

    pub(crate) const ADOPTED: u8 = 7;

    pub(crate) const ACKED: u8 = 8;

    pub(crate) const GAP: u8 = 9;

    pub(crate) const NOT_ADOPTED: u8 = 10;

    pub(crate) const LOW_SET: u8 = 11;
}

pub(crate) mod to_server {
    pub(crate) const APPEND: u8 = 1;

    pub(crate) const FEED: u8 = 2;

    pub(crate) const GET: u8 = 3;

    pub(crate) const FLUSH: u8 = 4;
}

pub(crate) mod from_server {
    pub(crate) const COMMITTED: u8 = 1;

    pub(crate) const PENDING: u8 = 2;

    pub(crate) const REFUSED: u8 = 3;

    pub(crate) const HEADS: u8 = 4;

    pub(crate) const ENTRY: u8 = 5;

    pub(crate) const FLUSHED: u8 = 6;

    pub(crate) const UNSERVED: u8 = 7;
}

pub(crate) mod to_register {
    pub(crate) const READ: u8 = 1;

    pub(crate) const CAS: u8 = 2;
}

pub(crate) mod from_register {
    pub(crate) const VALUE: u8 = 1;

    pub(crate) const WON: u8 = 2;

    pub(crate) const LOST: u8 = 3;

    pub(crate) const EXHAUSTED: u8 = 4;
}

pub(crate) mod control {
    pub(crate) const BYE: u8 = 1;

    pub(crate) const DONE: u8 = 2;

    pub(crate) const NO: u8 = 3;
}

/// Why a request is refused, and why nothing is shown. The first of them is in both.
pub(crate) mod reason {
    pub(crate) const NOT_RUNNING: u8 = 1;

    pub(crate) const CLOSED: u8 = 2;

    pub(crate) const MARK_AHEAD: u8 = 3;

    pub(crate) const LOCKED: u8 = 4;

    pub(crate) const WINDOW_FULL: u8 = 5;

    pub(crate) const LOG_FULL: u8 = 6;

    pub(crate) const BAD_ID: u8 = 7;

    pub(crate) const NOT_YET: u8 = 8;
}

/// Phases in which a server takes no requests, and the two that no reason names.
pub(crate) mod phase {
    pub(crate) const IDLE: u8 = 0;

    pub(crate) const OPENING: u8 = 1;

    pub(crate) const FETCHING: u8 = 2;

    pub(crate) const REPAIRING: u8 = 3;

    pub(crate) const RUNNING: u8 = 4;

    pub(crate) const CLOSED: u8 = 5;
}
