//! What a drive leaves behind.
#![tactic(auto)]

mod laws;

pub use laws::{
    a_session_is_won_once, a_session_over_links_is_won_once, no_quorum_has_its_cause,
    pending_has_its_cause, recovered_log_is_chosen,
};
