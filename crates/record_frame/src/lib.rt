//! Records and meta entries as frames of bytes, and back.
//!
//! A frame is the length of its body in four bytes, the body, and the first eight bytes of SHA-256 over both. Reading
//! has two passes: a check, which takes no memory and finds each fault, and a build, which can fail only for want of
//! memory. What reads and writes the parts of a record without a frame is public too, for messages that hold records.
#![tactic(auto)]

mod fault;
mod framing;
mod laws;
mod layout;
mod meta;
mod ranges;
mod reading;
mod writing;

pub use fault::FrameFault;
pub use laws::{
    meta_frames_stand_alone, metas_have_one_spelling, metas_stand_alone, record_frames_stand_alone,
    records_have_one_spelling, records_stand_alone,
};
pub use layout::{after_lists, is_body, is_name, is_transaction, split_name, u32_in, u64_in};
pub use meta::{META_FRAME, decode_meta, encode_meta, meta_frame_len};
pub use ranges::{is_count, is_next_place, is_place};
pub use reading::{check_record, decode_record, framed_id, locks_of, record_of, transaction_of};
pub use writing::{body_len, encode_record, put_locks, put_name, put_record, put_transaction};
