//! A segment: one file of records, each in its frame, with ids that go on from a first one.
//!
//! A segment's memory is the place of each record, in eight bytes. The records stay in the file.
#![tactic(auto)]

mod appending;
mod getting;
mod laws;
mod loading;
mod reading;
mod segment;

pub use disk_model::LoadFault as SegmentFault;
pub use laws::{loadable_records_are_not_damaged, one_place_is_damaged};
pub use loading::Found;
pub use segment::Segment;
