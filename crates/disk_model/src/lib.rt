//! A disk of numbered files: what its calls do, what a crash at any moment may leave of it, and a disk in memory.
#![tactic(auto)]

mod change;
mod disk;
mod fuse;
mod laws;
mod memory;
mod reading;
mod stretch;
mod unloaded;

pub use disk::Disk;
pub use laws::{
    a_cache_is_a_disk, every_disk_is_as_put_but_by_chance, files_stay_sound, firm_frames_are_left,
    images_are_as_put_but_by_chance, plain_files_are_left_as_read,
};
pub use memory::MemDisk;
pub use reading::read_full;
pub use stretch::Stretch;
pub use unloaded::{LoadFault, Unloaded};
