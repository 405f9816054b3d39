//! The journal's end on a file of the system.

#![tactic(auto)]

mod file;
mod opened;
mod shadow;

pub use file::Disk;
pub use opened::Opened;
