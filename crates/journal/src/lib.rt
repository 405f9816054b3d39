//! The journal: the bytes of its records, and records read back.

#![tactic(auto)]

mod error;
mod fields;
mod kinds;
mod records;
mod theorems;
mod write;

pub use error::Unread;
pub use records::decode;
pub use theorems::{cut_leaves_records, reads_what_was_written};
pub use write::encode;

#[cfg(test)]
mod tests;
