//! Coming up: the records of a journal are read of its bytes and done again.

#![tactic(auto)]

mod error;
mod reader;
mod records;
mod theorems;

pub use error::NotRead;
pub use reader::Reader;
pub use records::replay;
pub use theorems::windows_agree;

#[cfg(test)]
mod tests;
