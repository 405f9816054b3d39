//! The register: rows, the entries of eight indexes and their heads together, and records done to them.

#![tactic(auto)]

mod kinds;
mod owner;
mod place;
mod reads;
mod steps;
mod theorems;
mod whole;

pub use kinds::Record;
pub use owner::Register;
pub use theorems::replays_in_order;

#[cfg(test)]
mod tests;
