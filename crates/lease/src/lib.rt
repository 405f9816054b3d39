//! Leases: who acts on which stages, and for how long.

#![tactic(auto)]

mod book;
mod lease;
mod office;
mod theorems;
mod times;

pub use book::Book;
pub use lease::Lease;
pub use office::{Desk, Grant};
pub use theorems::{book_small, book_tells, clock_law};
pub use times::Times;

#[cfg(test)]
mod tests;
