//! The store: calls, answers, and what they leave.

#![tactic(auto)]

mod batch;
mod call;
mod decide;
mod grant;
mod kinds;
mod owner;
mod pending;
mod serve;
mod store;
mod theorems;

pub use batch::Batch;
pub use kinds::{Answer, Call, Claim};
pub use pending::Pending;
pub use store::Store;
pub use theorems::{example_can_run, keeps, stays};
pub use wal::{Fault, Journal, Memory};
