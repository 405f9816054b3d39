//! What calls are done to.

use lease::{Book, Times};
use register::Register;

/// The register, the book of leases, and the times of leases.
#[derive(Drop)]
pub struct State {
    pub(super) register: Register,
    pub(super) book: Book,
    pub(super) times: Times,
}
