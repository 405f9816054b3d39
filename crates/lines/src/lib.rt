//! The text of calls.

#![tactic(auto)]

mod fields;
mod kinds;
mod parser;
mod reader;
mod stages;
mod verbs;

pub use kinds::{Asked, Unreadable};
pub use parser::{LONGEST, asked_by_office, is_comment, parse, parse_timed};
pub use stages::stages_in;
pub use verbs::{OfficeVerb, office_verb, spells};

#[cfg(test)]
mod tests;
