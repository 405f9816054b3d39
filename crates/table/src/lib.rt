//! Rows and index entries: at most one thing for each key. What is above this crate has [`Rows`] and [`Entries`].

#![tactic(auto)]

mod entries;
mod row;
mod rows;
mod table;

pub use entries::Entries;
pub use row::{COLUMNS, Column, OfColumn, Row};
pub use rows::Rows;
pub use table::Table;

#[cfg(test)]
mod tests;
