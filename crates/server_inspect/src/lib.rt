// Inspect: where the latest bytes of a completion record lie, place; these bytes, shown; the records of a log, records.
#![tactic(auto)]

pub mod place;
pub mod records;
pub mod shown;
