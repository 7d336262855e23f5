//! One PDU of a table at once, in memory that the caller has: whether it is accepted, and its events in plain numbers.
#![tactic(auto)]

pub mod slot;
pub mod table;
pub mod verdict;
