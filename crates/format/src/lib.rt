//! What the layers above the readers share: the tags of the format, the widths of its integers,
//! and refusals with their words.
#![tactic(auto)]

pub mod refusal;
pub mod tags;
pub mod width;
pub mod words;
