//! What a decoder holds of a body in fixed memory: the open levels, and the keys of open templates.
#![tactic(auto)]

pub mod depth;
pub mod due;
mod frame;
pub mod keys;
pub mod opens;
mod slot;
