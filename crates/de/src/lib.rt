//! A decoder over any reader: four calls that give a body event by event.
#![tactic(auto)]

mod array;
mod at_hand;
mod calls;
mod coming;
pub mod decoder;
pub mod entry;
pub mod event;
pub mod events;
mod item;
mod made;
pub mod pdu;
mod row;
mod skip;
mod template;
mod text;
mod turn;
