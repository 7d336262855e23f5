//! What a decoder holds between two calls.
use super::events::Events;
use super::pdu::Extent;
use super::turn::Turn;
use format::refusal::Refusal;
use read::DeRead;

/// Reads PDUs one after the other, each event by event, over any reader.
#[derive(Drop)]
pub struct Decoder<R: DeRead> {
    pub(crate) events: Events<R>,
    pub(crate) turn: Turn,
    /// The PDU opened last.
    pub(crate) last: Extent,
    /// The refusal told last.
    pub(crate) refused: Option<Refusal>,
}
