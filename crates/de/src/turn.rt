//! Whether the calls that give events are in their turn.
ghost use Rattle.std.specs.Prelude.{◌≡◌};
ghost use Rattle.de.specs.Decoding.{pdu_of, latched_of};

use super::pdu::OpenPdu;
use format::refusal::Refusal;

// One value and no two `Option`s, so that one question stands before each event.
#[derive(Clone, Copy)]
pub(crate) enum Turn {
    /// No PDU is open.
    Closed,
    /// A PDU is open.
    Open(OpenPdu),
    /// A refusal has latched, which later calls give again; a PDU may be open still.
    Latched(Refusal, Option<OpenPdu>),
}

impl Turn {
    pub(crate) fn pdu(self) -> Option<OpenPdu>
        ensures { result ≡ pdu_of self }
    {
        match self {
            Turn::Closed => None,
            Turn::Open(pdu) => Some(pdu),
            Turn::Latched(_, pdu) => pdu,
        }
    }

    pub(crate) fn latched(self) -> Option<Refusal>
        ensures { result ≡ latched_of self }
    {
        match self {
            Turn::Latched(refusal, _) => Some(refusal),
            _ => None,
        }
    }
}
