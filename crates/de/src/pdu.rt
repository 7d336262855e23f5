ghost use Rattle.std.specs.Prelude.{◌≡◌, ◌+◌, ◌≤◌};

use bunser::Header;

// Not a `Header`, since a token is asked about these two numbers alone, nor a part of it, where
// each of its three numbers would need another name.
/// Where the body of a PDU begins and how long it is.
#[derive(Clone, Copy, PartialEq, Eq, Debug)]
pub struct Extent {
    pub start: usize,
    pub length: usize,
}

/// The PDU that is open, which ends by 2^60.
#[derive(Clone, Copy)]
pub struct OpenPdu {
    pub(crate) start: usize,
    pub(crate) length: usize,
    ghost bounded: { start + length ≤ 1152921504606846976 },
}

/// What `open` read of a PDU. It has to be given to `close`, once.
pub struct PduInfo {
    pub(crate) header: Header,
}

impl PduInfo {
    /// What the header declares.
    pub fn header(&self) -> Header
        ensures { result ≡ self.now.header }
    {
        self.header
    }
}

/// What an accepting `close` tells: how many events have passed, and how long the body was.
#[derive(Clone, Copy, PartialEq, Eq, Debug)]
pub struct Closed {
    pub events: usize,
    pub length: usize,
}
