//! A list of calls on a new decoder.
ghost use Rattle.std.specs.Prelude.{◌≡◌};
ghost use Rattle.runs.specs.Ran.{Ran};

use de::decoder::Decoder;
use de::entry::{Call, Entry};
use read::DeRead;
use std::alloc::{AllocError, Global};

/// Makes the calls in their order on a new decoder over this reader, and logs each with its answer and what can be seen then.
/// Where memory is wanting, no more calls are made and logged.
pub fn run<R: DeRead + Drop>(
    alloc: Global,
    reader: R,
    calls: &[Call],
    log: &mut Vec<Entry>,
) -> Result<(), AllocError>
    ensures { Ran R.DeRead.lends (R.DeRead.view reader) calls.now log.old.items result log.new.items }
{
    let mut decoder = Decoder::new(reader);
    for call in calls {
        let entry = decoder.make(alloc, *call)?;
        log.push(entry)?;
    }
    Ok(())
}
