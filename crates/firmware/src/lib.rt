//! What a program in C or Rust links: a table at once, over memory that the caller has. Nothing here allocates.
#![tactic(auto)]

ghost use Rattle.std.specs.Prelude.{◌≡◌, []};
ghost use Rattle.survey.specs.Surveys.{Surveyed};
ghost use Rattle.survey.specs.Tables.{Means};

use de::decoder::Decoder;
use read::slice::SliceRead;
use survey::slot::Slot;
use survey::table::survey;
use survey::verdict::Verdict;

// firmware/yieldnext.h says so too.
const _: () = prove!(size_of::<Slot>() == 32);

const _: () = prove!(size_of::<Verdict>() == 48);

/// Whether the PDU at the start of the table is accepted, or which refusal it met, and how many events have passed.
#[unsafe(no_mangle)]
pub extern "C" fn yieldnext_check(table: &[u8]) -> Verdict
    ensures reads { Surveyed table.now [] result [] }
    ensures means { Means table.now [] result [] }
{
    survey(table, &mut [])
}

/// The same, and the events laid out in the slots, as many as fit. The slots behind them stay as they were.
#[unsafe(no_mangle)]
pub extern "C" fn yieldnext_events(table: &[u8], slots: &mut [Slot]) -> Verdict
    ensures reads { Surveyed table.now slots.old result slots.new }
    ensures means { Means table.now slots.old result slots.new }
{
    survey(table, slots)
}

/// How many bytes a decoder holds, all of them on the stack of either call.
#[unsafe(no_mangle)]
pub extern "C" fn yieldnext_decoder_size() -> usize
    ensures { result ≡ 15632 }
{
    size_of::<Decoder<SliceRead>>()
}
