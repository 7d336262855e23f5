//! One PDU at the start of a table: the calls that read it, and what came of it.
ghost use Rattle.std.specs.Prelude.{◌≡◌, Some, IsSome};
ghost use Rattle.read.specs.Slice.{slice_view};
ghost use Rattle.de.specs.Decoding.{state_of};
ghost use Rattle.survey.specs.Surveys.{Drawn, ReadOut, Surveyed};
ghost use Rattle.survey.specs.Tables.{Means};

use super::slot::Slot;
use super::verdict::Verdict;
use de::decoder::Decoder;
use de::pdu::Closed;
use format::refusal::Refusal;
use read::DeRead;
use read::slice::SliceRead;

// The refusal that the decoder told.
fn told(decoder: &Decoder<SliceRead>) -> Refusal
    requires { IsSome (state_of slice_view decoder.now).refused }
    ensures { (state_of slice_view decoder.now).refused ≡ Some result }
{
    decoder.refusal().unwrap()
}

// Draws events until none is given, and lays them out in the slots as far as they go.
fn draw(decoder: &mut Decoder<SliceRead>, slots: &mut [Slot])
    ensures { Drawn (state_of slice_view decoder.old) slots.old (state_of slice_view decoder.new) slots.new }
{
    let mut filled = 0usize;
    loop {
        match decoder.next(&mut []) {
            Ok(Some(event)) => {
                if filled < slots.len() {
                    slots[filled] = Slot::of(event);
                    filled += 1;
                }
            }
            Ok(None) => return,
            Err(_) => return,
        }
    }
}

// Opens a PDU, draws its events, and closes it.
fn read_out(decoder: &mut Decoder<SliceRead>, slots: &mut [Slot]) -> Result<Closed, Refusal>
    ensures { ReadOut (state_of slice_view decoder.old) slots.old result (state_of slice_view decoder.new) slots.new }
{
    let Ok(info) = decoder.open() else {
        return Err(told(decoder));
    };
    draw(decoder, slots);
    match decoder.close(info) {
        Ok(closed) => Ok(closed),
        Err(_) => Err(told(decoder)),
    }
}

/// Reads the PDU at the start of the table to its end, and lays its events out in the slots, as many as fit. The slots behind
/// them stay as they were.
pub fn survey(table: &[u8], slots: &mut [Slot]) -> Verdict
    ensures reads { Surveyed table.now slots.old result slots.new }
    ensures means { Means table.now slots.old result slots.new }
{
    let mut decoder = Decoder::new(SliceRead::new(table));
    let outcome = read_out(&mut decoder, slots);
    let (events, _) = decoder.tally();
    let taken = decoder.into_inner().read_count();
    match outcome {
        Ok(_) => Verdict::accepted(events, taken),
        Err(refusal) => Verdict::refused(refusal, events, taken),
    }
}
