use super::faults::fault;
use bunser::{Bunser, Header};
use format::refusal::{Cause, Kind, Layer, ReadError, Refusal};
use read::DeRead;
use read::fence::Fence;
use read::io::IoRead;
use read::slice::SliceRead;
use source::SourceFault;
use source::chain::Chain;
use source::piece::PieceSource;
use std::process::Abort;
use std::test::Fail;

// What reading a header over this reader comes to, and how many bytes are then taken.
fn comes_to<R: DeRead + Drop>(
    rt: &impl Abort,
    read: R,
    answer: Result<Header, Refusal>,
    count: usize,
) {
    let mut bunser = Bunser::new(read);
    assert_eq!(rt; bunser.read_pdu(), answer);
    assert_eq!(rt; bunser.read_count(), count);
}

// The same header over a slice, up to a fence, over pieces of each size and over a chain.
fn accepted(rt: &impl Abort, bytes: &[u8], capabilities: u32, start: usize, length: usize) {
    let header = Header {
        capabilities,
        start,
        length,
    };
    comes_to(rt, SliceRead::new(bytes), Ok(header), start);
    comes_to(
        rt,
        Fence::new(SliceRead::new(bytes), start),
        Ok(header),
        start,
    );
    for most in 1..4 {
        comes_to(
            rt,
            IoRead::new(PieceSource::new(bytes, most, None)),
            Ok(header),
            start,
        );
    }
    let (front, back) = bytes.split_at(bytes.len() / 2);
    let chain = Chain::new(
        PieceSource::new(front, 64, None),
        PieceSource::new(back, 64, SourceFault::new(9)),
    );
    comes_to(rt, IoRead::new(chain), Ok(header), start);
}

#[test]
fn headers_of_every_width(rt: HostRuntime) {
    let one_byte = b"\x00\x02\x00\x00\x00\x00\x03\x01\x0a";
    accepted(&rt, one_byte, 0, 8, 1);
    let two_bytes = b"\x00\x02\x01\x00\x00\x80\x04\x00\x01";
    accepted(&rt, two_bytes, 0x8000_0001, 9, 256);
    let four_bytes = b"\x00\x02\x04\x03\x02\x01\x05\x1b\x00\x00\x00";
    accepted(&rt, four_bytes, 0x0102_0304, 11, 27);
    let eight_bytes = b"\x00\x02\x00\x00\x00\x00\x06\xf1\xff\xff\xff\xff\xff\xff\x0f";
    accepted(&rt, eight_bytes, 0, 15, 1_152_921_504_606_846_961);
}

fn refuses<R: DeRead + Drop>(
    rt: &impl Abort,
    read: R,
    place: usize,
    error: ReadError,
    count: usize,
) {
    let cause = Cause::Read(error);
    comes_to(rt, read, Err(Refusal { place, cause }), count);
}

// The same refusal over a slice, and over pieces of each size.
fn refused(rt: &impl Abort, bytes: &[u8], place: usize, error: ReadError, count: usize) {
    refuses(rt, SliceRead::new(bytes), place, error, count);
    for most in 1..4 {
        refuses(
            rt,
            IoRead::new(PieceSource::new(bytes, most, None)),
            place,
            error,
            count,
        );
    }
}

#[test]
fn a_header_that_is_cut_short(rt: HostRuntime) {
    refused(&rt, b"", 0, ReadError::Short, 0);
    refused(&rt, b"\x00", 0, ReadError::Short, 0);
    refused(&rt, b"\x00\x02\x00\x00", 2, ReadError::Short, 2);
    refused(&rt, b"\x00\x02\x00\x00\x00\x00", 6, ReadError::Short, 6);
    let half_a_length = b"\x00\x02\x00\x00\x00\x00\x04\x01";
    refused(&rt, half_a_length, 6, ReadError::Short, 7);
}

#[test]
fn a_header_before_a_fault(rt: HostRuntime) {
    let at_once = IoRead::new(PieceSource::new(b"\x00", 1, SourceFault::new(65_535)));
    refuses(&rt, at_once, 0, ReadError::Source(fault(65_535)), 0);
    let later = IoRead::new(PieceSource::new(b"\x00\x02\x00", 1, SourceFault::new(8)));
    refuses(&rt, later, 2, ReadError::Source(fault(8)), 2);
    let chain = Chain::new(
        PieceSource::new(b"\x00\x02\x00\x00\x00\x00\x05\x01", 3, SourceFault::new(1)),
        PieceSource::new(b"\x00\x00\x00", 3, None),
    );
    refuses(&rt, IoRead::new(chain), 6, ReadError::Source(fault(1)), 7);
}

#[test]
fn a_header_that_breaks_a_rule(rt: HostRuntime) {
    refused(&rt, b"\x00\x01", 0, ReadError::Magic([0, 1]), 2);
    let turned_magic = b"\x02\x00\x00\x00\x00\x00\x03\x01";
    refused(&rt, turned_magic, 0, ReadError::Magic([2, 0]), 2);
    let no_length = b"\x00\x02\x00\x00\x00\x00\x0a";
    refused(&rt, no_length, 6, ReadError::Byte(Kind::Integer, 0x0a), 6);
    let negative = b"\x00\x02\x00\x00\x00\x00\x03\xff";
    refused(&rt, negative, 6, ReadError::Negative, 8);
    let too_long = b"\x00\x02\x00\x00\x00\x00\x06\xf2\xff\xff\xff\xff\xff\xff\x0f";
    refused(&rt, too_long, 6, ReadError::TooLong, 15);
}

#[test]
fn a_header_at_a_stop(rt: HostRuntime) {
    let bytes = b"\x00\x02\x00\x00\x00\x00\x04\x01\x00";
    for (stop, place) in [(1, 0), (5, 2), (6, 6)] {
        let fenced = Fence::new(SliceRead::new(bytes), stop);
        refuses(&rt, fenced, place, ReadError::Stop, place);
    }
    let fenced = Fence::new(IoRead::new(PieceSource::new(bytes, 1, None)), 8);
    refuses(&rt, fenced, 6, ReadError::Stop, 7);
}

#[test]
fn no_read_of_a_body_passes_its_end(rt: HostRuntime) {
    let mut bunser = Bunser::new(SliceRead::new(b"\x00\x02\x00\x00\x00\x00\x03\x01\x03\x05"));
    assert!(rt; bunser.read_pdu().is_ok());
    assert_eq!(rt; bunser.check_next_int::<0>(), Err(ReadError::End));
    assert_eq!(rt;
        bunser.read_count(),
        9,
        "the tag stands before the end and is taken"
    );
    assert_eq!(rt; bunser.peek(), Err(ReadError::End));
}

// What a caller can ask of this refusal.
fn numbered(rt: &impl Abort, refusal: Refusal, number: u8, layer: Layer, latches: bool) {
    assert_eq!(rt;
        (refusal.number(), refusal.layer(), refusal.latches()),
        (number, layer, latches)
    );
}

#[test]
fn a_refusal_in_numbers_and_words(rt: HostRuntime) -> Result<(), Fail> {
    let heap = rt.alloc();
    numbered(&rt, ReadError::Stop.at(3), 9, Layer::Reader, true);
    numbered(&rt, ReadError::End.at(3), 9, Layer::Decoder, true);
    let source = ReadError::Source(fault(5)).at(0);
    numbered(&rt, source, 4, Layer::Source, true);
    numbered(&rt, ReadError::Room.at(0), 14, Layer::Decoder, false);
    let words = ReadError::Magic([0, 1]).at(0).to_string(heap)?;
    assert_eq!(rt;
        words.as_str(),
        "refusal 5 at byte 0: this is not a table: it should begin with the bytes 00 02 and begins with 00 01"
    );
    Ok(())
}
