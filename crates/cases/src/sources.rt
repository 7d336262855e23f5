use super::faults::fault;
use source::chain::Chain;
use source::piece::PieceSource;
use source::slice::SliceSource;
use source::{FillError, Source, SourceFault, read_exact};
use std::process::Abort;

// One read into a buffer of four bytes, each 0xee before: the answer, and the buffer then.
fn read_four<S: Source>(
    rt: &impl Abort,
    source: &mut S,
    answer: Result<usize, SourceFault>,
    after: [u8; 4],
) {
    let mut buf = [0xee; 4];
    assert_eq!(rt; source.read(&mut buf), answer);
    assert_eq!(rt; buf, after);
}

#[test]
fn an_empty_buffer_takes_nothing(rt: HostRuntime) {
    let mut slice = SliceSource::new(b"ab");
    assert_eq!(rt; slice.read(&mut []), Ok(0));
    read_four(&rt, &mut slice, Ok(2), [0x61, 0x62, 0xee, 0xee]);
    let mut piece = PieceSource::new(b"a", 3, SourceFault::new(9));
    assert_eq!(rt; piece.read(&mut []), Ok(0));
    read_four(&rt, &mut piece, Ok(1), [0x61, 0xee, 0xee, 0xee]);
    assert_eq!(rt;
        piece.read(&mut []),
        Ok(0),
        "also where the source has ended in a fault"
    );
    let mut chain = Chain::new(
        PieceSource::new(b"", 1, SourceFault::new(7)),
        SliceSource::new(b"c"),
    );
    assert_eq!(rt; chain.read(&mut []), Ok(0));
}

#[test]
fn a_slice_gives_all_that_fits(rt: HostRuntime) {
    let mut slice = SliceSource::new(b"abcdef");
    read_four(&rt, &mut slice, Ok(4), *b"abcd");
    read_four(&rt, &mut slice, Ok(2), [0x65, 0x66, 0xee, 0xee]);
    read_four(&rt, &mut slice, Ok(0), [0xee; 4]);
    read_four(&rt, &mut slice, Ok(0), [0xee; 4]);
}

#[test]
fn a_piece_of_0_counts_as_1(rt: HostRuntime) {
    let mut piece = PieceSource::new(b"ab", 0, None);
    read_four(&rt, &mut piece, Ok(1), [0x61, 0xee, 0xee, 0xee]);
    read_four(&rt, &mut piece, Ok(1), [0x62, 0xee, 0xee, 0xee]);
    read_four(&rt, &mut piece, Ok(0), [0xee; 4]);
}

#[test]
fn a_fault_is_told_each_time_and_after_the_bytes(rt: HostRuntime) {
    let mut piece = PieceSource::new(b"abc", 2, SourceFault::new(65_535));
    read_four(&rt, &mut piece, Ok(2), [0x61, 0x62, 0xee, 0xee]);
    read_four(&rt, &mut piece, Ok(1), [0x63, 0xee, 0xee, 0xee]);
    read_four(&rt, &mut piece, Err(fault(65_535)), [0xee; 4]);
    read_four(&rt, &mut piece, Err(fault(65_535)), [0xee; 4]);
}

#[test]
fn a_chain_goes_on_where_the_first_ends_cleanly(rt: HostRuntime) {
    let mut chain = Chain::new(
        SliceSource::new(b"ab"),
        PieceSource::new(b"c", 1, SourceFault::new(5)),
    );
    read_four(&rt, &mut chain, Ok(2), [0x61, 0x62, 0xee, 0xee]);
    read_four(&rt, &mut chain, Ok(1), [0x63, 0xee, 0xee, 0xee]);
    read_four(&rt, &mut chain, Err(fault(5)), [0xee; 4]);
    let mut first_empty = Chain::new(SliceSource::new(b""), SliceSource::new(b"z"));
    read_four(&rt, &mut first_empty, Ok(1), [0x7a, 0xee, 0xee, 0xee]);
    read_four(&rt, &mut first_empty, Ok(0), [0xee; 4]);
}

#[test]
fn a_fault_of_the_first_ends_the_chain(rt: HostRuntime) {
    let mut chain = Chain::new(
        PieceSource::new(b"a", 4, SourceFault::new(1)),
        SliceSource::new(b"bcd"),
    );
    read_four(&rt, &mut chain, Ok(1), [0x61, 0xee, 0xee, 0xee]);
    read_four(&rt, &mut chain, Err(fault(1)), [0xee; 4]);
    read_four(&rt, &mut chain, Err(fault(1)), [0xee; 4]);
}

#[test]
fn every_piece_size_fills_alike(rt: HostRuntime) {
    for most in 0..12 {
        let mut piece = PieceSource::new(b"0123456789", most, SourceFault::new(3));
        let mut buf = [0xee; 7];
        assert_eq!(rt; read_exact(&mut piece, &mut buf), Ok(()));
        assert_eq!(rt; buf, *b"0123456");
        let mut rest = [0xee; 5];
        assert_eq!(rt;
            read_exact(&mut piece, &mut rest),
            Err(FillError::Fault(fault(3))),
            "three bytes are left of the five"
        );
        assert_eq!(rt; rest, [0x37, 0x38, 0x39, 0xee, 0xee]);
    }
}

#[test]
fn a_clean_end_before_the_buffer_is_full_is_told_as_the_end(rt: HostRuntime) {
    let mut chain = Chain::new(SliceSource::new(b"ab"), SliceSource::new(b"c"));
    let mut exact = [0xee; 3];
    assert_eq!(rt; read_exact(&mut chain, &mut exact), Ok(()));
    assert_eq!(rt; exact, *b"abc");
    assert_eq!(rt; read_exact(&mut chain, &mut []), Ok(()));
    let mut one = [0xee; 1];
    assert_eq!(rt; read_exact(&mut chain, &mut one), Err(FillError::End));
    assert_eq!(rt; one, [0xee]);
}
