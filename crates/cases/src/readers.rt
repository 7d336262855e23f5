use super::faults::fault;
use read::fence::Fence;
use read::io::IoRead;
use read::slice::SliceRead;
use read::{DeRead, Fault, Taken};
use source::SourceFault;
use source::chain::Chain;
use source::piece::PieceSource;
use source::slice::SliceSource;
use std::process::Abort;
use std::test::Fail;

// The bytes 0 to 4 by every call that takes some, and then the end.
fn zero_to_four<R: DeRead>(rt: &impl Abort, r: &mut R) -> Result<(), Fail> {
    let mut buf = [0xee; 3];
    assert_eq!(rt; r.peek(), Ok(0));
    assert_eq!(rt; r.peek(), Ok(0), "asked again it shows the same");
    assert_eq!(rt; r.read_count(), 0);
    assert_eq!(rt; r.next(), Ok(0));
    assert_eq!(rt; r.read_count(), 1);
    assert_eq!(rt; r.peek(), Ok(1));
    let taken = r.next_bytes(2, &mut buf)?;
    if r.lends() {
        assert_eq!(rt; taken, Taken::Lent(1));
        assert_eq!(rt; buf, [0xee; 3]);
        assert_eq!(rt; r.kept(2), Some(2));
        assert_eq!(rt; r.kept(3), None);
    } else {
        assert_eq!(rt; taken, Taken::Copied);
        assert_eq!(rt; buf, [1, 2, 0xee]);
        assert_eq!(rt; r.kept(2), None);
    }
    assert_eq!(rt; r.read_count(), 3);
    last_two(rt, r);
    Ok(())
}

fn last_two<R: DeRead>(rt: &impl Abort, r: &mut R) {
    r.discard();
    assert_eq!(rt; r.read_count(), 3, "nothing was peeked");
    assert_eq!(rt; r.peek(), Ok(3));
    r.discard();
    assert_eq!(rt; r.read_count(), 4);
    assert_eq!(rt; r.next(), Ok(4));
    assert_eq!(rt; r.peek(), Err(Fault::Short));
    assert_eq!(rt; r.next(), Err(Fault::Short));
    assert_eq!(rt; r.read_count(), 5);
}

#[test]
fn every_reader_gives_the_same_bytes(rt: HostRuntime) -> Result<(), Fail> {
    let bytes = [0u8, 1, 2, 3, 4];
    zero_to_four(&rt, &mut SliceRead::new(&bytes))?;
    zero_to_four(&rt, &mut Fence::new(SliceRead::new(&bytes), 6))?;
    for most in 0..7 {
        zero_to_four(&rt, &mut IoRead::new(PieceSource::new(&bytes, most, None)))?;
        let chain = Chain::new(
            SliceSource::new(&bytes[..2]),
            PieceSource::new(&bytes[2..], most, None),
        );
        zero_to_four(&rt, &mut Fence::new(IoRead::new(chain), 6))?;
    }
    Ok(())
}

#[test]
fn a_buffer_may_be_just_full(rt: HostRuntime) {
    let mut r = IoRead::new(SliceSource::new(b"abcd"));
    let mut buf = [0xee; 3];
    assert_eq!(rt; r.next_bytes(4, &mut buf), Err(Fault::Room));
    assert_eq!(rt; buf, [0xee; 3]);
    assert_eq!(rt; r.read_count(), 0);
    assert_eq!(rt; r.next_bytes(3, &mut buf), Ok(Taken::Copied));
    assert_eq!(rt; buf, *b"abc");
    assert_eq!(rt; r.next(), Ok(0x64));
    let mut lent = SliceRead::new(b"abcd");
    assert_eq!(rt;
        lent.next_bytes(4, &mut []),
        Ok(Taken::Lent(0)),
        "a reader that lends needs no room"
    );
}

// A fence at 3 over five bytes: its stop is reached exactly and not passed.
fn stops_at_three<R: DeRead>(rt: &impl Abort, r: &mut R) {
    let mut buf = [0xee; 8];
    assert_eq!(rt; r.next_bytes(4, &mut buf), Err(Fault::Stop));
    assert_eq!(rt; buf, [0xee; 8]);
    assert_eq!(rt; r.read_count(), 0);
    assert!(rt; r.next_bytes(3, &mut buf).is_ok());
    assert_eq!(rt; r.read_count(), 3);
    assert_eq!(rt; r.peek(), Err(Fault::Stop));
    assert_eq!(rt; r.next(), Err(Fault::Stop));
    assert_eq!(rt; r.next_bytes(1, &mut buf), Err(Fault::Stop));
    assert!(rt; r.next_bytes(0, &mut buf).is_ok(), "no byte passes no stop");
}

#[test]
fn a_stop_may_be_reached_and_not_passed(rt: HostRuntime) {
    let bytes = [9u8, 8, 7, 6, 5];
    stops_at_three(&rt, &mut Fence::new(SliceRead::new(&bytes), 3));
    stops_at_three(
        &rt,
        &mut Fence::new(
            IoRead::new(PieceSource::new(&bytes, 2, SourceFault::new(4))),
            3,
        ),
    );
    stops_at_three(
        &rt,
        &mut Fence::new(Fence::new(SliceRead::new(&bytes), 3), 4),
    );
    stops_at_three(
        &rt,
        &mut Fence::new(Fence::new(SliceRead::new(&bytes), 4), 3),
    );
    let mut off = Fence::new(SliceRead::new(&bytes), 1);
    assert_eq!(rt; off.next(), Ok(9));
    assert_eq!(rt; off.next(), Err(Fault::Stop));
    assert_eq!(rt; off.into_inner().next(), Ok(8));
}

#[test]
fn the_stop_of_a_source_reader_is_asked_first(rt: HostRuntime) {
    let mut r = IoRead::new(SliceSource::new(b""));
    assert_eq!(rt;
        r.next_bytes(1_152_921_504_606_846_993, &mut []),
        Err(Fault::Stop)
    );
    assert_eq!(rt;
        r.next_bytes(1_152_921_504_606_846_992, &mut []),
        Err(Fault::Room)
    );
    assert_eq!(rt; r.next_bytes(0, &mut []), Ok(Taken::Copied));
}

#[test]
fn the_longest_request_of_a_slice_is_short(rt: HostRuntime) {
    let mut r = SliceRead::new(b"\x0a\x08");
    assert_eq!(rt; r.next(), Ok(0x0a));
    assert_eq!(rt; r.next_bytes(usize::MAX, &mut []), Err(Fault::Short));
    assert_eq!(rt; r.next(), Ok(0x08));
}

// A byte that is peeked outlasts a read of no bytes.
fn peeked_outlasts_no_bytes<R: DeRead>(rt: &impl Abort, r: &mut R) {
    assert_eq!(rt; r.peek(), Ok(0x78));
    assert!(rt; r.next_bytes(0, &mut []).is_ok());
    assert_eq!(rt; r.read_count(), 0);
    r.discard();
    assert_eq!(rt; r.read_count(), 1, "the byte was still peeked");
    assert_eq!(rt; r.next(), Ok(0x79));
}

#[test]
fn no_bytes_leave_the_peeked_byte(rt: HostRuntime) {
    peeked_outlasts_no_bytes(&rt, &mut SliceRead::new(b"xy"));
    peeked_outlasts_no_bytes(&rt, &mut IoRead::new(SliceSource::new(b"xy")));
    peeked_outlasts_no_bytes(
        &rt,
        &mut Fence::new(IoRead::new(PieceSource::new(b"xy", 0, None)), 2),
    );
}

#[test]
fn a_shortfall_zeroes_the_front_of_the_buffer(rt: HostRuntime) {
    for most in 1..4 {
        let mut r = IoRead::new(PieceSource::new(b"ab", most, SourceFault::new(65_535)));
        let mut buf = [0xee; 5];
        assert_eq!(rt; r.peek(), Ok(0x61));
        assert_eq!(rt;
            r.next_bytes(4, &mut buf),
            Err(Fault::Source(fault(65_535)))
        );
        assert_eq!(rt; buf, [0, 0, 0, 0, 0xee]);
        assert_eq!(rt; r.read_count(), 0);
        assert_eq!(rt; r.peek(), Ok(0x61), "the peeked byte stays");
    }
    let mut clean = IoRead::new(SliceSource::new(b"ab"));
    let mut buf = [0xee; 3];
    assert_eq!(rt; clean.next_bytes(3, &mut buf), Err(Fault::Short));
    assert_eq!(rt; buf, [0; 3]);
    let mut lent = SliceRead::new(b"ab");
    let mut stays = [0xee; 3];
    assert_eq!(rt; lent.next_bytes(3, &mut stays), Err(Fault::Short));
    assert_eq!(rt; stays, [0xee; 3]);
    assert_eq!(rt; lent.read_count(), 0);
}
