use super::faults::fault;
use bunser::Bunser;
use format::refusal::{Kind, ReadError};
use format::tags::{NoTag, Tag};
use read::DeRead;
use read::io::IoRead;
use read::slice::SliceRead;
use source::SourceFault;
use source::piece::PieceSource;
use std::process::Abort;

// What reading an integer over this reader comes to, and how many bytes are then taken.
fn reads<R: DeRead + Drop>(rt: &impl Abort, read: R, answer: Result<i64, ReadError>, count: usize) {
    let mut bunser = Bunser::new(read);
    assert_eq!(rt; bunser.check_next_int::<0>(), answer);
    assert_eq!(rt; bunser.read_count(), count);
}

fn int(rt: &impl Abort, bytes: &[u8], value: i64) {
    reads(rt, SliceRead::new(bytes), Ok(value), bytes.len());
    for most in 1..5 {
        reads(
            rt,
            IoRead::new(PieceSource::new(bytes, most, None)),
            Ok(value),
            bytes.len(),
        );
    }
}

#[test]
fn every_width_at_its_edges(rt: HostRuntime) {
    int(&rt, b"\x03\x7f", 127);
    int(&rt, b"\x03\x80", -128);
    int(&rt, b"\x03\xff", -1);
    int(&rt, b"\x04\xff\x7f", 32_767);
    int(&rt, b"\x04\x00\x80", -32_768);
    int(&rt, b"\x04\x27\x06", 1575);
    int(&rt, b"\x05\xff\xff\xff\x7f", 2_147_483_647);
    int(&rt, b"\x05\x00\x00\x00\x80", -2_147_483_648);
    int(&rt, b"\x05\x78\x56\x34\x12", 0x1234_5678);
}

#[test]
fn the_widest_at_its_edges(rt: HostRuntime) {
    int(&rt, b"\x06\xff\xff\xff\xff\xff\xff\xff\x7f", i64::MAX);
    int(&rt, b"\x06\x00\x00\x00\x00\x00\x00\x00\x80", i64::MIN);
    int(&rt, b"\x06\xff\xff\xff\xff\xff\xff\xff\xff", -1);
    int(
        &rt,
        b"\x06\x08\x07\x06\x05\x04\x03\x02\x01",
        0x0102_0304_0506_0708,
    );
    int(&rt, b"\x06\x05\x00\x00\x00\x00\x00\x00\x00", 5);
}

#[test]
fn what_is_no_integer_is_not_taken(rt: HostRuntime) {
    for tag in 0..=255u8 {
        if !(3..=6).contains(&tag) {
            let bytes = [tag, 0, 0];
            reads(
                &rt,
                SliceRead::new(&bytes),
                Err(ReadError::Byte(Kind::Integer, tag)),
                0,
            );
            reads(
                &rt,
                IoRead::new(PieceSource::new(&bytes, 1, None)),
                Err(ReadError::Byte(Kind::Integer, tag)),
                0,
            );
        }
    }
}

#[test]
fn a_cut_number_has_its_tag_taken(rt: HostRuntime) {
    reads(&rt, SliceRead::new(b""), Err(ReadError::Short), 0);
    reads(&rt, SliceRead::new(b"\x03"), Err(ReadError::Short), 1);
    reads(
        &rt,
        SliceRead::new(b"\x06\x01\x02\x03\x04\x05\x06\x07"),
        Err(ReadError::Short),
        1,
    );
    reads(
        &rt,
        IoRead::new(PieceSource::new(b"\x05\x01\x02\x03", 2, None)),
        Err(ReadError::Short),
        1,
    );
    reads(
        &rt,
        IoRead::new(PieceSource::new(b"\x04\x01", 9, SourceFault::new(77))),
        Err(ReadError::Source(fault(77))),
        1,
    );
}

#[test]
fn a_count_is_not_negative(rt: HostRuntime) {
    let mut none = Bunser::new(SliceRead::new(b"\x03\x00"));
    assert_eq!(rt; none.next_count::<0>(), Ok(0));
    let mut most = Bunser::new(SliceRead::new(b"\x06\xff\xff\xff\xff\xff\xff\xff\x7f"));
    assert_eq!(rt; most.next_count::<0>(), Ok(0x7fff_ffff_ffff_ffff));
    let mut less = Bunser::new(IoRead::new(PieceSource::new(b"\x04\xff\xff", 1, None)));
    assert_eq!(rt; less.next_count::<0>(), Err(ReadError::Negative));
    assert_eq!(rt; less.read_count(), 3, "the integer has been taken");
}

#[test]
fn every_tag_has_its_byte(rt: HostRuntime) {
    for byte in 0..=255u8 {
        match Tag::try_from(byte) {
            Ok(tag) => assert_eq!(rt; u8::from(tag), byte),
            Err(none) => assert_eq!(rt; (none, byte > 0x0d), (NoTag(byte), true)),
        }
    }
}
