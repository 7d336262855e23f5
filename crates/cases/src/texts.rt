use super::faults::fault;
use bunser::Bunser;
use bunser::text::{Span, TextKind, Unread};
use format::refusal::{Kind, ReadError};
use read::fence::Fence;
use read::io::IoRead;
use read::slice::SliceRead;
use read::{DeRead, Taken};
use source::SourceFault;
use source::piece::PieceSource;
use source::slice::SliceSource;
use std::process::Abort;

// A reader that copies these bytes, two at a time.
fn pieces(bytes: &[u8]) -> IoRead<PieceSource<'_>> {
    IoRead::new(PieceSource::new(bytes, 2, None))
}

#[test]
fn a_real_is_its_eight_bytes(rt: HostRuntime) {
    let bytes = b"\x00\x00\x00\x00\x00\x00\xf8\x3f";
    assert_eq!(rt;
        Bunser::new(SliceRead::new(bytes)).next_real(),
        Ok(0x3ff8_0000_0000_0000)
    );
    assert_eq!(rt;
        Bunser::new(pieces(bytes)).next_real(),
        Ok(0x3ff8_0000_0000_0000)
    );
    let mut cut = Bunser::new(pieces(b"\x01\x02\x03\x04\x05\x06\x07"));
    assert_eq!(rt; cut.next_real(), Err(ReadError::Short));
    assert_eq!(rt; cut.read_count(), 0);
}

// A text of all these bytes over both kinds of reader, and what stands in the buffer of one that
// copies. A reader that lends leaves the buffer as it was.
fn text_is(rt: &impl Abort, bytes: &[u8], refused: Option<ReadError>, after: [u8; 5]) {
    let mut buf = [0xee; 5];
    let mut lent = Bunser::new(SliceRead::new(bytes));
    let answer = lent.next_text(bytes.len(), &mut buf);
    assert_eq!(rt; answer, refused.map_or(Ok(Taken::Lent(0)), Err));
    assert_eq!(rt; buf, [0xee; 5]);
    assert_eq!(rt; lent.read_count(), bytes.len());
    let mut copied = Bunser::new(pieces(bytes));
    let answer = copied.next_text(bytes.len(), &mut buf);
    assert_eq!(rt; answer, refused.map_or(Ok(Taken::Copied), Err));
    assert_eq!(rt; buf, after);
    assert_eq!(rt; copied.read_count(), bytes.len());
}

// The same of bytes that are no text.
fn is_no_text(rt: &impl Abort, bytes: &[u8], after: [u8; 5]) {
    text_is(rt, bytes, Some(ReadError::NotText), after);
}

#[test]
fn a_text_has_to_be_utf8_and_is_taken_either_way(rt: HostRuntime) {
    text_is(&rt, b"", None, [0xee; 5]);
    text_is(&rt, b"abc", None, *b"abc\xee\xee");
    text_is(&rt, b"\xd8\xa7\xe2\x82\xac", None, *b"\xd8\xa7\xe2\x82\xac");
    is_no_text(&rt, b"\xc0\x80", [0, 0, 0xee, 0xee, 0xee]);
    is_no_text(&rt, b"a\xed\xa0\x80", [0, 0, 0, 0, 0xee]);
    is_no_text(&rt, b"\xe2\x82", [0, 0, 0xee, 0xee, 0xee]);
}

#[test]
fn the_end_is_asked_before_the_room_and_the_room_before_the_bytes(rt: HostRuntime) {
    let mut buf = [0xee; 2];
    let mut fenced = Bunser::new(Fence::new(pieces(b"abc"), 2));
    assert_eq!(rt; fenced.next_text(3, &mut buf), Err(ReadError::Stop));
    assert_eq!(rt; buf, [0xee; 2]);
    let mut cramped = Bunser::new(pieces(b"ab"));
    assert_eq!(rt; cramped.next_text(3, &mut buf), Err(ReadError::Room));
    assert_eq!(rt; buf, [0xee; 2], "nothing was written");
    assert_eq!(rt;
        cramped.next_text(2, &mut buf),
        Ok(Taken::Copied),
        "and nothing lost"
    );
    let mut short = Bunser::new(IoRead::new(PieceSource::new(b"a", 1, SourceFault::new(7))));
    assert_eq!(rt;
        short.next_text(2, &mut buf),
        Err(ReadError::Source(fault(7)))
    );
    assert_eq!(rt; buf, [0; 2], "zeros stand where the text should");
}

#[test]
fn a_text_is_handed_out_where_it_lies(rt: HostRuntime) {
    let input = b"xyabc";
    let mut buf = [0xee; 4];
    let mut lent = Bunser::new(SliceRead::new(input));
    assert!(rt; lent.read_bytes(2, &mut buf).is_ok());
    let taken = lent.next_text(3, &mut buf);
    assert_eq!(rt; taken, Ok(Taken::Lent(2)));
    let span = Span {
        taken: Taken::Lent(2),
        len: 3,
    };
    assert_eq!(rt;
        lent.part(span, input, &buf)
            .map(|part| part == b"abc".as_slice()),
        Ok(true)
    );
    assert_eq!(rt;
        lent.reference(span, &buf)
            .map(|found| (found.len(), found.is_utf8())),
        Ok((3, true))
    );
    let beyond = Span {
        taken: Taken::Lent(3),
        len: 3,
    };
    assert_eq!(rt;
        lent.part(beyond, input, &buf).map(|part| part.len()),
        Err(ReadError::Room.at(5))
    );
    let mut copied = Bunser::new(pieces(input));
    assert_eq!(rt; copied.next_text(4, &mut buf), Ok(Taken::Copied));
    let span = Span {
        taken: Taken::Copied,
        len: 4,
    };
    assert_eq!(rt;
        copied
            .part(span, input, &buf)
            .map(|part| part == b"xyab".as_slice()),
        Ok(true)
    );
    let beyond = Span {
        taken: Taken::Copied,
        len: 5,
    };
    assert_eq!(rt;
        copied.part(beyond, input, &buf).map(|part| part.len()),
        Err(ReadError::Room.at(4))
    );
}

// Passing over a text of all these bytes, whatever the reader.
fn passing<R: DeRead + Drop>(
    rt: &impl Abort,
    read: R,
    text: Unread,
    answer: Result<(), ReadError>,
    count: usize,
) {
    let mut bunser = Bunser::new(read);
    assert_eq!(rt; bunser.pass_text(text), answer);
    assert_eq!(rt; bunser.read_count(), count);
}

#[test]
fn a_text_is_passed_over_in_pieces(rt: HostRuntime) {
    let mut long = [0x61; 131];
    for (kind, answer) in [
        (TextKind::Bytes, Ok(())),
        (TextKind::Text, Err(ReadError::NotText)),
        (TextKind::Key, Err(ReadError::NotText)),
    ] {
        let text = Unread { kind, len: 131 };
        long[63] = 0x61;
        passing(&rt, SliceRead::new(&long), text, Ok(()), 131);
        passing(&rt, IoRead::new(SliceSource::new(&long)), text, Ok(()), 131);
        long[63] = 0xe2;
        passing(&rt, SliceRead::new(&long), text, answer, 131);
        passing(&rt, IoRead::new(SliceSource::new(&long)), text, answer, 131);
    }
    let text = Unread {
        kind: TextKind::Bytes,
        len: 132,
    };
    passing(&rt, SliceRead::new(&long), text, Err(ReadError::Short), 0);
    passing(
        &rt,
        IoRead::new(SliceSource::new(&long)),
        text,
        Err(ReadError::Short),
        128,
    );
}

#[test]
fn a_key_is_a_text_or_bytes(rt: HostRuntime) {
    assert_eq!(rt;
        Bunser::new(SliceRead::new(b"\x02\x03\x05")).key_len(Kind::MapKey),
        Ok(5)
    );
    assert_eq!(rt;
        Bunser::new(pieces(b"\x0d\x04\x00\x01")).key_len(Kind::TemplateKey),
        Ok(256)
    );
    let mut other = Bunser::new(pieces(b"\x03\x05"));
    assert_eq!(rt;
        other.key_len(Kind::MapKey),
        Err(ReadError::Byte(Kind::MapKey, 0x03).at(0))
    );
    assert_eq!(rt; other.read_count(), 0, "what begins no key is not taken");
    let mut less = Bunser::new(SliceRead::new(b"\x02\x03\xff"));
    assert_eq!(rt;
        less.key_len(Kind::TemplateKey),
        Err(ReadError::Negative.at(1))
    );
}
