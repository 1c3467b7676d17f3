// Examples at the edges, each worked out by hand.
use crate::line::{Cut, cut_line};
use crate::name::{eq_ignore_case, put_lower};
use crate::numeral::{Base, read_number, write_number};
use crate::output::put;
use crate::squeezed::{put_squeezed, squeezed_len};
use crate::value::{squeeze, trim};

#[test]
fn numerals_at_their_limits(rt: HostRuntime) {
    assert_eq!(rt; read_number(b"0", Base::Decimal), Some(0));
    assert_eq!(rt; read_number(b"000007", Base::Decimal), Some(7));
    assert_eq!(rt; read_number(b"999999", Base::Decimal), Some(999999));
    assert_eq!(rt; read_number(b"0000001", Base::Decimal), None);
    assert_eq!(rt; read_number(b"", Base::Decimal), None);
    assert_eq!(rt; read_number(b"1a", Base::Decimal), None);
    assert_eq!(rt; read_number(b"fFfFf", Base::Hexadecimal), Some(1048575));
    assert_eq!(rt; read_number(b"000001", Base::Hexadecimal), None);
    assert_eq!(rt; read_number(b"g", Base::Hexadecimal), None);
}

#[test]
fn numbers_without_a_needless_zero(rt: HostRuntime) {
    let mut buf = [0u8; 20];
    assert!(rt; write_number(&mut buf, 0, Base::Decimal) == b"0".as_slice());
    assert!(rt; write_number(&mut buf, 262143, Base::Decimal) == b"262143".as_slice());
    assert!(rt;
        write_number(&mut buf, usize::MAX, Base::Decimal) == b"18446744073709551615".as_slice()
    );
    assert!(rt; write_number(&mut buf, 16384, Base::Hexadecimal) == b"4000".as_slice());
    assert!(rt;
        write_number(&mut buf, usize::MAX, Base::Hexadecimal) == b"ffffffffffffffff".as_slice()
    );
}

// What a cut finds: 'l' and the line's length, 's' for short, '!' and the place of a stray byte.
fn found(s: &[u8]) -> (char, usize) {
    match cut_line(s) {
        Cut::Line(line, _) => ('l', line.len()),
        Cut::Short => ('s', 0),
        Cut::Stray(at) => ('!', at),
    }
}

#[test]
fn lines_end_with_both(rt: HostRuntime) {
    assert_eq!(rt; found(b"ab\r\ncd"), ('l', 2));
    assert_eq!(rt; found(b"\r\n"), ('l', 0));
    assert_eq!(rt; found(b""), ('s', 0));
    assert_eq!(rt; found(b"ab"), ('s', 0));
    assert_eq!(rt; found(b"ab\r"), ('s', 0));
    assert_eq!(rt; found(b"ab\rc"), ('!', 2));
    assert_eq!(rt; found(b"ab\r\r\n"), ('!', 2));
    assert_eq!(rt; found(b"\nab\r\n"), ('!', 0));
}

#[test]
fn values_trimmed_and_squeezed(rt: HostRuntime) {
    assert!(rt; trim(b"") == b"".as_slice());
    assert!(rt; trim(b" \t \t") == b"".as_slice());
    assert!(rt; trim(b"\t a\t b ") == b"a\t b".as_slice());
    let mut value = *b"a \t b\tc";
    assert_eq!(rt; squeeze(&mut value), 5);
    assert!(rt; &value[0..5] == b"a b c".as_slice());
    assert!(rt; &value[5..] == b"\tc".as_slice());
}

#[test]
fn names_without_case(rt: HostRuntime) {
    assert!(rt; eq_ignore_case(b"Host", b"hOST"));
    assert!(rt; !eq_ignore_case(b"hos", b"host"));
    assert!(rt; !eq_ignore_case(b"[", b"{"));
    assert!(rt; !eq_ignore_case(b"@", b"`"));
}

#[test]
fn writes_as_far_as_there_is_room(rt: HostRuntime) {
    let mut out = *b"....";
    assert_eq!(rt; put(&mut out, b"ab"), 2);
    assert!(rt; &out == b"ab..");
    assert_eq!(rt; put(&mut out[2..], b"cde"), 2);
    assert!(rt; &out == b"abcd");
}

#[test]
fn values_written_squeezed(rt: HostRuntime) {
    assert_eq!(rt; squeezed_len(b""), 0);
    assert_eq!(rt; squeezed_len(b"a \t b\tc"), 5);
    let mut out = *b".......";
    assert_eq!(rt; put_squeezed(&mut out, b"a \t b\tc"), 5);
    assert!(rt; &out == b"a b c..");
    assert_eq!(rt; put_squeezed(&mut out[5..], b"d \t \t"), 2);
    assert!(rt; &out == b"a b cd ");
}

#[test]
fn names_in_lower_case(rt: HostRuntime) {
    let mut out = *b"......";
    assert_eq!(rt; put_lower(&mut out, b"X-[Z"), 4);
    assert!(rt; &out == b"x-[z..");
    assert_eq!(rt; put_lower(&mut out[4..], b"ABC"), 2);
    assert!(rt; &out == b"x-[zab");
}
