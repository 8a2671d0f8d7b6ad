// Lengths, counts and ranges: the last value that passes, and the first that does not.
use lexing::fault::Fault;
use lexing::lex::token;
use lexing::numeral::number;
use lexing::scan::scan;
use std::test::Fail;

// A refusal's number and place; 0 where there is none.
fn refused(r: Result<usize, Fault>) -> (u8, usize) {
    match r {
        Ok(count) => (0, count),
        Err(fault) => (fault.question.number(), fault.place),
    }
}

#[test]
fn a_text_has_at_most_16384_bytes(rt: HostRuntime) {
    let text = [b' '; 16_385];
    assert!(rt; text.len() == 16_385);
    assert_eq!(rt; refused(scan(&text[0..16_384])), (0, 0));
    assert_eq!(rt; refused(scan(&text)), (1, 0));
}

#[test]
fn a_text_has_at_most_4096_tokens(rt: HostRuntime) {
    let text = [b';'; 4_097];
    assert!(rt; text.len() == 4_097);
    assert_eq!(rt; refused(scan(&text[0..4_096])), (0, 4_096));
    assert_eq!(rt; refused(scan(&text)), (5, 4_096));
}

#[test]
fn a_name_has_at_most_24_bytes(rt: HostRuntime) {
    assert_eq!(rt; refused(scan(b"abcdefghijklmnopqrstuvwx")), (0, 1));
    assert_eq!(rt; refused(scan(b"abcdefghijklmnopqrstuvwxy")), (4, 0));
    assert_eq!(rt; refused(scan(b"  fun abcdefghijklmnopqrstuvwxy")), (4, 6));
}

#[test]
fn a_numeral_fits_32_signed_bits(rt: HostRuntime) {
    assert_eq!(rt; number(b"2147483647"), Some(2_147_483_647));
    assert_eq!(rt; number(b"2147483648"), None);
    assert_eq!(rt; number(b"-2147483648"), Some(-2_147_483_648));
    assert_eq!(rt; number(b"-2147483649"), None);
    assert_eq!(rt; number(b"00000000000000000000000000000000007"), Some(7));
    assert_eq!(rt; number(b"99999999999999999999999999999999999"), None);
    assert_eq!(rt; number(b"-0"), Some(0));
    assert_eq!(rt; refused(scan(b"2147483648")), (3, 0));
    assert_eq!(rt; refused(scan(b" -2147483649")), (3, 1));
}

#[test]
fn what_is_no_numeral_means_no_number(rt: HostRuntime) {
    assert_eq!(rt; number(b""), None);
    assert_eq!(rt; number(b"-"), None);
    assert_eq!(rt; number(b"--1"), None);
    assert_eq!(rt; number(b"1a"), None);
    assert_eq!(rt; number(b"+1"), None);
}

#[test]
fn every_byte_as_a_first_byte(rt: HostRuntime) {
    for byte in 0..=255u8 {
        let expected = match byte {
            9 | 10 | 13 | 32 => (0, 0),
            b'a'..=b'z' => (0, 1),
            b'0'..=b'9' => (0, 1),
            b'{' | b'}' | b'(' | b')' | b'[' | b']' | b',' | b';' | b':' | b'=' | b'@' => (0, 1),
            _ => (2, 0),
        };
        assert_eq!(rt; refused(scan(&[byte])), expected);
    }
}

#[test]
fn earlier_questions_come_first_from_the_left(rt: HostRuntime) {
    assert_eq!(rt; refused(scan(b"1a $")), (3, 0));
    assert_eq!(rt; refused(scan(b"$ 1a")), (2, 0));
    assert_eq!(rt; refused(scan(b"99999999999a")), (3, 0));
    assert_eq!(rt; refused(scan(b"a -b")), (2, 2));
}

#[test]
fn the_end_comes_behind_the_last_blank(rt: HostRuntime) -> Result<(), Fail> {
    let (end, rest) = token(b" \t\r\n").map_err(|_| Fail::new("refused"))?;
    assert_eq!(rt; end.kind.number(), 0);
    assert_eq!(rt; end.place, 4);
    assert_eq!(rt; end.bytes.len(), 0);
    assert_eq!(rt; rest.len(), 0);
    Ok(())
}
