// Kinds, places, bytes and rests of single tokens.
use lexing::lex::{token, token_at};
use std::process::Abort;
use std::test::Fail;

// The first token of a text has this kind, place and bytes, and this rest.
fn first(
    rt: &impl Abort,
    text: &[u8],
    kind: u8,
    place: usize,
    bytes: &[u8],
    rest: &[u8],
) -> Result<(), Fail> {
    let (found, behind) = token(text).map_err(|fault| Fail::new(fault.question.number()))?;
    assert_eq!(rt; found.kind.number(), kind);
    assert_eq!(rt; found.place, place);
    assert!(rt; found.bytes == bytes);
    assert!(rt; behind == rest);
    Ok(())
}

#[test]
fn each_keyword_is_one(rt: HostRuntime) -> Result<(), Fail> {
    let words: [&[u8]; 19] = [
        b"fun", b"let", b"print", b"if", b"else", b"region", b"case", b"call", b"list", b"nil",
        b"cons", b"int", b"add", b"sub", b"mul", b"div", b"rem", b"eq", b"lt",
    ];
    for word in words {
        first(&rt, word, 2, 0, word, b"")?;
    }
    Ok(())
}

#[test]
fn neighbours_of_keywords_are_names(rt: HostRuntime) -> Result<(), Fail> {
    first(&rt, b"funs ", 1, 0, b"funs", b" ")?;
    first(&rt, b"fu=", 1, 0, b"fu", b"=")?;
    first(&rt, b"let_", 1, 0, b"let_", b"")?;
    first(&rt, b"i", 1, 0, b"i", b"")?;
    first(&rt, b"if1", 1, 0, b"if1", b"")
}

#[test]
fn words_and_numerals_are_as_long_as_they_can_be(rt: HostRuntime) -> Result<(), Fail> {
    first(&rt, b"  ab_9z-3", 1, 2, b"ab_9z", b"-3")?;
    first(&rt, b"-3-4", 3, 0, b"-3", b"-4")?;
    first(&rt, b"\n12(", 3, 1, b"12", b"(")?;
    first(&rt, b"((", 4, 0, b"(", b"(")
}

#[test]
fn a_place_counts_the_offset(rt: HostRuntime) -> Result<(), Fail> {
    let (found, _) = token_at(b"  x", 40).map_err(|_| Fail::new("refused"))?;
    assert_eq!(rt; found.place, 42);
    match token_at(b" $", 7) {
        Ok(_) => Err(Fail::new("passed")),
        Err(fault) => {
            assert_eq!(rt; fault.place, 8);
            Ok(())
        },
    }
}
