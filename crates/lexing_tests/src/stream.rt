// The tokens of a text as they come, and the words for their kinds.
use lexing::token::Kind;
use lexing::tokens::Tokens;
use std::test::Fail;

// How many tokens come, and the number and place of the refusal behind them, if there is one.
fn come(text: &[u8]) -> (usize, Option<(u8, usize)>) {
    // The fault behind them is wanted beside their number.
    let mut count = 0usize;
    for token in Tokens::new(text) {
        match token {
            Ok(_) => count = count.saturating_add(1),
            Err(fault) => return (count, Some((fault.question.number(), fault.place))),
        }
    }
    (count, None)
}

#[test]
fn tokens_come_up_to_the_end_or_a_fault(rt: HostRuntime) {
    assert_eq!(rt; come(b" let a = 7; "), (5, None));
    assert_eq!(rt; come(b" \n"), (0, None));
    assert_eq!(rt; come(b"a $ b"), (1, Some((2, 2))));
}

#[test]
fn nothing_comes_behind_a_fault(rt: HostRuntime) {
    let mut tokens = Tokens::new(b"1a b");
    assert!(rt; tokens.next().is_some_and(|token| token.is_err()));
    assert!(rt; tokens.next().is_none());
    assert!(rt; tokens.next().is_none());
}

#[test]
fn places_and_bytes_come_with_the_tokens(rt: HostRuntime) {
    let mut tokens = Tokens::new(b"fun  x");
    let name = tokens.nth(1);
    assert!(rt;
        name.is_some_and(|token| token.is_ok_and(|token| {
            token.kind == Kind::Name && token.place == 5 && token.bytes == b"x".as_slice()
        }))
    );
}

#[test]
fn kinds_are_shown_by_their_words(rt: HostRuntime) -> Result<(), Fail> {
    let shown = format!(in rt.alloc(); "{}|{:<7}|{:>5}", Kind::Keyword, Kind::End, Kind::Mark)?;
    assert_eq!(rt; shown.as_str(), "keyword|end    | mark");
    Ok(())
}
