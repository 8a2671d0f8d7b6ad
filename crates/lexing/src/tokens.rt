// The tokens of a text, one after another.
ghost use Rattle.std.specs.Prelude.{◌≡◌};
ghost use Rattle.std.specs.Iterator.{YieldsFirstBy, item_count};
ghost use Rattle.lexing.specs.Answers.{item};
ghost use Rattle.lexing.specs.Laws.{Streamed};
ghost use Rattle.lexing.specs.Streams.{stream};

use crate::fault::Fault;
use crate::lex::token_at;
use crate::token::{Kind, Token};
use std::marker::Model;

// What is left of a text: its tokens up to the end, which does not come itself, or up to the first fault.
#[derive(Drop)]
pub struct Tokens<'a> {
    rest: &'a [u8],
    offset: usize,
}

impl<'a> Model for Tokens<'a> {
    ghost use Rattle.std.specs.Prelude.{ℕ, ◌+◌, ◌<◌, List, length, Result};
    ghost use Rattle.lexing.specs.Tokens.{Lexeme, Refusal};
    ghost use Rattle.lexing.specs.Streams.{stream_at};

    ghost Value = { List (Result Lexeme Refusal) };

    ghost view = { λ a. stream_at a.offset a.rest.now };

    ghost invariant = { λ a. a.offset + length a.rest.now < 18446744073709551616 };
}

impl<'a> Tokens<'a> {
    pub fn new(text: &'a [u8]) -> Tokens<'a>
        ensures is { result ≡ stream text.now }
        ensures law { Streamed text.now result }
    {
        Tokens {
            rest: text,
            offset: 0,
        }
    }
}

impl<'a> Iterator for Tokens<'a> {
    type Item = Result<Token<'a>, Fault>;

    ghost next_gives = { YieldsFirstBy item (λ s. s) };

    ghost remaining = { item_count (λ s. s) };

    fn next(&mut self) -> Option<Result<Token<'a>, Fault>> {
        match token_at(self.rest, self.offset) {
            Ok((token, behind)) => {
                if token.kind == Kind::End {
                    return None;
                }
                self.offset += self.rest.len() - behind.len();
                self.rest = behind;
                Some(Ok(token))
            }
            Err(fault) => {
                self.rest = &[];
                Some(Err(fault))
            }
        }
    }
}
