// The kind and the width of the token that a text without blanks before it begins with.
ghost use Rattle.std.specs.Prelude.{◌≡◌, ◌≤◌, length};
ghost use Rattle.lexing.specs.Runs.{begins};
ghost use Rattle.lexing.specs.Tokens.{keyword, word_kind, numeral_kind, numeral_width, numeral_begins, width, kind_of};

use crate::class::{Class, is_letter_like, is_word_byte};
use crate::fault::Question;
use crate::numeral::number;
use crate::span::front;
use crate::token::Kind;

const LONGEST_NAME: usize = 24;

fn is_keyword(word: &[u8]) -> bool
    ensures { result ≡ keyword word.now }
{
    matches!(
        word,
        b"fun"
            | b"let"
            | b"print"
            | b"if"
            | b"else"
            | b"region"
            | b"case"
            | b"call"
            | b"list"
            | b"nil"
            | b"cons"
            | b"int"
            | b"add"
            | b"sub"
            | b"mul"
            | b"div"
            | b"rem"
            | b"eq"
            | b"lt"
    )
}

fn word_kind(word: &[u8]) -> Result<Kind, Question>
    ensures { result ≡ word_kind word.now }
{
    if is_keyword(word) {
        Ok(Kind::Keyword)
    } else if word.len() <= LONGEST_NAME {
        Ok(Kind::Name)
    } else {
        Err(Question::NameLength)
    }
}

fn numeral_kind(numeral: &[u8], rest: &[u8]) -> Result<Kind, Question>
    ensures { result ≡ numeral_kind numeral.now rest.now }
{
    if rest.first().is_some_and(|byte| is_letter_like(*byte)) {
        return Err(Question::NumeralFits);
    }
    number(numeral)
        .map(|_| Kind::Numeral)
        .ok_or(Question::NumeralFits)
}

// Whether a numeral begins here: a digit, or a minus with a digit behind it.
fn begins_numeral(body: &[u8]) -> bool
    ensures { result ≡ numeral_begins body.now }
{
    match body {
        [] => false,
        [first, rest @ ..] => {
            if Class::Minus.has(*first) {
                rest.first().is_some_and(|byte| Class::Digit.has(*byte))
            } else {
                Class::Digit.has(*first)
            }
        }
    }
}

fn numeral_width(body: &[u8]) -> usize
    ensures is { result ≡ numeral_width body.now }
    ensures within { result ≤ length body.now }
{
    match body {
        [] => 0,
        [first, rest @ ..] => {
            if Class::Minus.has(*first) {
                1 + front(rest, |byte| Class::Digit.has(byte))
            } else {
                front(body, |byte| Class::Digit.has(byte))
            }
        }
    }
}

// How many bytes the token at the front has; none at the end and where no token begins.
pub(crate) fn token_width(body: &[u8]) -> usize
    ensures is { result ≡ width body.now }
    ensures within { result ≤ length body.now }
{
    if body.is_empty() {
        0
    } else if Class::Letter.has(body[0]) {
        front(body, is_word_byte)
    } else if begins_numeral(body) {
        numeral_width(body)
    } else if Class::Mark.has(body[0]) {
        1
    } else {
        0
    }
}

// The kind of the token at the front, which is `size` bytes wide, or the question that fails.
pub(crate) fn token_kind(body: &[u8], size: usize) -> Result<Kind, Question>
    requires { (size ≡ width body.now) × (size ≤ length body.now) }
    ensures { result ≡ kind_of body.now }
{
    if body.is_empty() {
        return Ok(Kind::End);
    }
    let (bytes, rest) = body.split_at(size);
    if Class::Letter.has(body[0]) {
        word_kind(bytes)
    } else if begins_numeral(body) {
        numeral_kind(bytes, rest)
    } else if Class::Mark.has(body[0]) {
        Ok(Kind::Mark)
    } else {
        Err(Question::FirstByte)
    }
}
