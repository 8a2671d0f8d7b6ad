// Bytes written on one line: `\n`, `\t`, `\\` and `\xHH` stand for one byte each, and every other byte for itself.
#![tactic(auto)]

ghost use Rattle.std.specs.Prelude.{◌≡◌, Some, MatchResult};
ghost use Rattle.escapes.specs.Escapes.{hex, hexed, escaped, decoded, lent, unescaped, said, Why};
ghost use Rattle.escapes.specs.declared.Failure.TheVariants.{Memory};

use std::alloc::{AllocFailed, Global};
use std::error::Error;
use std::fmt;

// Why a line gives no bytes.
#[derive(Clone, Copy, PartialEq, Eq, Debug)]
pub enum Failure {
    // A backslash that begins none of the four forms.
    BadEscape,
    Memory,
}

impl fmt::Display for Failure {
    ghost output = { λ failure. Some (said failure) };

    fn fmt<W: fmt::Write>(&self, f: &mut fmt::Formatter<W>) -> fmt::Result {
        f.write_str(match self {
            Failure::BadEscape => {
                "a backslash stands before n, t, x and two hexadecimal digits, or another backslash"
            }
            Failure::Memory => "there is no memory for this",
        })
    }
}

impl Error for Failure {}

impl<T: Drop> From<AllocFailed<T>> for Failure {
    ghost from_gives = { λ _ failure. failure ≡ Memory };

    fn from(_failed: AllocFailed<T>) -> Failure {
        Failure::Memory
    }
}

// The value of a hexadecimal digit.
fn hex_value(byte: u8) -> Option<u8>
    ensures { result ≡ hex byte }
{
    match byte {
        b'0'..=b'9' => Some(byte - b'0'),
        b'a'..=b'f' => Some(byte - b'a' + 10),
        b'A'..=b'F' => Some(byte - b'A' + 10),
        _ => None,
    }
}

// The byte that two hexadecimal digits at the front stand for, and the rest behind them.
fn hex_byte(text: &[u8]) -> Option<(u8, &[u8])>
    ensures { lent result ≡ hexed text.now }
{
    let [high, low, rest @ ..] = text else {
        return None;
    };
    Some((16 * hex_value(*high)? + hex_value(*low)?, rest))
}

// The byte that the text behind a backslash stands for, and the rest.
fn escape(text: &[u8]) -> Option<(u8, &[u8])>
    ensures { lent result ≡ escaped text.now }
{
    let (letter, rest) = text.split_first()?;
    match *letter {
        b'n' => Some((b'\n', rest)),
        b't' => Some((b'\t', rest)),
        b'\\' => Some((b'\\', rest)),
        b'x' => hex_byte(rest),
        _ => None,
    }
}

// The first byte that the text stands for, and the rest; none at the end and at a backslash that begins no escape.
fn next_byte(text: &[u8]) -> Option<(u8, &[u8])>
    ensures { lent result ≡ decoded text.now }
{
    let (byte, rest) = text.split_first()?;
    if *byte == b'\\' {
        escape(rest)
    } else {
        Some((*byte, rest))
    }
}

// The bytes that a line stands for.
pub fn unescape(heap: Global, line: &[u8]) -> Result<Vec<u8>, Failure>
    ensures { MatchResult result (λ v. unescaped line.now ≡ Some v.items) (λ e. Why line.now e) }
{
    let mut bytes = Vec::new(heap);
    let mut rest = line;
    // A turn takes from one to four bytes, so that no `for` goes over the line.
    while !rest.is_empty() {
        let (byte, behind) = next_byte(rest).ok_or(Failure::BadEscape)?;
        bytes.push(byte)?;
        rest = behind;
    }
    Ok(bytes)
}
