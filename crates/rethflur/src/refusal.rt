// A refusal as a person reads it: the position, the number and the question, the line, and a caret under the place.
use crate::failure::Failure;
use crate::input::Script;
use lexing::fault::{Fault, Question};
use report::locate::locate;
use std::alloc::{AllocError, Global};
use std::fmt;

// A question in the words of a refusal.
#[derive(Clone, Copy)]
struct Words(Question);

impl fmt::Display for Words {
    fn fmt<W: fmt::Write>(&self, f: &mut fmt::Formatter<W>) -> fmt::Result {
        f.write_str(match self.0 {
            Question::TextLength => "the text has more than 16384 bytes",
            Question::FirstByte => "no token begins with this byte",
            Question::NumeralFits =>
                "the numeral does not fit 32 signed bits, or a letter or underscore stands directly behind it",
            Question::NameLength => "the name has more than 24 bytes",
            Question::TokenCount => "the text has more than 4096 tokens",
            Question::Grammar => "this token cannot continue the script",
            Question::Nesting =>
                "the block is nested more than 8 deep, or the type's list inside more than 4 others",
            Question::NewFunction => "an earlier function has this name",
            Question::MainFunction =>
                "there is no main without regions, with one int parameter and an int result",
            Question::Room =>
                "this is one more than 64 functions, 8 parameters, 8 regions in scope or 32 variables in scope",
            Question::KnownName => "this name is not known here",
            Question::NewName => "a variable or a region of this name is in scope",
            Question::NeededType => "the atom does not have the type that is needed here",
            Question::ClosedRegion => "the type of the region's block mentions the region",
            Question::TypeDepth => "the type is nested more than 5 deep",
            Question::CallShape => "the function has another number of regions or parameters",
        })
    }
}

// The line in which the byte at `place` stands, without its line feed: the bytes before that byte, and those from it on.
fn line_at(text: &[u8], place: usize) -> (&[u8], &[u8]) {
    let (front, rest) = text.split_at(place.min(text.len()));
    let before = front.rsplit(|byte| *byte == b'\n').next();
    let behind = rest.split(|byte| *byte == b'\n').next();
    (before.unwrap_or(&[]), behind.unwrap_or(&[]))
}

// One column for each byte: a byte that does not print is shown as a question mark.
fn shown(byte: u8) -> char {
    match byte {
        b'\t' | b' '..=b'~' => char::from(byte),
        _ => '?',
    }
}

// The message about a text that was refused, with a line feed at its end.
fn message(heap: Global, name: &str, text: &[u8], fault: Fault) -> Result<String, AllocError> {
    let at = locate(text, fault.place);
    let number = fault.question.number();
    let words = Words(fault.question);
    let mut out = format!(in heap; "{name}:{at}: refused {number}: {words}\n")?;
    let (before, behind) = line_at(text, fault.place);
    for byte in before.iter().chain(behind) {
        out.push(shown(*byte))?;
    }
    out.push('\n')?;
    for byte in before {
        out.push(if *byte == b'\t' { '\t' } else { ' ' })?;
    }
    out.push_str("^\n")?;
    Ok(out)
}

// Prints the message on standard error.
pub(crate) fn show(rt: &HostRuntime, script: &Script, fault: Fault) -> Result<(), Failure> {
    let name = script.name.as_str();
    let text = script.text.as_slice();
    rt.stderr().print(message(rt.alloc(), name, text, fault)?)?;
    Ok(())
}

#[cfg(test)]
mod tests {
    use super::*;
    use lexing::scan::scan;
    use std::process::Abort;
    use std::test::Fail;

    // Scanning the text is refused with this message.
    fn refused_with(
        rt: &impl Abort,
        heap: Global,
        text: &[u8],
        expected: &str,
    ) -> Result<(), Fail> {
        match scan(text) {
            Ok(_) => Err(Fail::new("passed")),
            Err(fault) => {
                let found = message(heap, "kit.s", text, fault)?;
                assert!(rt; found.as_str() == expected);
                Ok(())
            }
        }
    }

    #[test]
    fn the_caret_stands_under_the_place(rt: HostRuntime) -> Result<(), Fail> {
        refused_with(
            &rt,
            rt.alloc(),
            b"let a = 1;\nlet b = $;\n",
            "kit.s:2:9: refused 2: no token begins with this byte\nlet b = $;\n        ^\n",
        )
    }

    #[test]
    fn tabs_stay_and_strange_bytes_take_one_column(rt: HostRuntime) -> Result<(), Fail> {
        refused_with(
            &rt,
            rt.alloc(),
            b"\t\xc3\xa9",
            "kit.s:1:2: refused 2: no token begins with this byte\n\t??\n\t^\n",
        )
    }
}
