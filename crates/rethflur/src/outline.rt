// The outline of a script that was read: each function's header as the text writes it.
use lexing::tokens::Tokens;
use std::io;
use std::str::from_utf8;

// Prints the text from `start` up to `end`, blanks at its ends left out.
fn header(rt: &HostRuntime, text: &[u8], start: usize, end: usize) -> io::Result<()> {
    let bytes = text.get(start..end).unwrap_or(&[]);
    println!(rt; "  fun {}", from_utf8(bytes).unwrap_or("?").trim())
}

// Prints the header of each function: from behind `fun` to its block's brace.
pub(crate) fn outline(rt: &HostRuntime, text: &[u8]) -> io::Result<()> {
    let mut start = None;
    for token in Tokens::new(text) {
        let Ok(token) = token else {
            return Ok(());
        };
        match token.bytes {
            b"fun" => start = Some(token.place.saturating_add(3)),
            b"{" => {
                if let Some(place) = start.take() {
                    header(rt, text, place, token.place)?;
                }
            }
            _ => {}
        }
    }
    Ok(())
}
