// The table of a script's tokens.
use crate::failure::Failure;
use crate::input::Script;
use lexing::scan::scan;
use lexing::token::Token;
use lexing::tokens::Tokens;
use report::locate::locate;
use std::io;
use std::str::from_utf8;

fn row(rt: &HostRuntime, text: &[u8], token: Token<'_>) -> io::Result<()> {
    let position = format!(in rt.alloc(); "{}", locate(text, token.place))?;
    let place = token.place;
    let kind = token.kind;
    let bytes = from_utf8(token.bytes).unwrap_or("?");
    println!(rt; "{position:<9} {place:>5}  {kind:<7}  {bytes}")
}

// Lists the tokens of a script, and how many there are, where it passes the questions about tokens.
pub(crate) fn list(rt: &HostRuntime, script: &Script) -> Result<(), Failure> {
    let text = script.text.as_slice();
    let count = scan(text)?;
    println!(rt; "line:col  place  kind     text")?;
    for token in Tokens::new(text) {
        row(rt, text, token?)?;
    }
    println!(rt; "{count} tokens")?;
    Ok(())
}
