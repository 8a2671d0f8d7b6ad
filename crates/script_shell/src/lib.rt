// Scripts from standard input, one a line with escapes, each answered by a line.
#![tactic(auto)]

use checker::check::check;
use draft::draft::Draft;
use escapes::unescape;
use lexing::fault::Fault;
use program::program::Program;
use reading::read::read;
use std::io;
use std::io::{BufRead, BufReader};

// What reading and then checking a text answers; the program is then that of the text, or the one that was there.
fn verdict(text: &[u8], program: &mut Program) -> Result<(), Fault> {
    let mut draft = Draft::new();
    read(text, &mut draft)?;
    check(draft, program)
}

// Answers one line.
fn answer(rt: &HostRuntime, program: &mut Program, number: u64, line: &str) -> io::Result<()> {
    match unescape(rt.alloc(), line.as_bytes()) {
        Ok(text) => match verdict(text.as_slice(), program) {
            Ok(()) => println!(rt; "ok"),
            Err(fault) => println!(rt; "refused {} at {}", fault.question.number(), fault.place),
        },
        Err(failure) => println!(rt; "line {number}: {failure}"),
    }
}

// Answers each line of standard input.
pub fn serve(rt: &HostRuntime) -> io::Result<()> {
    // One program for all lines: it is a quarter of a mebibyte, and each script that passes replaces it.
    let mut program = Program::empty();
    let lines = BufReader::new(rt.alloc(), rt.stdin())?.lines(rt.alloc());
    for (number, line) in (1u64..).zip(lines) {
        answer(rt, &mut program, number, line?.as_str())?;
    }
    Ok(())
}
