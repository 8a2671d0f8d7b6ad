// Answers the scripts of standard input.
#![tactic(auto)]

use script_shell::serve;
use std::io;

fn main(rt: HostRuntime) -> io::Result<()> {
    serve(&rt)
}
