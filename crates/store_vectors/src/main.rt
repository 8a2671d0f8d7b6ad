// Answers the store operations of standard input.
#![tactic(auto)]

use std::io;
use store_shell::shell::serve;

fn main(rt: HostRuntime) -> io::Result<()> {
    serve(&rt)
}
