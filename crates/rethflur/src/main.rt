// The command line over the library: reads a script from a file or standard input, and shows what the library answers.
#![tactic(auto)]

mod command;
mod failure;
mod input;
mod outline;
mod refusal;
mod tokens;
mod verdict;

use command::Command;
use failure::Failure;
use input::Script;
use std::process::ExitCode;

const HELP: &str = "rethflur: the scripts of a driver kit

usage:
  rethflur tokens [FILE]   list the tokens of a script: line:column, place, kind and text
  rethflur check [FILE]    check a script: grammar, limits and region rules
  rethflur batch           answer scripts from standard input, one a line, where \\n, \\t, \\\\ and
                             \\xHH stand for one byte: ok, or refused N at PLACE
  rethflur store           answer store operations from standard input, one a line:
                             store arena W | store pages P, then any number of: quota Q
                             open | put POSITION WORD WORD | get POSITION PLACE | close | clear
  rethflur --help          print this text

Without FILE the script is read from standard input. A script that is refused is reported as
FILE:LINE:COLUMN: refused N: and the question that it fails, with the line and a caret under the
place, and the exit status is 1.
";

// Reads a script and does with it what the command asks; a refusal is shown with the line that it is about.
fn on_script<F: FnOnce(&HostRuntime, &Script) -> Result<(), Failure>>(
    rt: &HostRuntime,
    file: Option<String>,
    act: F,
) -> Result<ExitCode, Failure>
    requires { F.IsAlwaysCallable act }
{
    let script = Script::read(rt, file)?;
    // A refusal alone is shown here, and any other failure goes on as it is.
    match act(rt, &script) {
        Ok(()) => Ok(ExitCode::SUCCESS),
        Err(Failure::Refused(fault)) => {
            refusal::show(rt, &script, fault)?;
            Ok(ExitCode::FAILURE)
        }
        Err(failure) => Err(failure),
    }
}

fn run(rt: &HostRuntime) -> Result<ExitCode, Failure> {
    match command::parse(rt)? {
        Command::Help => rt.print(HELP)?,
        Command::Tokens(file) => return on_script(rt, file, tokens::list),
        Command::Check(file) => return on_script(rt, file, verdict::check_script),
        Command::Batch => script_shell::serve(rt)?,
        Command::Store => store_shell::shell::serve(rt)?,
    }
    Ok(ExitCode::SUCCESS)
}

fn main(rt: HostRuntime) -> ExitCode {
    match run(&rt) {
        Ok(code) => code,
        Err(failure) => {
            let _ = eprintln!(rt; "rethflur: {failure}");
            ExitCode::FAILURE
        }
    }
}
