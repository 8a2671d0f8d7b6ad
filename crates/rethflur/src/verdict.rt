// The verdict on a script.
use crate::failure::Failure;
use crate::input::Script;
use crate::outline::outline;
use checker::check::check;
use draft::draft::Draft;
use program::program::Program;
use reading::read::read;

// Says that a script passes, with an outline of its functions, or which question it fails first.
pub(crate) fn check_script(rt: &HostRuntime, script: &Script) -> Result<(), Failure> {
    let text = script.text.as_slice();
    let mut draft = Draft::new();
    read(text, &mut draft)?;
    let mut program = Program::empty();
    check(draft, &mut program)?;
    let name = script.name.as_str();
    let functions = program.code.functions.len();
    println!(rt; "{name}: passes every question; functions: {functions}")?;
    outline(rt, text)?;
    Ok(())
}
