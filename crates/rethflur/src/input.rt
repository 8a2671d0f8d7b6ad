// A script's bytes with the name that messages call it by.
use crate::failure::Failure;
use std::fs;
use std::io::Read;

#[derive(Drop)]
pub(crate) struct Script {
    pub(crate) name: String,
    pub(crate) text: Vec<u8>,
}

impl Script {
    // From the file, or from standard input where none is named.
    pub(crate) fn read(rt: &HostRuntime, file: Option<String>) -> Result<Script, Failure> {
        match file {
            // The name goes into whichever of both is answered.
            Some(name) => match fs::read(rt, name.as_str()) {
                Ok(text) => Ok(Script { name, text }),
                Err(e) => Err(Failure::NoFile(name, e)),
            },
            None => {
                let mut text = Vec::new(rt.alloc());
                rt.stdin().read_to_end(&mut text)?;
                Ok(Script {
                    name: String::from_str(rt.alloc(), "<stdin>")?,
                    text,
                })
            }
        }
    }
}
