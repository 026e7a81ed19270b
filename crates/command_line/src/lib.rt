// What a program that reads one file is asked on its command line.
#![tactic(auto)]

use anyhow::{Context, Result, bail, ensure};
use std::io::Read;
use std::rt::{Env, Files};
use std::{env, fs};

// What the words on the command line ask for.
pub enum Command {
    // to say how it is used
    Help,
    // to read these bytes: those of the file that its argument names, or of standard input
    Read(Vec<u8>),
}

// What it is asked, and the bytes that it is to read. No contract says which bytes a file has.
pub fn read_command(rt: &(impl Env + Files + Input + AllocGlobal)) -> Result<Command> {
    let mut words = env::args(rt)?.skip(1);
    let word = words.next();
    ensure!(
        words.next().is_none(),
        "more than one argument; --help says how this is used"
    );
    match word.as_ref().map_or("-", |word| word.as_str()) {
        "--help" | "-h" => Ok(Command::Help),
        "-" => Ok(Command::Read(standard_input(rt)?)),
        option if option.starts_with('-') => {
            bail!("there is no option {option}; --help says how this is used")
        }
        path => {
            let bytes = fs::read(rt, path).context(format_args!("`{path}` cannot be read"))?;
            Ok(Command::Read(bytes))
        }
    }
}

// All the bytes of standard input.
fn standard_input(rt: &(impl Input + AllocGlobal)) -> Result<Vec<u8>> {
    let mut bytes = Vec::new(rt.alloc());
    rt.reader()
        .read_to_end(&mut bytes)
        .context("standard input cannot be read")?;
    Ok(bytes)
}
