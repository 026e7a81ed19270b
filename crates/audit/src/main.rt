// Whether shares divide an estate among claims: checks each two of them.
#![tactic(auto)]

use anyhow::Result;
use auditing::{Finding, audit};
use command_line::{Command, read_command};
use std::process::ExitCode;
use std::rt::{Env, Files};

const USAGE: &str = "usage: audit [FILE]

Reads two lines from FILE, or from standard input: claims, of up to 64 creditors, and the shares that divide
an estate among them, as answer prints them. Spaces, tabs and returns may stand between numbers and at the
end of a line.

    100 200 300
    d 4: 200 300 300

Prints `right`, or the first two, by their places from 0, that do not divide as they should, as `0 and 2`,
or what is wrong with the lines. The status is 0 if the shares are right, and otherwise 1. What was there is
not asked for: shares that are right divide what they come to.";

// Prints what an audit finds of the lines that it is asked about.
fn run(rt: &(impl Env + Files + Input + Print + AllocGlobal)) -> Result<ExitCode> {
    let text = match read_command(rt)? {
        Command::Read(text) => text,
        Command::Help => {
            println!(rt; "{USAGE}")?;
            return Ok(ExitCode::SUCCESS);
        }
    };
    let finding = audit(rt.alloc(), &text)?;
    println!(rt; "{finding}")?;
    Ok(match finding {
        Finding::Right => ExitCode::SUCCESS,
        _ => ExitCode::FAILURE,
    })
}

fn main(rt: HostRuntime) -> Result<ExitCode> {
    run(&rt)
}
