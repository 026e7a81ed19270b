// Answers a file of calls, a line for each call.
#![tactic(auto)]

use anyhow::Result;
use command_line::{Command, read_command};
use std::rt::{Env, Files};
use transcript::transcript;

const USAGE: &str = "usage: answer [FILE]

Reads calls from FILE, or from standard input, one behind the other, and answers each with a line, at a
desk for 64 creditors. A call is a byte, and numbers of eight bytes each, low byte first:

    0 CENTS         claim: a claim of so many cents, last
    1 PLACE CENTS   prove: the claim at this place, counted from 0, is so much from now on
    2 CENTS         come: so many cents more are there
    3               shares: what each creditor has, in parts of a cent
    4               cents: what each creditor has, in whole cents

An answer is a number, shares as `d 6: 200 200 200`, cents as `34 33 33`, or a refusal and the place that it
is about, as `refused 5 at 0`.";

// Prints the answers to the calls that it is asked about.
fn run(rt: &(impl Env + Files + Input + Print + AllocGlobal)) -> Result<()> {
    match read_command(rt)? {
        Command::Read(calls) => print!(rt; "{}", transcript(rt.alloc(), &calls)?)?,
        Command::Help => println!(rt; "{USAGE}")?,
    }
    Ok(())
}

fn main(rt: HostRuntime) -> Result<()> {
    run(&rt)
}
