//! The program `etylizer`: checks the Erlang modules that it is given against their specs.
#![tactic(auto)]

mod check;
mod command;
mod count;
pub mod examples;
mod judge;
mod report;
#[cfg(test)]
mod tests;
mod tool;

use std::process::ExitCode;
use std::{env, io};
use tool::{NO_MEMORY, run_tool};
use tool_io::{StdFiles, StdSink};

/// Runs the tool on the command line, over the files of the system and standard output.
fn main(rt: HostRuntime) -> ExitCode {
    let alloc = rt.alloc();
    let words = match words_of(&rt) {
        Ok(words) => words,
        Err(error) if error.kind() == io::ErrorKind::OutOfMemory => {
            return ExitCode::from(NO_MEMORY);
        }
        // A word that is not UTF-8 is in no command, so the usage is the answer.
        Err(_) => Vec::new(alloc),
    };
    let mut out = StdSink::new(rt.stdout());
    let mut files = StdFiles::new(rt);
    ExitCode::from(run_tool(alloc, &words, &mut files, &mut out))
}

/// The words of the command line, without the program's own name.
fn words_of(rt: &HostRuntime) -> io::Result<Vec<String>> {
    let mut words = Vec::new(rt.alloc());
    let mut args = env::args(rt)?;
    let _name = args.next();
    for word in args {
        words.push(word)?;
    }
    Ok(words)
}
