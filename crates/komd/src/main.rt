//! The server `komd`: its words are those of the command line, and its world is the process's own.
#![tactic(auto)]

use kom_links::{StandardDescriptors, StdWorld};
use kom_server::run;
use kom_types::{Memory, Words};
use std::env;
use std::io::ErrorKind;
use std::process::ExitCode;

/// The status where standard input or output is closed and cannot be filled.
const NO_STANDARD: u8 = 5;

/// The status where memory for the words was refused.
const NO_MEMORY: u8 = 6;

fn main(rt: HostRuntime) -> ExitCode {
    let Ok(_held) = StandardDescriptors::fill(&rt) else {
        return ExitCode::from(NO_STANDARD);
    };
    match words(&rt) {
        Ok(words) => {
            let outcome = run(&rt, rt.alloc(), &words, &mut StdWorld::new(&rt));
            ExitCode::from(outcome.status)
        }
        Err(Memory) => ExitCode::from(NO_MEMORY),
    }
}

/// The words of the command line after the program's name. Words that are no text are no command
/// line.
fn words(rt: &HostRuntime) -> Result<Words, Memory> {
    let mut words = Words::new(rt.alloc());
    match env::args(rt) {
        Ok(args) => {
            for word in args.skip(1) {
                words.push(word.as_str())?;
            }
        }
        Err(error) => {
            if error.kind() == ErrorKind::OutOfMemory {
                return Err(Memory);
            }
        }
    }
    Ok(words)
}
