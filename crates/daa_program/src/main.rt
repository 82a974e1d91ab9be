//! The program: its command words, the files of the system, and standard input to standard output.
#![tactic(auto)]

use daa_io::{FileShelf, Open, StdSink, StdSource};
use daa_replay::run;
use std::env;
use std::io::ErrorKind;
use std::process::ExitCode;

/// The status if there is no memory for the command words.
const NO_MEMORY: u8 = 6;

/// Hands the command words and the real objects to `run`, and ends with its status.
fn main(rt: HostRuntime) -> ExitCode {
    let alloc = rt.alloc();
    let mut words = Vec::new(alloc);
    match env::args(&rt) {
        Ok(args) => {
            for word in args {
                if words.push(word).is_err() {
                    return ExitCode::from(NO_MEMORY);
                }
            }
        }
        Err(error) if error.kind() == ErrorKind::OutOfMemory => return ExitCode::from(NO_MEMORY),
        // a word that is not UTF-8: the list stays empty, and an empty list is refused too
        Err(_) => {}
    }
    let mut shelf = FileShelf::new(&rt);
    let mut source = StdSource::new(rt.stdin());
    let mut sink = StdSink::new(rt.stdout());
    ExitCode::from(run(
        &rt,
        alloc,
        words.as_slice(),
        &mut shelf,
        &mut source,
        &mut sink,
        &Open,
    ))
}
