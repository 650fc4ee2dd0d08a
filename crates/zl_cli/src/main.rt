//! `zpc`: a compiler and simulator for a subset of Zélus in which numbers are exact fractions.
#![tactic(auto)]

mod command;
mod laws;
mod load;
mod status;
mod tell;
#[cfg(test)]
mod tests;
mod texts;
mod thin;
mod zpc;

use status::Status;
use std::process::ExitCode;
use std::{env, io};
use zl_outside::{FileShelf, StdSink};

/// Calls the program on the words of the command line, the real files and standard output. A word that isn't text makes
/// a faulty command line, as no words do.
fn call(rt: &HostRuntime) -> Status {
    let mut words = Vec::new(rt.alloc());
    match env::args(rt) {
        Ok(given) => {
            for word in given.skip(1) {
                if words.push(word).is_err() {
                    return Status::NoMemory;
                }
            }
        }
        Err(error) => {
            if error.kind() == io::ErrorKind::OutOfMemory {
                return Status::NoMemory;
            }
        }
    }
    let mut shelf = FileShelf::new(rt, rt.alloc());
    let mut sink = StdSink::new(rt);
    zpc::zpc(rt.alloc(), &words, &mut shelf, &mut sink)
}

fn main(rt: HostRuntime) -> io::Result<ExitCode> {
    Ok(ExitCode::from(call(&rt).number()))
}
