//! The tests of the calls that the crates below offer. As a program it writes through the sink of standard output, and
//! what comes out is compared byte for byte.
#![tactic(auto)]

#[cfg(test)]
mod lines;
#[cfg(test)]
mod machines;
#[cfg(test)]
mod numbers;
#[cfg(test)]
mod runs;
#[cfg(test)]
mod scripts;
#[cfg(test)]
mod shelves;
#[cfg(test)]
mod sinks;

use std::io;
use std::process::ExitCode;
use zl_outside::{Failed, Sink, StdSink};

/// Writes a line in three pieces, one of them without bytes, and then the 256 bytes in order, 8192 bytes in all.
fn write_pieces<K: Sink>(sink: &mut K) -> Result<(), Failed> {
    sink.put(b"a line in ")?;
    sink.put(b"")?;
    sink.put(b"pieces\n")?;
    let mut bytes = [0; 8192];
    let mut byte: u8 = 0;
    for place in bytes.iter_mut() {
        *place = byte;
        byte = byte.wrapping_add(1);
    }
    sink.put(&bytes)
}

fn main(rt: HostRuntime) -> io::Result<ExitCode> {
    let mut sink = StdSink::new(&rt);
    match write_pieces(&mut sink) {
        Ok(()) => Ok(ExitCode::SUCCESS),
        Err(Failed) => Ok(ExitCode::FAILURE),
    }
}
