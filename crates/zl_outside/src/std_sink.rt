ghost use Rattle.std.specs.Prelude.{◌≡◌, [], IsOk, OnErr};

use crate::{Failed, Sink};
use std::io::Print;
use std::marker::Model;

/// A sink over the runtime's standard output. It stands for every list of pieces. A contract sees it
/// as its count of faults.
#[derive(Drop)]
pub struct StdSink<'r, R: Print> {
    rt: &'r R,
    faults: u64,
}

impl<'r, R: Print> Model for StdSink<'r, R> {
    ghost use Rattle.std.specs.Prelude.{ℕ};

    ghost Value = { ℕ };

    ghost view = { λ s. s.faults };
}

impl<'r, R: Print> StdSink<'r, R> {
    /// A sink over the runtime's standard output, with no fault.
    pub fn new(rt: &'r R) -> StdSink<'r, R>
        ensures { result ≡ 0 }
    {
        StdSink { rt, faults: 0 }
    }
}

impl<'r, R: Print> Sink for StdSink<'r, R> {
    ghost use Rattle.zl_outside.specs.Counts.{raised};
    ghost use Rattle.zl_outside.specs.Pieces.{any_pieces};
    ghost use Rattle.zl_outside.specs.Puts.{Puts};

    ghost stands_for = { λ _. any_pieces };

    ghost faults = { λ faults. faults };

    /// At each error of the runtime, and where it takes nothing of what is left, the count rises by
    /// one, and the answer is `Failed`. It stays at the greatest u64.
    fn put(&mut self, piece: &[u8]) -> Result<(), Failed>
        ensures puts { Puts any_pieces any_pieces self.old self.new piece.now result }
        ensures raised { OnErr result (self.new ≡ raised self.old) }
    {
        let answer = write_whole(self.rt, piece);
        if answer.is_err() {
            self.faults = self.faults.saturating_add(1);
        }
        answer
    }
}

// Writes the piece in as many calls as it takes. A call that takes nothing is a fault.
fn write_whole<R: Print>(rt: &R, piece: &[u8]) -> Result<(), Failed>
    ensures { piece.now ≡ [] → IsOk result }
{
    let mut rest = piece;
    while !rest.is_empty() {
        match rt.write_some(rest) {
            Ok(0) | Err(_) => return Err(Failed),
            Ok(count) => rest = &rest[count..],
        }
    }
    Ok(())
}
