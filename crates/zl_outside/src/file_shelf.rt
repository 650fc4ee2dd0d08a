ghost use Rattle.std.specs.Prelude.{◌≡◌, ◌≤◌, [], OnOk, IfSome, length, take};

use crate::failures::note_failure;
use crate::{ReadAnswer, Shelf};
use std::alloc::Global;
use std::fs;
use std::io::Read;
use std::marker::Model;
use std::rt::Files;

// How many bytes are asked for at a time.
const CHUNK: usize = 4096;

/// A shelf over the runtime's files, which are named by their paths. It tells no map. A contract sees
/// it as the names of its failed calls.
#[derive(Drop)]
pub struct FileShelf<'r, R: Files> {
    rt: &'r R,
    alloc: Global,
    failed: Vec<String>,
}

impl<'r, R: Files> Model for FileShelf<'r, R> {
    ghost use Rattle.std.specs.Prelude.{ℕ, List, map};
    ghost use Rattle.std.specs.String.{string_bytes};

    ghost Value = { List (List ℕ) };

    ghost view = { λ s. map string_bytes s.failed.items };
}

impl<'r, R: Files> FileShelf<'r, R> {
    /// A shelf over the runtime's files, with no failed call.
    pub fn new(rt: &'r R, alloc: Global) -> FileShelf<'r, R>
        ensures { result ≡ [] }
    {
        FileShelf {
            rt,
            alloc,
            failed: Vec::new(alloc),
        }
    }
}

impl<'r, R: Files> Shelf for FileShelf<'r, R> {
    ghost use Rattle.std.specs.Prelude.{None};

    ghost told = { λ _. None };

    ghost failed = { λ s. s };

    /// At each error of the runtime the name is added to those of the failed calls, and the answer is
    /// `Failed`, or it is `Memory`.
    fn read(&mut self, name: &str, cap: usize, out: &mut Vec<u8>) -> Result<(), ReadAnswer> {
        match read_file(self.rt, name, cap, out) {
            Err(ReadAnswer::Failed) => Err(note_failure(self.alloc, &mut self.failed, name)),
            answer => answer,
        }
    }
}

fn read_file<R: Files>(rt: &R, name: &str, cap: usize, out: &mut Vec<u8>) -> Result<(), ReadAnswer>
    ensures { OnOk result (length out.new.items ≤ cap) }
{
    match fs::open(rt, name) {
        Ok(mut file) => read_front(&mut file, cap, out),
        Err(_) => Err(ReadAnswer::Failed),
    }
}

// Reads up to `cap` bytes, until a read gives nothing.
fn read_front<F: Read>(file: &mut F, cap: usize, out: &mut Vec<u8>) -> Result<(), ReadAnswer>
    ensures most { OnOk result (length out.new.items ≤ cap) }
    ensures content { OnOk result (IfSome (F.remaining file.old) (λ bytes. out.new.items ≡ take cap bytes)) }
{
    let mut chunk = [0; CHUNK];
    out.clear();
    for _ in 0..u64::MAX {
        let want = CHUNK.min(cap - out.len());
        if want == 0 {
            return Ok(());
        }
        let part = &mut chunk[..want];
        match file.read(part) {
            Ok(0) => return Ok(()),
            Ok(count) => out.extend_from_slice(&part[..count])?,
            Err(_) => return Err(ReadAnswer::Failed),
        }
    }
    Err(ReadAnswer::Failed)
}
