ghost use Rattle.std.specs.Prelude.{◌≡◌, [], ◌∷◌, ◌++◌, OnOk, OnErr, IsErrOf, IsErr, IsOkUnless, take};
ghost use Rattle.std.specs.Option.{option_copied};
ghost use Rattle.zl_outside.specs.NamedFile.{named_files};
ghost use Rattle.zl_outside.specs.ShelfState.{file_named};

use crate::failures::note_failure;
use crate::{Memory, ReadAnswer, Shelf};
use std::alloc::Global;
use std::marker::Model;

#[derive(Drop)]
struct NamedFile {
    name: String,
    bytes: Vec<u8>,
}

/// A shelf in memory, whose failures can be planned. It tells its files.
#[derive(Drop)]
pub struct MemShelf {
    alloc: Global,
    files: Vec<NamedFile>,
    failing: Vec<u64>,
    calls: u64,
    failed: Vec<String>,
}

impl Model for MemShelf {
    ghost use Rattle.std.specs.Prelude.{map};
    ghost use Rattle.std.specs.String.{string_bytes};
    ghost use Rattle.zl_outside.specs.ShelfState.{ShelfState};

    ghost Value = { ShelfState };

    ghost use Rattle.zl_outside.specs.NamedFile.{named_files};

    ghost view = { λ s. record { files = named_files s.files.items; failing = s.failing.items; calls = s.calls; failed = map string_bytes s.failed.items } };
}

impl MemShelf {
    ghost use Rattle.zl_outside.specs.ShelfState.{empty_shelf};

    /// A shelf without files.
    pub fn new(alloc: Global) -> MemShelf
        ensures { result ≡ empty_shelf }
    {
        MemShelf {
            alloc,
            files: Vec::new(alloc),
            failing: Vec::new(alloc),
            calls: 0,
            failed: Vec::new(alloc),
        }
    }

    /// Adds a file. It takes the place of the file of this name that was held. `Memory` changes
    /// nothing.
    pub fn add(&mut self, name: &str, bytes: &[u8]) -> Result<(), Memory>
        ensures ok { OnOk result (self.new ≡ record self.old { files = (name.now, bytes.now) ∷ self.old.files }) }
        ensures err { OnErr result (self.new ≡ self.old) }
    {
        let name = String::from_str(self.alloc, name)?;
        let bytes = Vec::from_slice(self.alloc, bytes)?;
        self.files.insert(0, NamedFile { name, bytes })?;
        Ok(())
    }

    /// Plans that the read with this number fails. Reads are counted from 1, and the count stays at
    /// the greatest u64. `Memory` changes nothing.
    pub fn fail_at(&mut self, call: u64) -> Result<(), Memory>
        ensures ok { OnOk result (self.new ≡ record self.old { failing = self.old.failing ++ call ∷ [] }) }
        ensures err { OnErr result (self.new ≡ self.old) }
    {
        self.failing.push(call)?;
        Ok(())
    }
}

impl Shelf for MemShelf {
    ghost use Rattle.zl_outside.specs.Reads.{Reads, failed_after};
    ghost use Rattle.zl_outside.specs.ShelfState.{shelf_told, shelf_failed, ReadFails};
    ghost use Rattle.zl_outside.specs.Counts.{raised};

    ghost told = { shelf_told };

    ghost failed = { shelf_failed };

    /// `Failed` comes only at a planned call and at a name that isn't held, and `Ok` never comes
    /// there.
    fn read(&mut self, name: &str, cap: usize, out: &mut Vec<u8>) -> Result<(), ReadAnswer>
        ensures reads { Reads (shelf_told self.old) (shelf_told self.new)
            (shelf_failed self.old) (shelf_failed self.new) name.now cap out.new.items result }
        ensures fails { IsErrOf result ReadAnswer.Failed → ReadFails self.old name.now }
        ensures planned { ReadFails self.old name.now → IsErr result }
        ensures after { self.new ≡ record self.old {
          calls = raised self.old.calls;
          failed = failed_after self.old.failed name.now result;
        } }
    {
        self.calls = self.calls.saturating_add(1);
        if self.failing.contains(&self.calls) {
            return Err(note_failure(self.alloc, &mut self.failed, name));
        }
        match find_file(&self.files, name) {
            Some(bytes) => copy_front(bytes, cap, out),
            None => Err(note_failure(self.alloc, &mut self.failed, name)),
        }
    }
}

// The bytes of the first file of the name.
fn find_file<'f>(files: &'f [NamedFile], name: &str) -> Option<&'f [u8]>
    ensures { option_copied result ≡ file_named (named_files files.now) name.now }
{
    for file in files {
        if file.name.as_str() == name {
            return Some(&file.bytes);
        }
    }
    None
}

// Puts the first `cap` bytes into `out`, and nothing else.
fn copy_front(bytes: &[u8], cap: usize, out: &mut Vec<u8>) -> Result<(), ReadAnswer>
    ensures copied { OnOk result (out.new.items ≡ take cap bytes.now) }
    ensures memory { IsOkUnless result ReadAnswer.Memory }
{
    out.clear();
    out.extend_from_slice(&bytes[..cap.min(bytes.len())])?;
    Ok(())
}
