ghost use Rattle.std.specs.Prelude.{◌≡◌, Err, map};
ghost use Rattle.std.specs.String.{string_bytes};
ghost use Rattle.zl_outside.specs.Reads.{failed_after};

use crate::ReadAnswer;
use std::alloc::Global;

// Adds the name to those of the failed calls. Without memory for it the answer is `Memory`.
pub(crate) fn note_failure(alloc: Global, failed: &mut Vec<String>, name: &str) -> ReadAnswer
    ensures { map string_bytes failed.new.items ≡ failed_after {T = Unit {0}} (map string_bytes failed.old.items) name.now (Err result) }
{
    match String::from_str(alloc, name) {
        Ok(name) => match failed.push(name) {
            Ok(()) => ReadAnswer::Failed,
            Err(_) => ReadAnswer::Memory,
        },
        Err(_) => ReadAnswer::Memory,
    }
}
