ghost use Rattle.std.specs.Prelude.{ℕ, List, Option};
ghost use Rattle.zl_outside.specs.FileMap.{FileMap};
ghost use Rattle.zl_outside.specs.Reads.{Reads};

use crate::ReadAnswer;

/// Files that are read by name.
///
/// A shelf may tell what it holds, as a map from names to bytes. It keeps the names of its failed
/// calls, in order; the count of a name is how often it is among them.
pub trait Shelf {
    ghost told: { Self → Option FileMap };

    ghost failed: { Self → List (List ℕ) };

    /// Reads the first `cap` bytes of the named file into `out`, or all of them if it has fewer; what
    /// `out` held before is gone. Where the shelf tells its map, they are the map's bytes, and a name
    /// that the map lacks isn't read.
    ///
    /// `Failed` comes only where the name was added to those of the failed calls, so its count rose.
    /// No other answer adds a name. No answer changes the map, or whether it is told. After a refusal
    /// `out` holds any bytes.
    fn read(&mut self, name: &str, cap: usize, out: &mut Vec<u8>) -> Result<(), ReadAnswer>
        ensures { Reads (told self.old) (told self.new) (failed self.old) (failed self.new)
            name.now cap out.new.items result };
}
