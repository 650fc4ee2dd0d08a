ghost use Rattle.std.specs.Prelude.{ℕ};
ghost use Rattle.zl_outside.specs.Pieces.{StandsFor};
ghost use Rattle.zl_outside.specs.Puts.{Puts};

use crate::Failed;

/// Where bytes are written, in pieces.
///
/// A sink stands for lists of pieces, and keeps a count of its faults, which never falls.
pub trait Sink {
    ghost stands_for: { Self → StandsFor };

    ghost faults: { Self → ℕ };

    /// Puts a piece behind the pieces that were put before. It takes no memory. An empty piece is
    /// always taken.
    ///
    /// A list that the sink stood for has the piece behind it after `Ok`. After `Failed` it is as it
    /// was, or has a front of the piece behind it. `Failed` comes only where the count of faults rose
    /// or stands at the greatest u64. After `Ok` the count is as it was.
    fn put(&mut self, piece: &[u8]) -> Result<(), Failed>
        ensures { Puts (stands_for self.old) (stands_for self.new) (faults self.old) (faults self.new)
            piece.now result };
}
