ghost use Rattle.zl_driver.specs.Puts.{PutsLines};

use zl_outside::{Failed, Sink};
use zl_value::Text;

/// Puts the lines in order, one put each. After a failure what was written is a front of the lines.
pub fn put_all<K: Sink>(lines: &[Text], sink: &mut K) -> Result<(), Failed>
    ensures { PutsLines (K.stands_for sink.old) (K.stands_for sink.new) (K.faults sink.old) (K.faults sink.new) lines.now result }
{
    for line in lines {
        if let Err(failed) = sink.put(line.bytes()) {
            return Err(failed);
        }
    }
    Ok(())
}
