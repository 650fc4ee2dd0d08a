ghost use Rattle.zl_cli.specs.Report.{Tells};

use crate::status::Status;
use zl_outside::Sink;

/// Writes a line by one put, and answers its status, or a write fault where the put failed.
pub fn tell<K: Sink>(status: Status, line: &[u8], sink: &mut K) -> Status
    ensures { Tells (K.stands_for sink.old) (K.stands_for sink.new) (K.faults sink.old) (K.faults sink.new) status line.now result }
{
    match sink.put(line) {
        Ok(()) => status,
        Err(_) => Status::WriteFault,
    }
}
