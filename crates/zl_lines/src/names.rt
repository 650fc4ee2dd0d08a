ghost use Rattle.std.specs.Prelude.{◌≡◌, IfOk};
ghost use Rattle.zl_lines.specs.RoomForm.{output_names};

use std::alloc::Global;
use zl_outside::Memory;
use zl_value::{Output, Text};

/// Copies of the names of outputs.
pub(crate) fn copy_names(alloc: Global, outs: &[Output]) -> Result<Vec<Text>, Memory>
    ensures { IfOk result (λ names. names.items ≡ output_names outs.now) }
{
    let mut names = Vec::new(alloc);
    for output in outs {
        names.push(Text::make(alloc, output.name.bytes())?)?;
    }
    Ok(names)
}
