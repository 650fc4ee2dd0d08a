// Registers, memories and inputs: what each holds, a value or nothing.
ghost use Rattle.std.specs.Prelude.{◌≡◌, length, map, replicate, set, IfOk, Some, None};
ghost use Rattle.zl_code.specs.Method.{cell};
ghost use Rattle.zl_code.specs.declared.code.CMem.{CMem};

use std::alloc::{AllocError, Global};
use zl_code::CMem;
use zl_value::Value;

/// What the register holds.
pub(crate) fn read(cells: &[Option<Value>], r: u32) -> Option<Value>
    ensures { result ≡ cell cells.now r }
{
    match cells.get(r as usize) {
        Some(v) => *v,
        None => None,
    }
}

/// Gives the register a value, or nothing.
pub(crate) fn write(cells: &mut [Option<Value>], r: u32, v: Option<Value>)
    ensures { cells.new ≡ set cells.old r v }
{
    let i = r as usize;
    if i < cells.len() {
        cells[i] = v;
    }
}

/// As many empty cells.
pub(crate) fn empty(alloc: Global, count: usize) -> Result<Vec<Option<Value>>, AllocError>
    ensures { IfOk result (λ cells. cells.items ≡ replicate count None) }
{
    vec![in alloc; None; count]
}

/// Empties all.
pub(crate) fn clear(cells: &mut [Option<Value>])
    ensures { cells.new ≡ replicate (length cells.old) None }
{
    cells.fill(None);
}

/// Gives each the value of the same place.
pub(crate) fn set_values(cells: &mut [Option<Value>], values: &[Value])
    requires { length cells.old ≡ length values.now }
    ensures { cells.new ≡ map Some values.now }
{
    for i in 0..values.len() {
        cells[i] = Some(values[i]);
    }
}

/// Gives each memory its start value.
pub(crate) fn set_starts(cells: &mut [Option<Value>], mems: &[CMem])
    requires { length cells.old ≡ length mems.now }
    ensures { cells.new ≡ map (λ (mem : CMem). mem.start) mems.now }
{
    for i in 0..mems.len() {
        cells[i] = mems[i].start;
    }
}
