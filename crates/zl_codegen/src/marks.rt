// Marks of wires and of memories, by their numbers.
ghost use Rattle.std.specs.Prelude.{◌≡◌, true, false, length, set, replicate, IfOk};
ghost use Rattle.zl_kernel.specs.FlowWires.{operands, listed_in, reads};
ghost use Rattle.zl_codegen.specs.Needs.{marked, is_marked};

use std::alloc::{AllocError, Global};
use zl_kernel::{Def, Wire};

/// No marks.
pub(crate) fn blank(alloc: Global, count: usize) -> Result<Vec<bool>, AllocError>
    ensures { IfOk result (λ marks. marks.items ≡ replicate count false) }
{
    vec![in alloc; false; count]
}

/// Whether a number is marked.
pub(crate) fn is_marked(marks: &[bool], n: u32) -> bool
    ensures { result ≡ is_marked marks.now n }
{
    match marks.get(n as usize) {
        Some(mark) => *mark,
        None => false,
    }
}

/// Marks a number.
pub(crate) fn mark(marks: &mut [bool], n: u32)
    ensures { marks.new ≡ set marks.old n true }
{
    let i = n as usize;
    if i < marks.len() {
        marks[i] = true;
    }
}

/// Marks all of these numbers.
pub(crate) fn mark_all(marks: &mut [bool], ns: &[u32])
    ensures { marks.new ≡ marked ns.now marks.old }
{
    for i in 0..ns.len() {
        mark(marks, ns[i]);
    }
}

/// Marks the number, if there is one.
pub(crate) fn mark_if(marks: &mut [bool], n: Option<u32>)
    ensures { marks.new ≡ marked (listed_in n) marks.old }
{
    match n {
        Some(n) => mark(marks, n),
        None => {}
    }
}

/// Marks the wires from which the value of a wire is made.
fn mark_operands(marks: &mut [bool], def: &Def)
    ensures { marks.new ≡ marked (operands def.now) marks.old }
{
    match def {
        Def::Copy(n) => mark(marks, *n),
        Def::Op(_, ns) => mark_all(marks, ns.as_slice()),
        Def::If(test, this, other) => {
            mark(marks, *test);
            mark(marks, *this);
            mark(marks, *other);
        }
        Def::Lit(_) | Def::Mem(_) | Def::In(_) | Def::Event(_) | Def::Step => {}
    }
}

/// Marks the wires that a wire reads.
#[tactic(auto, using(crate::proofs::MarkLists::marked_append))]
pub(crate) fn mark_reads(marks: &mut [bool], wire: &Wire)
    ensures { marks.new ≡ marked (reads wire.now) marks.old }
{
    mark_if(marks, wire.guard);
    mark_operands(marks, &wire.def);
}
