//! Which occurrences of a form are graded.
ghost use Rattle.std.specs.Prelude.{◌≡◌, length, slice_get, IfOk};
ghost use Rattle.zl_meaning.specs.Regular as context;
ghost use Rattle.zl_grade.specs.Marks.{mark_of, AreMarks, HasMarks};

use crate::apart::apart;
use crate::reached::Reached;
use std::alloc::{AllocError, Global};
use zl_meaning::{Block, Flat, Form, Occ};

fn is_hybrid(blocks: &[Block], block: u32) -> bool
    ensures { result ≡ context.is_hybrid_in (slice_get blocks.now block) }
{
    match blocks.get(block as usize) {
        Some(block) => block.hybrid,
        None => false,
    }
}

/// An `up` and an event have no value.
fn is_value(form: &Form) -> bool
    ensures { result ≡ context.is_value form.now }
{
    !matches!(form, Form::Up(_) | Form::Fired(_))
}

/// Whether an occurrence is graded; `apart` says whether it stands under an `init` value or a reset value.
fn is_graded(blocks: &[Block], occ: &Occ, apart: bool) -> bool
    ensures { result ≡ mark_of blocks.now occ.now apart }
{
    is_hybrid(blocks, occ.block) && is_value(&occ.form) && !apart
}

/// The marks of occurrences, of which `apart` are those that stand under an `init` value or a reset value.
fn marks_of(
    alloc: Global,
    blocks: &[Block],
    occs: &[Occ],
    apart: &Reached,
) -> Result<Vec<bool>, AllocError>
    requires { length apart.now.marks ≡ length occs.now }
    ensures { IfOk result (λ marks. HasMarks blocks.now occs.now apart.now.marks (length occs.now) marks.items) }
{
    let mut marks = Vec::new(alloc);
    for (k, occ) in occs.iter().enumerate() {
        let mark = is_graded(blocks, occ, apart.has(k));
        marks.push(mark)?;
    }
    Ok(marks)
}

/// For each occurrence whether it is graded.
pub(crate) fn graded(alloc: Global, flat: &Flat) -> Result<Vec<bool>, AllocError>
    ensures { IfOk result (λ marks. AreMarks flat.now marks.items) }
{
    let apart = apart(alloc, flat)?;
    marks_of(alloc, flat.blocks.as_slice(), flat.occs.as_slice(), &apart)
}
