//! The rule of kinds over a whole program.
ghost use Rattle.std.specs.Prelude.{◌≡◌, None, IfOk, OnOk};
ghost use Rattle.zl_ast.specs.Kinds.{decl_misplaced, declared_with, misplaced, IsFirstMisplaced};
ghost use Rattle.zl_types.specs.Contexts.{declared_of};
ghost use Rattle.zl_types.specs.ContextsFirst.{earliest};

use crate::kind_context::Context;
use crate::kind_declared::Declared;
use crate::kind_eqn::note_eqns;
use crate::kind_expr::note_exprs;
use crate::kind_first::First;
use std::alloc::{AllocError, Global};
use zl_ast::{Decl, Program};
use zl_value::Pos;

/// Takes note of the misplaced constructs in a declaration, and of what it declares.
#[tactic(auto, using(crate::proofs::KindFirstLemmas::noting))]
fn note_decl(declared: &mut Declared, decl: &Decl, first: &mut First) -> Result<(), AllocError>
    ensures noted { OnOk result (first.new.found ≡ earliest first.old.found (decl_misplaced (declared_of declared.old) decl.now)) }
    ensures declared { OnOk result (declared_of declared.new ≡ declared_with (declared_of declared.old) decl.now) }
{
    let context = Context::of_body(decl.kind);
    note_exprs(declared, context, decl.results.as_slice(), first);
    note_eqns(declared, context, decl.eqs.as_slice(), first);
    declared.declare(decl)
}

/// The first misplaced construct that is found in a program.
#[tactic(auto, using(crate::proofs::KindFirstLemmas::noting))]
fn find_first(alloc: Global, program: &Program) -> Result<First, AllocError>
    ensures { IfOk result (λ first. first.found ≡ earliest None (misplaced program.now)) }
{
    let mut declared = Declared::new(alloc);
    let mut first = First::none();
    for decl in program.decls.as_slice() {
        note_decl(&mut declared, decl, &mut first)?;
    }
    Ok(first)
}

/// The place of the first construct of a program that stands where it may not, if there is one. The contexts are those of
/// Zélus, and one of this project's own, in which `last` values are read.
#[tactic(auto, using(crate::proofs::KindFirstLemmas::first_misplaced))]
pub(crate) fn first_misplaced(alloc: Global, program: &Program) -> Result<Option<Pos>, AllocError>
    ensures { IfOk result (IsFirstMisplaced program.now) }
{
    let first = find_first(alloc, program)?;
    Ok(first.found)
}
