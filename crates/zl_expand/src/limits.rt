//! How much a program expands to, and whether that keeps the limits.
#![tactic(auto, using(crate::proofs::LimitLemmas::limiting))]

ghost use Rattle.std.specs.Prelude.{◌≡◌, ◌≤◌, true, false, [], length, map, take, IfOk, IfErr, OnOk};
ghost use Rattle.std.specs.List.{position};
ghost use Rattle.zl_ast.specs.Names as names;
ghost use Rattle.zl_ast.specs.NamesRules.{has_main};
ghost use Rattle.zl_flat.specs.Capped.{capped};
ghost use Rattle.zl_flat.specs.ScopedDecls.{with_sizes};
ghost use Rattle.zl_expand.specs.KeptDecls.{scoped_in, program_in, IsMeasured};
ghost use Rattle.zl_flat.specs.Limits.{Fits, Passes, FitsIn, IsExpandRefusedBy};

use crate::decls::{Declared, Known};
use crate::eqn_size::decl_size;
use crate::texts::is_main;
use std::alloc::{AllocError, Global};
use zl_flat::Size;
use zl_value::{Refusal, Rule};

/// The number of `main`, the sizes of the declarations before it, and that of all that it expands to.
#[derive(Drop)]
pub(crate) struct Measured {
    pub(crate) main: usize,
    pub(crate) sizes: Vec<Size>,
    pub(crate) size: Size,
}

/// The number of `main` among the declarations.
fn find_main(declared: &Declared) -> Option<usize>
    ensures { result ≡ position (λ d. names.is_main declared.now.names.now d.name.id) declared.now.decls.now }
{
    for (number, decl) in declared.decls.iter().enumerate() {
        if is_main(declared.names, decl.name.id) {
            return Some(number);
        }
    }
    None
}

/// The sizes of the declarations before the one of this number.
fn sizes_before(alloc: Global, declared: &Declared, number: usize) -> Result<Vec<Size>, AllocError>
    requires { number ≤ length declared.now.decls.now }
    ensures { IfOk result (λ sizes. sizes.items ≡ map (λ x. capped x.what) (with_sizes [] (take number (scoped_in declared.now)))) }
{
    let mut sizes = Vec::new(alloc);
    for before in 0..number {
        let known = Known {
            declared: &*declared,
            sizes: sizes.as_slice(),
            number: before,
        };
        let size = decl_size(&known, &declared.decls[before]);
        sizes.push(size)?;
    }
    Ok(sizes)
}

/// Measures what `main` expands to.
pub(crate) fn measure(alloc: Global, declared: &Declared) -> Result<Measured, AllocError>
    requires { has_main declared.now.names.now declared.now.decls.now ≡ true }
    ensures { IfOk result (IsMeasured declared.now) }
{
    let Some(main) = find_main(declared) else {
        unreachable!()
    };
    let sizes = sizes_before(alloc, declared, main)?;
    let known = Known {
        declared,
        sizes: sizes.as_slice(),
        number: main,
    };
    let size = Size::block().plus(decl_size(&known, &declared.decls[main]));
    Ok(Measured { main, sizes, size })
}

/// Whether a count passes its limit. The limits are this project's own.
#[tactic(auto)]
fn passes_a_limit(size: Size) -> bool
    ensures passes { result ≡ true → Passes size }
    ensures fits { result ≡ false → Fits size }
{
    size.places > 8192
        || size.occs > 262144
        || size.sites > 1024
        || size.blocks > 65536
        || size.calls > 64
}

/// Refuses what passes a limit, at the name of `main`.
pub(crate) fn refuse_too_large(declared: &Declared, measured: &Measured) -> Result<(), Refusal>
    requires { IsMeasured declared.now measured.now }
    ensures kept { OnOk result (FitsIn (program_in declared.now) declared.now.scopes.now declared.now.types.now) }
    ensures refused { IfErr result (IsExpandRefusedBy (program_in declared.now) declared.now.scopes.now declared.now.types.now) }
{
    if passes_a_limit(measured.size) {
        return Err(Refusal::Broken {
            rule: Rule::ExpandSize,
            at: declared.decls[measured.main].name.at,
        });
    }
    Ok(())
}
