ghost use Rattle.std.specs.Prelude.{◌≡◌, slice_get, IfOk};
ghost use Rattle.zl_cli.specs.ThinTree.{number_of, variable_of, motion_of, with_numbers as motion_with, is_main as is_called_main, thin_from as thin_of_motion, thin_declaration as thin_of_parts, thin_tree};

use std::alloc::Global;
use zl_ast::{Decl, DeclKind, Eqn, Expr, Name, Program};
use zl_lexer::Names;
use zl_outside::Memory;
use zl_value::{Frac, Text, Thin, Value};

/// The equation `der name = slope init start`, with numbers alone.
#[derive(Clone, Copy)]
pub(crate) struct Motion {
    pub name: Name,
    pub slope: Frac,
    pub start: Frac,
}

#[tactic(auto, unfolding(crate::specs::ThinTree::number_of))]
fn number(expr: &Expr) -> Option<Frac>
    ensures { result ≡ number_of expr.now }
{
    match expr {
        Expr::Lit {
            value: Value::F(number),
            ..
        } => Some(*number),
        _ => None,
    }
}

#[tactic(auto, unfolding(crate::specs::ThinTree::variable_of))]
fn variable(expr: &Expr) -> Option<Name>
    ensures { result ≡ variable_of expr.now }
{
    match expr {
        Expr::Var(name) => Some(*name),
        _ => None,
    }
}

fn with_numbers(name: Name, slope: Option<Frac>, start: Option<Frac>) -> Option<Motion>
    ensures { result ≡ motion_with name slope start }
{
    match (slope, start) {
        (Some(slope), Some(start)) => Some(Motion { name, slope, start }),
        _ => None,
    }
}

#[tactic(auto, unfolding(crate::specs::ThinTree::motion_of))]
fn equation_motion(eqn: &Eqn) -> Option<Motion>
    ensures { result ≡ motion_of eqn.now }
{
    match eqn {
        Eqn::Der {
            name,
            slope,
            start: Some(start),
            resets,
            ..
        } => {
            if resets.is_empty() {
                with_numbers(*name, number(slope), number(start))
            } else {
                None
            }
        }
        _ => None,
    }
}

fn is_main(names: &Names, id: u32) -> bool
    ensures { result ≡ is_called_main (slice_get names.now id) }
{
    match names.text(id) {
        Some(text) => text == "main",
        None => false,
    }
}

fn thin_from(
    alloc: Global,
    names: &Names,
    main: Name,
    result_name: Option<Name>,
    found: Option<Motion>,
) -> Result<Option<Thin>, Memory>
    ensures { IfOk result (λ thin. thin ≡ thin_of_motion names.now main result_name found) }
{
    let (Some(x), Some(motion)) = (result_name, found) else {
        return Ok(None);
    };
    if !is_main(names, main.id) || x.id != motion.name.id {
        return Ok(None);
    }
    match names.text(motion.name.id) {
        Some(text) => Ok(Some(Thin {
            name: Text::make(alloc, text.as_bytes())?,
            at: motion.name.at,
            slope: motion.slope,
            start: motion.start,
        })),
        None => Ok(None),
    }
}

fn thin_declaration(alloc: Global, names: &Names, decl: &Decl) -> Result<Option<Thin>, Memory>
    ensures { IfOk result (λ found. found ≡ thin_of_parts names.now decl.now.name decl.now.kind decl.now.params decl.now.results decl.now.eqs) }
{
    if decl.kind != DeclKind::Hybrid || !decl.params.is_empty() {
        return Ok(None);
    }
    match (decl.results.as_slice(), decl.eqs.as_slice()) {
        ([result_expr], [eqn]) => thin_from(
            alloc,
            names,
            decl.name,
            variable(result_expr),
            equation_motion(eqn),
        ),
        _ => Ok(None),
    }
}

/// What a tree says, if it is one hybrid `main` whose one result is its one variable, with a number as its derivative and
/// as its initial value; `None` exactly where it isn't. The form is this project's own.
pub(crate) fn thin_of(alloc: Global, program: &Program) -> Result<Option<Thin>, Memory>
    ensures { IfOk result (λ found. found ≡ thin_tree program.now) }
{
    match program.decls.as_slice() {
        [decl] => thin_declaration(alloc, &program.names, decl),
        _ => Ok(None),
    }
}
