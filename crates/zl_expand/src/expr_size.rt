//! How much expressions expand to.
#![tactic(auto, using(crate::proofs::SizeSums::sizes))]

ghost use Rattle.std.specs.Prelude.{◌≡◌, map};
ghost use Rattle.zl_flat.specs.Sizes as spec;
ghost use Rattle.zl_flat.specs.Capped.{capped};
ghost use Rattle.zl_expand.specs.KeptDecls.{infos_in, known_in};

use crate::decls::Known;
use zl_ast::{Expr, Link, Name};
use zl_flat::Size;

/// A name that is read: a variable, or a constant, which is called.
fn read_size(known: &Known, name: Name) -> Size
    ensures { result ≡ capped (spec.read_size (infos_in known.now) (known_in known.now) name) }
{
    if known.is_variable(name.id) {
        Size::occ()
    } else {
        Size::occ().plus(known.called_size(name.id))
    }
}

#[cycle(expr_sizes)]
pub(crate) fn expr_size(known: &Known, expr: &Expr) -> Size
    ensures { result ≡ capped (spec.expr_size (infos_in known.now) (known_in known.now) expr.now) }
{
    match expr {
        Expr::Lit { .. } => Size::occ(),
        Expr::Var(name) => read_size(known, *name),
        Expr::Last { .. } => Size::occ(),
        Expr::Call { name, args } => {
            let arguments = exprs_size(known, args.as_slice());
            Size::occ().plus(arguments.plus(known.called_size(name.id)))
        }
        Expr::Prefix { arg, .. } => Size::occ().plus(expr_size(known, arg.get())),
        Expr::Chain { first, rest } => {
            expr_size(known, first.get()).plus(links_size(known, rest.as_slice()))
        }
        Expr::Flow { left, right, .. } => {
            let left = expr_size(known, left.get());
            Size::occ().plus(left.plus(expr_size(known, right.get())))
        }
        Expr::If { cond, yes, no, .. } => {
            let cond = expr_size(known, cond.get());
            let yes = expr_size(known, yes.get());
            let no = expr_size(known, no.get());
            Size::occ().plus(cond.plus(yes.plus(no)))
        }
    }
}

#[cycle(expr_sizes)]
pub(crate) fn exprs_size(known: &Known, exprs: &[Expr]) -> Size
    ensures { result ≡ capped (spec.exprs_size (infos_in known.now) (known_in known.now) exprs.now) }
{
    let mut size = Size::none();
    for expr in exprs {
        size = size.plus(expr_size(known, expr));
    }
    size
}

#[cycle(expr_sizes)]
fn links_size(known: &Known, links: &[Link]) -> Size
    ensures { result ≡ capped (spec.total (map (spec.link_size (infos_in known.now) (known_in known.now)) links.now)) }
{
    let mut size = Size::none();
    for link in links {
        size = size.plus(Size::occ().plus(expr_size(known, &link.arg)));
    }
    size
}
