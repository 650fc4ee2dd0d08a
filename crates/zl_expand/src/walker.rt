//! The walk. Its parts take the walks of what stands inside as parameters, so that each is proved by itself.
#![tactic(auto)]

ghost use Rattle.std.specs.Prelude.{◌≡◌, ◌+◌, OnOk, IfOk};
ghost use Rattle.zl_flat.specs.Parts.{joined};
ghost use Rattle.zl_flat.specs.Expressions.{expr_walk};
ghost use Rattle.zl_flat.specs.Equations.{eqns_walk};
ghost use Rattle.zl_expand.specs.Walks.{Walks};
ghost use Rattle.zl_expand.specs.Room.{HasRoom};
ghost use Rattle.zl_expand.specs.Kept.{counters, instance_in, names_in, inside_in};

use crate::instance::Instance;
use crate::parts::Parts;
use std::alloc::{AllocError, Global};
use zl_ast::{Decl, Eqn, Expr};
use zl_flat::{Here, Root};

/// The walks of the expressions and of the equations that stand inside.
#[derive(Clone, Copy)]
pub(crate) struct Walker<X, Q> {
    pub(crate) alloc: Global,
    /// How many walks inside each other these two stand in. It is counted so that the walk is seen to end.
    pub(crate) depth: u32,
    pub(crate) expr: X,
    pub(crate) eqns: Q,
}

impl<
    X: Fn(Global, &Instance<'_>, Here, u32, &Expr, &mut Parts) -> Result<Root, AllocError>,
    Q: Fn(Global, &Instance<'_>, Here, u32, &[Eqn], &mut Parts) -> Result<(), AllocError>,
> Walker<X, Q> {
    /// Makes an expression that stands inside, and answers what it is.
    pub(crate) fn expr(
        &self,
        instance: &Instance,
        here: Here,
        expr: &Expr,
        out: &mut Parts,
    ) -> Result<Root, AllocError>
        requires walks { Walks self.now.depth (X.pre self.now.expr) (X.post self.now.expr) (Q.pre self.now.eqns) (Q.post self.now.eqns) }
        requires room { HasRoom (self.now.depth + 1) instance.now.base out.old (expr_walk instance.now.base (names_in instance.now) (instance_in instance.now) expr.now here (counters out.old)).parts }
        ensures made { OnOk result (out.new ≡ joined out.old (expr_walk instance.now.base (names_in instance.now) (instance_in instance.now) expr.now here (counters out.old)).parts) }
        ensures root { IfOk result (λ r. r ≡ (expr_walk instance.now.base (names_in instance.now) (instance_in instance.now) expr.now here (counters out.old)).root) }
    {
        (self.expr)(self.alloc, instance, here, self.depth, expr, out)
    }

    /// Makes equations that stand inside.
    pub(crate) fn eqns(
        &self,
        instance: &Instance,
        here: Here,
        eqns: &[Eqn],
        out: &mut Parts,
    ) -> Result<(), AllocError>
        requires walks { Walks self.now.depth (X.pre self.now.expr) (X.post self.now.expr) (Q.pre self.now.eqns) (Q.post self.now.eqns) }
        requires room { HasRoom (self.now.depth + 2) instance.now.base out.old (eqns_walk instance.now.base (names_in instance.now) (instance_in instance.now) eqns.now here (counters out.old)) }
        ensures { OnOk result (out.new ≡ joined out.old (eqns_walk instance.now.base (names_in instance.now) (instance_in instance.now) eqns.now here (counters out.old))) }
    {
        (self.eqns)(self.alloc, instance, here, self.depth, eqns, out)
    }
}

/// Makes an expression, and answers what it is.
#[cycle(walk)]
fn walk_expr(
    alloc: Global,
    instance: &Instance,
    here: Here,
    depth: u32,
    expr: &Expr,
    out: &mut Parts,
) -> Result<Root, AllocError>
    requires { HasRoom (depth + 1) instance.now.base out.old (expr_walk instance.now.base (names_in instance.now) (instance_in instance.now) expr.now here (counters out.old)).parts }
    ensures made { OnOk result (out.new ≡ joined out.old (expr_walk instance.now.base (names_in instance.now) (instance_in instance.now) expr.now here (counters out.old)).parts) }
    ensures root { IfOk result (λ r. r ≡ (expr_walk instance.now.base (names_in instance.now) (instance_in instance.now) expr.now here (counters out.old)).root) }
{
    Walker {
        alloc,
        depth: depth + 1,
        expr: walk_expr,
        eqns: walk_eqns,
    }
    .walk_expr(instance, here, expr, out)
}

/// Makes equations.
#[cycle(walk)]
fn walk_eqns(
    alloc: Global,
    instance: &Instance,
    here: Here,
    depth: u32,
    eqns: &[Eqn],
    out: &mut Parts,
) -> Result<(), AllocError>
    requires { HasRoom (depth + 2) instance.now.base out.old (eqns_walk instance.now.base (names_in instance.now) (instance_in instance.now) eqns.now here (counters out.old)) }
    ensures { OnOk result (out.new ≡ joined out.old (eqns_walk instance.now.base (names_in instance.now) (instance_in instance.now) eqns.now here (counters out.old))) }
{
    Walker {
        alloc,
        depth: depth + 1,
        expr: walk_expr,
        eqns: walk_eqns,
    }
    .walk_eqns(instance, here, eqns, out)
}

/// The results and the equations of a copy whose parameters are made.
pub(crate) fn walk_body(
    alloc: Global,
    instance: &Instance,
    here: Here,
    decl: &Decl,
    out: &mut Parts,
) -> Result<Vec<Root>, AllocError>
    requires { HasRoom 2 instance.now.base out.old (inside_in instance.now decl.now here (counters out.old)).parts }
    ensures made { OnOk result (out.new ≡ joined out.old (inside_in instance.now decl.now here (counters out.old)).parts) }
    ensures results { IfOk result (λ r. r.items ≡ (inside_in instance.now decl.now here (counters out.old)).results) }
{
    Walker {
        alloc,
        depth: 0,
        expr: walk_expr,
        eqns: walk_eqns,
    }
    .walk_body(instance, here, decl, out)
}
