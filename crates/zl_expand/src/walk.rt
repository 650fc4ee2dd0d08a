//! The walk of expressions, and of the copies that calls make.
#![tactic(auto, using(crate::proofs::WalkLaws::roomy))]

ghost use Rattle.std.specs.Prelude.{true, ◌≡◌, ◌+◌, ◌^◌, ◌<◌, [], ◌∷◌, map, length, Some, OnOk, IfOk};
ghost use Rattle.zl_flat.specs.Parts.{joined};
ghost use Rattle.zl_flat.specs.Instances.{first_root, root_occs};
ghost use Rattle.zl_flat.specs.Expressions as spec;
ghost use Rattle.zl_flat.specs.Operators.{prefix_form, built_in_op};
ghost use Rattle.zl_flat.specs.Variables.{variable_of};
ghost use Rattle.zl_flat.specs.Expressions.{expr_walk, link_walk};
ghost use Rattle.zl_expand.specs.Walks.{Walks};
ghost use Rattle.zl_expand.specs.Room.{HasRoom};
ghost use Rattle.zl_expand.specs.Linked.{is_linked};
ghost use Rattle.zl_expand.specs.Kept.{counters, instance_in, names_in};

use crate::instance::Instance;
use crate::linked::unlinked;
use crate::operators::{built_in_op, infix_form, prefix_type, result_type, value_type};
use crate::parts::Parts;
use crate::walker::Walker;
use std::alloc::{AllocError, Global};
use zl_ast::{Eqn, Expr, FlowOp, Link, Name, Prefix};
use zl_flat::{Here, Root};
use zl_meaning::Form;
use zl_value::{Op, Pos, Sequence, Ty};

/// What a call gives: itself, and the results of the copy.
#[derive(Drop)]
pub(crate) struct Called {
    pub(crate) root: Root,
    pub(crate) results: Vec<Root>,
}

fn leaf(here: Here, ty: Ty, at: Pos, form: Form, out: &mut Parts) -> Result<Root, AllocError>
    requires { length out.old.occs < 2 ^ 32 }
    ensures made { OnOk result (out.new ≡ joined out.old (spec.leaf here ty at form (counters out.old)).parts) }
    ensures root { IfOk result (λ r. r ≡ (spec.leaf here ty at form (counters out.old)).root) }
{
    let occ = out.add_occ(here.occ(ty, at, form))?;
    Ok(Root { occ, ty })
}

fn one(alloc: Global, k: u32) -> Result<Sequence<u32>, AllocError>
    ensures { IfOk result (λ ks. ks ≡ k ∷ []) }
{
    let mut ks = Vec::new(alloc);
    ks.push(k)?;
    Ok(Sequence::from_vec(ks))
}

fn two(alloc: Global, j: u32, k: u32) -> Result<Sequence<u32>, AllocError>
    ensures { IfOk result (λ ks. ks ≡ j ∷ k ∷ []) }
{
    let mut ks = Vec::new(alloc);
    ks.push(j)?;
    ks.push(k)?;
    Ok(Sequence::from_vec(ks))
}

fn root_occs(alloc: Global, roots: &[Root]) -> Result<Sequence<u32>, AllocError>
    ensures { IfOk result (λ ks. ks ≡ root_occs roots.now) }
{
    let ks = roots.iter().map(|root| root.occ).collect(alloc)?;
    Ok(Sequence::from_vec(ks))
}

fn one_root(alloc: Global, root: Root) -> Result<Vec<Root>, AllocError>
    ensures { IfOk result (λ roots. roots.items ≡ root ∷ []) }
{
    let mut roots = Vec::new(alloc);
    roots.push(root)?;
    Ok(roots)
}

fn prefix_form(alloc: Global, op: Prefix, k: u32) -> Result<Form, AllocError>
    ensures { IfOk result (λ form. form ≡ prefix_form op k) }
{
    match op {
        Prefix::Minus => Ok(Form::Op(Op::NegInt, one(alloc, k)?)),
        Prefix::MinusDot => Ok(Form::Op(Op::NegFloat, one(alloc, k)?)),
        Prefix::Not => Ok(Form::Op(Op::Not, one(alloc, k)?)),
        Prefix::Pre => Ok(Form::Pre(k)),
    }
}

/// The first of these results.
fn first_root(roots: &[Root]) -> Root
    ensures { result ≡ first_root roots.now }
{
    match roots.first() {
        Some(first) => *first,
        None => Root {
            occ: 0,
            ty: Ty::Int,
        },
    }
}

/// The number of a hidden occurrence, of which this is the number among the hidden ones.
pub(crate) fn hidden_number(instance: &Instance, hidden: u32) -> u32
    requires { instance.now.base + hidden < 2 ^ 32 }
    ensures { result ≡ instance.now.base + hidden }
{
    instance.base + hidden
}

impl<
    X: Fn(Global, &Instance<'_>, Here, u32, &Expr, &mut Parts) -> Result<Root, AllocError>,
    Q: Fn(Global, &Instance<'_>, Here, u32, &[Eqn], &mut Parts) -> Result<(), AllocError>,
> Walker<X, Q> {
    /// Makes an expression, and answers what it is.
    pub(crate) fn walk_expr(
        &self,
        instance: &Instance,
        here: Here,
        expr: &Expr,
        out: &mut Parts,
    ) -> Result<Root, AllocError>
        requires walks { Walks self.now.depth (X.pre self.now.expr) (X.post self.now.expr) (Q.pre self.now.eqns) (Q.post self.now.eqns) }
        requires room { HasRoom self.now.depth instance.now.base out.old (expr_walk instance.now.base (names_in instance.now) (instance_in instance.now) expr.now here (counters out.old)).parts }
        ensures made { OnOk result (out.new ≡ joined out.old (expr_walk instance.now.base (names_in instance.now) (instance_in instance.now) expr.now here (counters out.old)).parts) }
        ensures root { IfOk result (λ r. r ≡ (expr_walk instance.now.base (names_in instance.now) (instance_in instance.now) expr.now here (counters out.old)).root) }
    {
        self.walk_linked(instance, here, unlinked(expr), out)
    }

    /// Makes an expression that is no chain of no operator.
    fn walk_linked(
        &self,
        instance: &Instance,
        here: Here,
        expr: &Expr,
        out: &mut Parts,
    ) -> Result<Root, AllocError>
        requires walks { Walks self.now.depth (X.pre self.now.expr) (X.post self.now.expr) (Q.pre self.now.eqns) (Q.post self.now.eqns) }
        requires room { HasRoom self.now.depth instance.now.base out.old (expr_walk instance.now.base (names_in instance.now) (instance_in instance.now) expr.now here (counters out.old)).parts }
        requires linked { is_linked expr.now ≡ true }
        ensures made { OnOk result (out.new ≡ joined out.old (expr_walk instance.now.base (names_in instance.now) (instance_in instance.now) expr.now here (counters out.old)).parts) }
        ensures root { IfOk result (λ r. r ≡ (expr_walk instance.now.base (names_in instance.now) (instance_in instance.now) expr.now here (counters out.old)).root) }
    {
        match expr {
            Expr::Lit { value, at } => leaf(here, value_type(value), *at, Form::Lit(*value), out),
            Expr::Var(name) => self.walk_name(instance, here, *name, out),
            Expr::Last { name, at } => match instance.variable(name.id) {
                Some(x) => leaf(here, x.ty, *at, Form::Last(x.place), out),
                None => leaf(here, Ty::Int, *at, Form::Last(0), out),
            },
            Expr::Call { name, args } => {
                self.walk_function(instance, here, *name, args.as_slice(), out)
            }
            Expr::Prefix { op, at, arg } => {
                self.walk_prefix(instance, here, *op, *at, arg.get(), out)
            }
            Expr::Chain { first, rest } => {
                self.walk_chain(instance, here, first.get(), rest.as_slice(), out)
            }
            Expr::Flow {
                op,
                at,
                left,
                right,
            } => self.walk_flow(instance, here, *op, *at, left.get(), right.get(), out),
            Expr::If { at, cond, yes, no } => {
                self.walk_if(instance, here, *at, cond.get(), yes.get(), no.get(), out)
            }
        }
    }

    /// A name that is read: a variable, or a constant, which is called.
    fn walk_name(
        &self,
        instance: &Instance,
        here: Here,
        name: Name,
        out: &mut Parts,
    ) -> Result<Root, AllocError>
        requires walks { Walks self.now.depth (X.pre self.now.expr) (X.post self.now.expr) (Q.pre self.now.eqns) (Q.post self.now.eqns) }
        requires room { HasRoom self.now.depth instance.now.base out.old (spec.read instance.now.base (names_in instance.now) (instance_in instance.now) (variable_of (instance_in instance.now).variables name.id) name here (counters out.old)).parts }
        ensures made { OnOk result (out.new ≡ joined out.old (spec.read instance.now.base (names_in instance.now) (instance_in instance.now) (variable_of (instance_in instance.now).variables name.id) name here (counters out.old)).parts) }
        ensures root { IfOk result (λ r. r ≡ (spec.read instance.now.base (names_in instance.now) (instance_in instance.now) (variable_of (instance_in instance.now).variables name.id) name here (counters out.old)).root) }
    {
        match instance.variable(name.id) {
            Some(x) => leaf(here, x.ty, name.at, Form::Read(x.place), out),
            None => {
                let called = self.walk_call(instance, here, name, &[], out)?;
                Ok(called.root)
            }
        }
    }

    fn walk_function(
        &self,
        instance: &Instance,
        here: Here,
        name: Name,
        args: &[Expr],
        out: &mut Parts,
    ) -> Result<Root, AllocError>
        requires walks { Walks self.now.depth (X.pre self.now.expr) (X.post self.now.expr) (Q.pre self.now.eqns) (Q.post self.now.eqns) }
        requires room { HasRoom self.now.depth instance.now.base out.old (spec.call_or_built_in instance.now.base (names_in instance.now) (instance_in instance.now) (built_in_op (names_in instance.now) name.id) name (map (expr_walk instance.now.base (names_in instance.now) (instance_in instance.now)) args.now) here (counters out.old)).parts }
        ensures made { OnOk result (out.new ≡ joined out.old (spec.call_or_built_in instance.now.base (names_in instance.now) (instance_in instance.now) (built_in_op (names_in instance.now) name.id) name (map (expr_walk instance.now.base (names_in instance.now) (instance_in instance.now)) args.now) here (counters out.old)).parts) }
        ensures root { IfOk result (λ r. r ≡ (spec.call_or_built_in instance.now.base (names_in instance.now) (instance_in instance.now) (built_in_op (names_in instance.now) name.id) name (map (expr_walk instance.now.base (names_in instance.now) (instance_in instance.now)) args.now) here (counters out.old)).root) }
    {
        match built_in_op(instance.known.declared.names, name.id) {
            Some(op) => {
                let occ = out.leave_occ(self.alloc)?;
                let arguments = self.walk_exprs(instance, here, args, out)?;
                let form = Form::Op(op, root_occs(self.alloc, arguments.as_slice())?);
                let ty = result_type(op);
                out.set_occ(occ, here.occ(ty, name.at, form));
                Ok(Root { occ, ty })
            }
            None => {
                let called = self.walk_call(instance, here, name, args, out)?;
                Ok(called.root)
            }
        }
    }

    /// A call: its occurrence, the arguments, and the copy of the called body.
    pub(crate) fn walk_call(
        &self,
        instance: &Instance,
        here: Here,
        name: Name,
        args: &[Expr],
        out: &mut Parts,
    ) -> Result<Called, AllocError>
        requires walks { Walks self.now.depth (X.pre self.now.expr) (X.post self.now.expr) (Q.pre self.now.eqns) (Q.post self.now.eqns) }
        requires room { HasRoom self.now.depth instance.now.base out.old (spec.call instance.now.base (names_in instance.now) (instance_in instance.now) name (map (expr_walk instance.now.base (names_in instance.now) (instance_in instance.now)) args.now) here (counters out.old)).parts }
        ensures made { OnOk result (out.new ≡ joined out.old (spec.call instance.now.base (names_in instance.now) (instance_in instance.now) name (map (expr_walk instance.now.base (names_in instance.now) (instance_in instance.now)) args.now) here (counters out.old)).parts) }
        ensures root { IfOk result (λ r. r.root ≡ (spec.call instance.now.base (names_in instance.now) (instance_in instance.now) name (map (expr_walk instance.now.base (names_in instance.now) (instance_in instance.now)) args.now) here (counters out.old)).root) }
        ensures results { IfOk result (λ r. r.results.items ≡ (spec.call instance.now.base (names_in instance.now) (instance_in instance.now) name (map (expr_walk instance.now.base (names_in instance.now) (instance_in instance.now)) args.now) here (counters out.old)).results) }
    {
        let occ = out.leave_occ(self.alloc)?;
        let inside = here.in_call(occ);
        let arguments = self.walk_exprs(instance, inside, args, out)?;
        let results = self.copy(instance, inside, name.id, arguments.as_slice(), out)?;
        let first = first_root(results.as_slice());
        out.set_occ(occ, here.occ(first.ty, name.at, Form::Result(first.occ)));
        Ok(Called {
            root: Root { occ, ty: first.ty },
            results,
        })
    }

    /// The results of a name that is read.
    fn name_results(
        &self,
        instance: &Instance,
        here: Here,
        name: Name,
        out: &mut Parts,
    ) -> Result<Vec<Root>, AllocError>
        requires walks { Walks self.now.depth (X.pre self.now.expr) (X.post self.now.expr) (Q.pre self.now.eqns) (Q.post self.now.eqns) }
        requires room { HasRoom self.now.depth instance.now.base out.old (spec.read instance.now.base (names_in instance.now) (instance_in instance.now) (variable_of (instance_in instance.now).variables name.id) name here (counters out.old)).parts }
        ensures made { OnOk result (out.new ≡ joined out.old (spec.read instance.now.base (names_in instance.now) (instance_in instance.now) (variable_of (instance_in instance.now).variables name.id) name here (counters out.old)).parts) }
        ensures results { IfOk result (λ r. r.items ≡ (spec.read instance.now.base (names_in instance.now) (instance_in instance.now) (variable_of (instance_in instance.now).variables name.id) name here (counters out.old)).results) }
    {
        match instance.variable(name.id) {
            Some(x) => one_root(
                self.alloc,
                leaf(here, x.ty, name.at, Form::Read(x.place), out)?,
            ),
            None => {
                let called = self.walk_call(instance, here, name, &[], out)?;
                Ok(called.results)
            }
        }
    }

    /// The results of a function that is called.
    fn function_results(
        &self,
        instance: &Instance,
        here: Here,
        name: Name,
        args: &[Expr],
        out: &mut Parts,
    ) -> Result<Vec<Root>, AllocError>
        requires walks { Walks self.now.depth (X.pre self.now.expr) (X.post self.now.expr) (Q.pre self.now.eqns) (Q.post self.now.eqns) }
        requires room { HasRoom self.now.depth instance.now.base out.old (spec.call_or_built_in instance.now.base (names_in instance.now) (instance_in instance.now) (built_in_op (names_in instance.now) name.id) name (map (expr_walk instance.now.base (names_in instance.now) (instance_in instance.now)) args.now) here (counters out.old)).parts }
        ensures made { OnOk result (out.new ≡ joined out.old (spec.call_or_built_in instance.now.base (names_in instance.now) (instance_in instance.now) (built_in_op (names_in instance.now) name.id) name (map (expr_walk instance.now.base (names_in instance.now) (instance_in instance.now)) args.now) here (counters out.old)).parts) }
        ensures results { IfOk result (λ r. r.items ≡ (spec.call_or_built_in instance.now.base (names_in instance.now) (instance_in instance.now) (built_in_op (names_in instance.now) name.id) name (map (expr_walk instance.now.base (names_in instance.now) (instance_in instance.now)) args.now) here (counters out.old)).results) }
    {
        match built_in_op(instance.known.declared.names, name.id) {
            Some(_) => one_root(
                self.alloc,
                self.walk_function(instance, here, name, args, out)?,
            ),
            None => {
                let called = self.walk_call(instance, here, name, args, out)?;
                Ok(called.results)
            }
        }
    }

    /// Makes an expression, and answers its results: those of the call that it is, else itself.
    #[tactic(auto, using(crate::proofs::AloneLemmas::alone))]
    pub(crate) fn walk_results(
        &self,
        instance: &Instance,
        here: Here,
        expr: &Expr,
        out: &mut Parts,
    ) -> Result<Vec<Root>, AllocError>
        requires walks { Walks self.now.depth (X.pre self.now.expr) (X.post self.now.expr) (Q.pre self.now.eqns) (Q.post self.now.eqns) }
        requires room { HasRoom (self.now.depth + 1) instance.now.base out.old (expr_walk instance.now.base (names_in instance.now) (instance_in instance.now) expr.now here (counters out.old)).parts }
        ensures made { OnOk result (out.new ≡ joined out.old (expr_walk instance.now.base (names_in instance.now) (instance_in instance.now) expr.now here (counters out.old)).parts) }
        ensures results { IfOk result (λ r. r.items ≡ (expr_walk instance.now.base (names_in instance.now) (instance_in instance.now) expr.now here (counters out.old)).results) }
    {
        match expr {
            Expr::Var(name) => self.name_results(instance, here, *name, out),
            Expr::Call { name, args } => {
                self.function_results(instance, here, *name, args.as_slice(), out)
            }
            Expr::Lit { .. }
            | Expr::Last { .. }
            | Expr::Prefix { .. }
            | Expr::Chain { .. }
            | Expr::Flow { .. }
            | Expr::If { .. } => one_root(self.alloc, self.expr(instance, here, expr, out)?),
        }
    }

    pub(crate) fn walk_exprs(
        &self,
        instance: &Instance,
        here: Here,
        exprs: &[Expr],
        out: &mut Parts,
    ) -> Result<Vec<Root>, AllocError>
        requires walks { Walks self.now.depth (X.pre self.now.expr) (X.post self.now.expr) (Q.pre self.now.eqns) (Q.post self.now.eqns) }
        requires room { HasRoom (self.now.depth + 1) instance.now.base out.old (spec.walk_all (map (expr_walk instance.now.base (names_in instance.now) (instance_in instance.now)) exprs.now) here (counters out.old)).parts }
        ensures made { OnOk result (out.new ≡ joined out.old (spec.walk_all (map (expr_walk instance.now.base (names_in instance.now) (instance_in instance.now)) exprs.now) here (counters out.old)).parts) }
        ensures roots { IfOk result (λ r. r.items ≡ (spec.walk_all (map (expr_walk instance.now.base (names_in instance.now) (instance_in instance.now)) exprs.now) here (counters out.old)).roots) }
    {
        let mut roots = Vec::new(self.alloc);
        for expr in exprs {
            roots.push(self.expr(instance, here, expr, out)?)?;
        }
        Ok(roots)
    }

    fn walk_prefix(
        &self,
        instance: &Instance,
        here: Here,
        op: Prefix,
        at: Pos,
        arg: &Expr,
        out: &mut Parts,
    ) -> Result<Root, AllocError>
        requires walks { Walks self.now.depth (X.pre self.now.expr) (X.post self.now.expr) (Q.pre self.now.eqns) (Q.post self.now.eqns) }
        requires room { HasRoom self.now.depth instance.now.base out.old (spec.prefixed instance.now.base (names_in instance.now) (instance_in instance.now) op at (expr_walk instance.now.base (names_in instance.now) (instance_in instance.now) arg.now) here (counters out.old)).parts }
        ensures made { OnOk result (out.new ≡ joined out.old (spec.prefixed instance.now.base (names_in instance.now) (instance_in instance.now) op at (expr_walk instance.now.base (names_in instance.now) (instance_in instance.now) arg.now) here (counters out.old)).parts) }
        ensures root { IfOk result (λ r. r ≡ (spec.prefixed instance.now.base (names_in instance.now) (instance_in instance.now) op at (expr_walk instance.now.base (names_in instance.now) (instance_in instance.now) arg.now) here (counters out.old)).root) }
    {
        let occ = out.leave_occ(self.alloc)?;
        let operand = self.expr(instance, here, arg, out)?;
        let ty = prefix_type(op, operand.ty);
        let form = prefix_form(self.alloc, op, operand.occ)?;
        out.set_occ(occ, here.occ(ty, at, form));
        Ok(Root { occ, ty })
    }

    fn walk_chain(
        &self,
        instance: &Instance,
        here: Here,
        first: &Expr,
        rest: &[Link],
        out: &mut Parts,
    ) -> Result<Root, AllocError>
        requires walks { Walks self.now.depth (X.pre self.now.expr) (X.post self.now.expr) (Q.pre self.now.eqns) (Q.post self.now.eqns) }
        requires room { HasRoom self.now.depth instance.now.base out.old (spec.chain (expr_walk instance.now.base (names_in instance.now) (instance_in instance.now) first.now) (map (link_walk instance.now.base (names_in instance.now) (instance_in instance.now)) rest.now) here (counters out.old)).parts }
        requires linked { 0 < length rest.now }
        ensures made { OnOk result (out.new ≡ joined out.old (spec.chain (expr_walk instance.now.base (names_in instance.now) (instance_in instance.now) first.now) (map (link_walk instance.now.base (names_in instance.now) (instance_in instance.now)) rest.now) here (counters out.old)).parts) }
        ensures root { IfOk result (λ r. r ≡ (spec.chain (expr_walk instance.now.base (names_in instance.now) (instance_in instance.now) first.now) (map (link_walk instance.now.base (names_in instance.now) (instance_in instance.now)) rest.now) here (counters out.old)).root) }
    {
        let mut left = self.expr(instance, here, first, out)?;
        for link in rest {
            left = self.walk_link(instance, here, left, link, out)?;
        }
        Ok(left)
    }

    fn walk_link(
        &self,
        instance: &Instance,
        here: Here,
        left: Root,
        link: &Link,
        out: &mut Parts,
    ) -> Result<Root, AllocError>
        requires walks { Walks self.now.depth (X.pre self.now.expr) (X.post self.now.expr) (Q.pre self.now.eqns) (Q.post self.now.eqns) }
        requires room { HasRoom self.now.depth instance.now.base out.old (link_walk instance.now.base (names_in instance.now) (instance_in instance.now) link.now here left (counters out.old)).parts }
        ensures made { OnOk result (out.new ≡ joined out.old (link_walk instance.now.base (names_in instance.now) (instance_in instance.now) link.now here left (counters out.old)).parts) }
        ensures root { IfOk result (λ r. r ≡ (link_walk instance.now.base (names_in instance.now) (instance_in instance.now) link.now here left (counters out.old)).root) }
    {
        let occ = out.leave_occ(self.alloc)?;
        let right = self.expr(instance, here, &link.arg, out)?;
        let op = infix_form(link.op, left.ty);
        let ty = result_type(op);
        let form = Form::Op(op, two(self.alloc, left.occ, right.occ)?);
        out.set_occ(occ, here.occ(ty, link.at, form));
        Ok(Root { occ, ty })
    }

    fn walk_flow(
        &self,
        instance: &Instance,
        here: Here,
        op: FlowOp,
        at: Pos,
        left: &Expr,
        right: &Expr,
        out: &mut Parts,
    ) -> Result<Root, AllocError>
        requires walks { Walks self.now.depth (X.pre self.now.expr) (X.post self.now.expr) (Q.pre self.now.eqns) (Q.post self.now.eqns) }
        requires room { HasRoom self.now.depth instance.now.base out.old (spec.flow_walk instance.now.base (names_in instance.now) (instance_in instance.now) op at (expr_walk instance.now.base (names_in instance.now) (instance_in instance.now) left.now) (expr_walk instance.now.base (names_in instance.now) (instance_in instance.now) right.now) here (counters out.old)).parts }
        ensures made { OnOk result (out.new ≡ joined out.old (spec.flow_walk instance.now.base (names_in instance.now) (instance_in instance.now) op at (expr_walk instance.now.base (names_in instance.now) (instance_in instance.now) left.now) (expr_walk instance.now.base (names_in instance.now) (instance_in instance.now) right.now) here (counters out.old)).parts) }
        ensures root { IfOk result (λ r. r ≡ (spec.flow_walk instance.now.base (names_in instance.now) (instance_in instance.now) op at (expr_walk instance.now.base (names_in instance.now) (instance_in instance.now) left.now) (expr_walk instance.now.base (names_in instance.now) (instance_in instance.now) right.now) here (counters out.old)).root) }
    {
        match op {
            FlowOp::Arrow => self.walk_arrow(instance, here, at, left, right, out),
            FlowOp::Fby => self.walk_followed(instance, here, at, left, right, out),
        }
    }

    fn walk_arrow(
        &self,
        instance: &Instance,
        here: Here,
        at: Pos,
        left: &Expr,
        right: &Expr,
        out: &mut Parts,
    ) -> Result<Root, AllocError>
        requires walks { Walks self.now.depth (X.pre self.now.expr) (X.post self.now.expr) (Q.pre self.now.eqns) (Q.post self.now.eqns) }
        requires room { HasRoom self.now.depth instance.now.base out.old (spec.arrow instance.now.base (names_in instance.now) (instance_in instance.now) at (expr_walk instance.now.base (names_in instance.now) (instance_in instance.now) left.now) (expr_walk instance.now.base (names_in instance.now) (instance_in instance.now) right.now) here (counters out.old)).parts }
        ensures made { OnOk result (out.new ≡ joined out.old (spec.arrow instance.now.base (names_in instance.now) (instance_in instance.now) at (expr_walk instance.now.base (names_in instance.now) (instance_in instance.now) left.now) (expr_walk instance.now.base (names_in instance.now) (instance_in instance.now) right.now) here (counters out.old)).parts) }
        ensures root { IfOk result (λ r. r ≡ (spec.arrow instance.now.base (names_in instance.now) (instance_in instance.now) at (expr_walk instance.now.base (names_in instance.now) (instance_in instance.now) left.now) (expr_walk instance.now.base (names_in instance.now) (instance_in instance.now) right.now) here (counters out.old)).root) }
    {
        let left = self.expr(instance, here, left, out)?;
        let occ = out.leave_occ(self.alloc)?;
        let right = self.expr(instance, here, right, out)?;
        let form = Form::Arrow(left.occ, right.occ);
        out.set_occ(occ, here.occ(left.ty, at, form));
        Ok(Root { occ, ty: left.ty })
    }

    /// `left fby right` is `left -> pre right`, of which the `pre` is hidden.
    fn walk_followed(
        &self,
        instance: &Instance,
        here: Here,
        at: Pos,
        left: &Expr,
        right: &Expr,
        out: &mut Parts,
    ) -> Result<Root, AllocError>
        requires walks { Walks self.now.depth (X.pre self.now.expr) (X.post self.now.expr) (Q.pre self.now.eqns) (Q.post self.now.eqns) }
        requires room { HasRoom self.now.depth instance.now.base out.old (spec.followed instance.now.base (names_in instance.now) (instance_in instance.now) at (expr_walk instance.now.base (names_in instance.now) (instance_in instance.now) left.now) (expr_walk instance.now.base (names_in instance.now) (instance_in instance.now) right.now) here (counters out.old)).parts }
        ensures made { OnOk result (out.new ≡ joined out.old (spec.followed instance.now.base (names_in instance.now) (instance_in instance.now) at (expr_walk instance.now.base (names_in instance.now) (instance_in instance.now) left.now) (expr_walk instance.now.base (names_in instance.now) (instance_in instance.now) right.now) here (counters out.old)).parts) }
        ensures root { IfOk result (λ r. r ≡ (spec.followed instance.now.base (names_in instance.now) (instance_in instance.now) at (expr_walk instance.now.base (names_in instance.now) (instance_in instance.now) left.now) (expr_walk instance.now.base (names_in instance.now) (instance_in instance.now) right.now) here (counters out.old)).root) }
    {
        let left = self.expr(instance, here, left, out)?;
        let occ = out.leave_occ(self.alloc)?;
        let hidden = out.leave_hidden(self.alloc)?;
        let right = self.expr(instance, here, right, out)?;
        let pre = hidden_number(instance, hidden);
        out.set_occ(occ, here.occ(left.ty, at, Form::Arrow(left.occ, pre)));
        out.set_hidden(hidden, here.occ(left.ty, at, Form::Pre(right.occ)));
        Ok(Root { occ, ty: left.ty })
    }

    fn walk_if(
        &self,
        instance: &Instance,
        here: Here,
        at: Pos,
        cond: &Expr,
        yes: &Expr,
        no: &Expr,
        out: &mut Parts,
    ) -> Result<Root, AllocError>
        requires walks { Walks self.now.depth (X.pre self.now.expr) (X.post self.now.expr) (Q.pre self.now.eqns) (Q.post self.now.eqns) }
        requires room { HasRoom self.now.depth instance.now.base out.old (spec.conditional instance.now.base (names_in instance.now) (instance_in instance.now) at (expr_walk instance.now.base (names_in instance.now) (instance_in instance.now) cond.now) (expr_walk instance.now.base (names_in instance.now) (instance_in instance.now) yes.now) (expr_walk instance.now.base (names_in instance.now) (instance_in instance.now) no.now) here (counters out.old)).parts }
        ensures made { OnOk result (out.new ≡ joined out.old (spec.conditional instance.now.base (names_in instance.now) (instance_in instance.now) at (expr_walk instance.now.base (names_in instance.now) (instance_in instance.now) cond.now) (expr_walk instance.now.base (names_in instance.now) (instance_in instance.now) yes.now) (expr_walk instance.now.base (names_in instance.now) (instance_in instance.now) no.now) here (counters out.old)).parts) }
        ensures root { IfOk result (λ r. r ≡ (spec.conditional instance.now.base (names_in instance.now) (instance_in instance.now) at (expr_walk instance.now.base (names_in instance.now) (instance_in instance.now) cond.now) (expr_walk instance.now.base (names_in instance.now) (instance_in instance.now) yes.now) (expr_walk instance.now.base (names_in instance.now) (instance_in instance.now) no.now) here (counters out.old)).root) }
    {
        let occ = out.leave_occ(self.alloc)?;
        let cond = self.expr(instance, here, cond, out)?;
        let yes = self.expr(instance, here, yes, out)?;
        let no = self.expr(instance, here, no, out)?;
        let form = Form::If(cond.occ, yes.occ, no.occ);
        out.set_occ(occ, here.occ(yes.ty, at, form));
        Ok(Root { occ, ty: yes.ty })
    }
}
