//! The walk of equations.
#![tactic(auto, using(crate::proofs::WalkLaws::roomy))]

ghost use Rattle.std.specs.Prelude.{◌≡◌, ◌+◌, ◌∷◌, map, length, OnOk, IfOk};
ghost use Rattle.std.specs.Option.{option_map};
ghost use Rattle.zl_flat.specs.Parts.{joined, some_definers};
ghost use Rattle.zl_flat.specs.Variables.{variable_of};
ghost use Rattle.zl_flat.specs.Expressions.{expr_walk};
ghost use Rattle.zl_flat.specs.Equations as spec;
ghost use Rattle.zl_flat.specs.Equations.{eqn_walk, arm_walk, body_walk};
ghost use Rattle.zl_expand.specs.Walks.{Walks};
ghost use Rattle.zl_expand.specs.Room.{HasRoom};
ghost use Rattle.zl_expand.specs.Kept.{counters, instance_in, names_in};

use crate::instance::Instance;
use crate::parts::Parts;
use crate::walker::Walker;
use std::alloc::{AllocError, Global};
use zl_ast::{Arm, Body, Cond, Eqn, Expr, Name, ResetArm};
use zl_flat::{Here, Root};
use zl_meaning::{BlockKind, Choice, Definer, DerArm};
use zl_value::{Sequence, Ty};

/// A name that is declared or defined: where it is the first of its variable, that gets its place.
fn add_name(
    alloc: Global,
    instance: &Instance,
    here: Here,
    name: Name,
    out: &mut Parts,
) -> Result<(), AllocError>
    ensures { OnOk result (out.new ≡ joined out.old (spec.name_made instance.now.base (names_in instance.now) (instance_in instance.now) name here (counters out.old))) }
{
    if !instance.known.is_first(name) {
        return Ok(());
    }
    let ty = match instance.variable(name.id) {
        Some(x) => x.ty,
        None => Ty::Int,
    };
    out.add_place(here.place(alloc, ty, name.id, name.at))
}

pub(crate) fn add_names(
    alloc: Global,
    instance: &Instance,
    here: Here,
    names: &[Name],
    out: &mut Parts,
) -> Result<(), AllocError>
    ensures { OnOk result (out.new ≡ joined out.old (spec.names_made instance.now.base (names_in instance.now) (instance_in instance.now) names.now here (counters out.old))) }
{
    for name in names {
        add_name(alloc, instance, here, *name, out)?;
    }
    Ok(())
}

fn place_of(instance: &Instance, name: Name) -> Result<u32, AllocError>
    ensures { IfOk result (λ p. p ≡ spec.place_number (variable_of (instance_in instance.now).variables name.id)) }
{
    match instance.variable(name.id) {
        Some(x) => Ok(x.place),
        None => Ok(0),
    }
}

/// Names are defined by occurrences, one by one.
fn define_names(
    instance: &Instance,
    here: Here,
    names: &[Name],
    roots: &[Root],
    out: &mut Parts,
) -> Result<(), AllocError>
    ensures { OnOk result (out.new ≡ joined out.old (some_definers (spec.plain_definers (instance_in instance.now) here names.now roots.now))) }
{
    for (name, root) in names.iter().zip(roots) {
        let place = place_of(instance, *name)?;
        out.define(
            place,
            Definer::Plain {
                block: here.block,
                occ: root.occ,
            },
        )?;
    }
    Ok(())
}

/// A `der` defines a place, and then an `init` behind it does.
fn define_der(
    here: Here,
    place: u32,
    slope: u32,
    resets: Sequence<DerArm>,
    start: Option<u32>,
    out: &mut Parts,
) -> Result<(), AllocError>
    ensures { OnOk result (out.new ≡ joined out.old (some_definers (spec.given place (spec.derivative here.block slope resets) ∷ spec.start_definers place here start))) }
{
    let block = here.block;
    out.define(
        place,
        Definer::Der {
            block,
            slope,
            resets,
        },
    )?;
    match start {
        Some(occ) => out.define(place, Definer::Start { block, occ }),
        None => Ok(()),
    }
}

impl<
    X: Fn(Global, &Instance<'_>, Here, u32, &Expr, &mut Parts) -> Result<Root, AllocError>,
    Q: Fn(Global, &Instance<'_>, Here, u32, &[Eqn], &mut Parts) -> Result<(), AllocError>,
> Walker<X, Q> {
    /// `x = e`, `(x, y) = f(e)`
    fn walk_plain(
        &self,
        instance: &Instance,
        here: Here,
        left: &[Name],
        right: &Expr,
        out: &mut Parts,
    ) -> Result<(), AllocError>
        requires walks { Walks self.now.depth (X.pre self.now.expr) (X.post self.now.expr) (Q.pre self.now.eqns) (Q.post self.now.eqns) }
        requires room { HasRoom (self.now.depth + 1) instance.now.base out.old (spec.plain instance.now.base (names_in instance.now) (instance_in instance.now) left.now (expr_walk instance.now.base (names_in instance.now) (instance_in instance.now) right.now) here (counters out.old)) }
        ensures { OnOk result (out.new ≡ joined out.old (spec.plain instance.now.base (names_in instance.now) (instance_in instance.now) left.now (expr_walk instance.now.base (names_in instance.now) (instance_in instance.now) right.now) here (counters out.old))) }
    {
        add_names(self.alloc, instance, instance.in_body(here), left, out)?;
        if left.len() == 1 {
            let root = self.expr(instance, here, right, out)?;
            return define_names(instance, here, left, &[root], out);
        }
        let results = self.walk_results(instance, here, right, out)?;
        define_names(instance, here, left, results.as_slice(), out)
    }

    fn walk_resets(
        &self,
        instance: &Instance,
        here: Here,
        resets: &[ResetArm],
        out: &mut Parts,
    ) -> Result<Vec<DerArm>, AllocError>
        requires walks { Walks self.now.depth (X.pre self.now.expr) (X.post self.now.expr) (Q.pre self.now.eqns) (Q.post self.now.eqns) }
        requires room { HasRoom (self.now.depth + 1) instance.now.base out.old (spec.resets_made instance.now.base (names_in instance.now) (instance_in instance.now) (map (spec.reset_arm_walk instance.now.base (names_in instance.now) (instance_in instance.now)) resets.now) here (counters out.old)).parts }
        ensures made { OnOk result (out.new ≡ joined out.old (spec.resets_made instance.now.base (names_in instance.now) (instance_in instance.now) (map (spec.reset_arm_walk instance.now.base (names_in instance.now) (instance_in instance.now)) resets.now) here (counters out.old)).parts) }
        ensures arms { IfOk result (λ arms. arms.items ≡ (spec.resets_made instance.now.base (names_in instance.now) (instance_in instance.now) (map (spec.reset_arm_walk instance.now.base (names_in instance.now) (instance_in instance.now)) resets.now) here (counters out.old)).arms) }
    {
        let mut arms = Vec::new(self.alloc);
        for reset in resets {
            let event = self.walk_event(instance, here, reset.event.as_slice(), out)?;
            let value = self.expr(instance, here, &reset.value, out)?;
            arms.push(DerArm {
                event,
                value: value.occ,
            })?;
        }
        Ok(arms)
    }

    fn walk_start(
        &self,
        instance: &Instance,
        here: Here,
        start: &Option<Expr>,
        out: &mut Parts,
    ) -> Result<Option<u32>, AllocError>
        requires walks { Walks self.now.depth (X.pre self.now.expr) (X.post self.now.expr) (Q.pre self.now.eqns) (Q.post self.now.eqns) }
        requires room { HasRoom (self.now.depth + 1) instance.now.base out.old (spec.start_made instance.now.base (names_in instance.now) (instance_in instance.now) (spec.start_walk instance.now.base (names_in instance.now) (instance_in instance.now) start.now) here (counters out.old)).parts }
        ensures made { OnOk result (out.new ≡ joined out.old (spec.start_made instance.now.base (names_in instance.now) (instance_in instance.now) (spec.start_walk instance.now.base (names_in instance.now) (instance_in instance.now) start.now) here (counters out.old)).parts) }
        ensures value { IfOk result (λ value. value ≡ (spec.start_made instance.now.base (names_in instance.now) (instance_in instance.now) (spec.start_walk instance.now.base (names_in instance.now) (instance_in instance.now) start.now) here (counters out.old)).value) }
    {
        match start {
            Some(value) => {
                let root = self.expr(instance, here, value, out)?;
                Ok(Some(root.occ))
            }
            None => Ok(None),
        }
    }

    /// `der x = slope init start reset ..`
    fn walk_der(
        &self,
        instance: &Instance,
        here: Here,
        name: Name,
        slope: &Expr,
        start: &Option<Expr>,
        resets: &[ResetArm],
        out: &mut Parts,
    ) -> Result<(), AllocError>
        requires walks { Walks self.now.depth (X.pre self.now.expr) (X.post self.now.expr) (Q.pre self.now.eqns) (Q.post self.now.eqns) }
        requires room { HasRoom (self.now.depth + 1) instance.now.base out.old (spec.der instance.now.base (names_in instance.now) (instance_in instance.now) name (expr_walk instance.now.base (names_in instance.now) (instance_in instance.now) slope.now) (spec.start_walk instance.now.base (names_in instance.now) (instance_in instance.now) start.now) (map (spec.reset_arm_walk instance.now.base (names_in instance.now) (instance_in instance.now)) resets.now) here (counters out.old)) }
        ensures { OnOk result (out.new ≡ joined out.old (spec.der instance.now.base (names_in instance.now) (instance_in instance.now) name (expr_walk instance.now.base (names_in instance.now) (instance_in instance.now) slope.now) (spec.start_walk instance.now.base (names_in instance.now) (instance_in instance.now) start.now) (map (spec.reset_arm_walk instance.now.base (names_in instance.now) (instance_in instance.now)) resets.now) here (counters out.old))) }
    {
        add_name(self.alloc, instance, instance.in_body(here), name, out)?;
        let place = place_of(instance, name)?;
        let slope = self.expr(instance, here, slope, out)?;
        let start = self.walk_start(instance, here, start, out)?;
        let arms = self.walk_resets(instance, here, resets, out)?;
        let arms = Sequence::from_vec(arms);
        define_der(here, place, slope.occ, arms, start, out)
    }

    /// `init x = value`
    fn walk_init(
        &self,
        instance: &Instance,
        here: Here,
        name: Name,
        value: &Expr,
        out: &mut Parts,
    ) -> Result<(), AllocError>
        requires walks { Walks self.now.depth (X.pre self.now.expr) (X.post self.now.expr) (Q.pre self.now.eqns) (Q.post self.now.eqns) }
        requires room { HasRoom (self.now.depth + 1) instance.now.base out.old (spec.init instance.now.base (names_in instance.now) (instance_in instance.now) name (expr_walk instance.now.base (names_in instance.now) (instance_in instance.now) value.now) here (counters out.old)) }
        ensures { OnOk result (out.new ≡ joined out.old (spec.init instance.now.base (names_in instance.now) (instance_in instance.now) name (expr_walk instance.now.base (names_in instance.now) (instance_in instance.now) value.now) here (counters out.old))) }
    {
        add_name(self.alloc, instance, instance.in_body(here), name, out)?;
        let place = place_of(instance, name)?;
        let root = self.expr(instance, here, value, out)?;
        out.define(
            place,
            Definer::Start {
                block: here.block,
                occ: root.occ,
            },
        )
    }

    fn walk_eqn(
        &self,
        instance: &Instance,
        here: Here,
        eqn: &Eqn,
        out: &mut Parts,
    ) -> Result<(), AllocError>
        requires walks { Walks self.now.depth (X.pre self.now.expr) (X.post self.now.expr) (Q.pre self.now.eqns) (Q.post self.now.eqns) }
        requires room { HasRoom (self.now.depth + 1) instance.now.base out.old (eqn_walk instance.now.base (names_in instance.now) (instance_in instance.now) eqn.now here (counters out.old)) }
        ensures { OnOk result (out.new ≡ joined out.old (eqn_walk instance.now.base (names_in instance.now) (instance_in instance.now) eqn.now here (counters out.old))) }
    {
        match eqn {
            Eqn::Plain { left, right } => {
                self.walk_plain(instance, here, left.as_slice(), right, out)
            }
            Eqn::Der {
                name,
                slope,
                start,
                resets,
                ..
            } => self.walk_der(instance, here, *name, slope, start, resets.as_slice(), out),
            Eqn::Start { name, value, .. } => self.walk_init(instance, here, *name, value, out),
            Eqn::Present { arms, other, .. } => {
                self.walk_present(instance, here, arms.as_slice(), other, out)
            }
            Eqn::Automaton { states, .. } => {
                self.walk_automaton(instance, here, states.as_slice(), out)
            }
            Eqn::Reset { eqs, cond, .. } => {
                self.walk_reset(instance, here, eqs.as_slice(), cond, out)
            }
        }
    }

    pub(crate) fn walk_eqns(
        &self,
        instance: &Instance,
        here: Here,
        eqns: &[Eqn],
        out: &mut Parts,
    ) -> Result<(), AllocError>
        requires walks { Walks self.now.depth (X.pre self.now.expr) (X.post self.now.expr) (Q.pre self.now.eqns) (Q.post self.now.eqns) }
        requires room { HasRoom (self.now.depth + 1) instance.now.base out.old (spec.eqns_walk instance.now.base (names_in instance.now) (instance_in instance.now) eqns.now here (counters out.old)) }
        ensures { OnOk result (out.new ≡ joined out.old (spec.eqns_walk instance.now.base (names_in instance.now) (instance_in instance.now) eqns.now here (counters out.old))) }
    {
        for eqn in eqns {
            self.walk_eqn(instance, here, eqn, out)?;
        }
        Ok(())
    }

    /// Locals, and then equations.
    pub(crate) fn walk_block(
        &self,
        instance: &Instance,
        here: Here,
        body: &Body,
        out: &mut Parts,
    ) -> Result<(), AllocError>
        requires walks { Walks self.now.depth (X.pre self.now.expr) (X.post self.now.expr) (Q.pre self.now.eqns) (Q.post self.now.eqns) }
        requires room { HasRoom (self.now.depth + 2) instance.now.base out.old (body_walk instance.now.base (names_in instance.now) (instance_in instance.now) body.now here (counters out.old)) }
        ensures { OnOk result (out.new ≡ joined out.old (body_walk instance.now.base (names_in instance.now) (instance_in instance.now) body.now here (counters out.old))) }
    {
        add_names(self.alloc, instance, here, body.locals.as_slice(), out)?;
        self.eqns(instance, here, body.eqs.as_slice(), out)
    }

    /// A body of a choice: a block of its own, in which nothing flows.
    fn walk_choice_body(
        &self,
        instance: &Instance,
        here: Here,
        of: u32,
        arm: u32,
        body: &Body,
        out: &mut Parts,
    ) -> Result<(), AllocError>
        requires walks { Walks self.now.depth (X.pre self.now.expr) (X.post self.now.expr) (Q.pre self.now.eqns) (Q.post self.now.eqns) }
        requires room { HasRoom (self.now.depth + 1) instance.now.base out.old (spec.body_of_choice (body_walk instance.now.base (names_in instance.now) (instance_in instance.now) body.now) of arm here (counters out.old)) }
        ensures { OnOk result (out.new ≡ joined out.old (spec.body_of_choice (body_walk instance.now.base (names_in instance.now) (instance_in instance.now) body.now) of arm here (counters out.old))) }
    {
        let kind = BlockKind::Arm { of, arm };
        let block = out.add_block(here.inner_block(kind, false))?;
        let inside = here.in_block(block, false);
        self.walk_block(instance, inside, body, out)
    }

    /// An arm: its condition, and then the body. It answers the condition.
    fn walk_arm(
        &self,
        instance: &Instance,
        here: Here,
        of: u32,
        number: u32,
        arm: &Arm,
        out: &mut Parts,
    ) -> Result<u32, AllocError>
        requires walks { Walks self.now.depth (X.pre self.now.expr) (X.post self.now.expr) (Q.pre self.now.eqns) (Q.post self.now.eqns) }
        requires room { HasRoom (self.now.depth + 1) instance.now.base out.old (arm_walk instance.now.base (names_in instance.now) (instance_in instance.now) arm.now of number here (counters out.old)).parts }
        ensures made { OnOk result (out.new ≡ joined out.old (arm_walk instance.now.base (names_in instance.now) (instance_in instance.now) arm.now of number here (counters out.old)).parts) }
        ensures test { IfOk result (λ k. k ≡ (arm_walk instance.now.base (names_in instance.now) (instance_in instance.now) arm.now of number here (counters out.old)).test) }
    {
        let test = self.walk_cond(instance, here, &arm.cond, out)?;
        self.walk_choice_body(instance, here, of, number, &arm.body, out)?;
        Ok(test)
    }

    /// The arms of a choice. It answers the conditions.
    fn walk_arms(
        &self,
        instance: &Instance,
        here: Here,
        of: u32,
        arms: &[Arm],
        out: &mut Parts,
    ) -> Result<(Vec<u32>, u32), AllocError>
        requires walks { Walks self.now.depth (X.pre self.now.expr) (X.post self.now.expr) (Q.pre self.now.eqns) (Q.post self.now.eqns) }
        requires room { HasRoom (self.now.depth + 1) instance.now.base out.old (spec.arms_made (map (arm_walk instance.now.base (names_in instance.now) (instance_in instance.now)) arms.now) of 0 here (counters out.old)).parts }
        ensures made { OnOk result (out.new ≡ joined out.old (spec.arms_made (map (arm_walk instance.now.base (names_in instance.now) (instance_in instance.now)) arms.now) of 0 here (counters out.old)).parts) }
        ensures tests { IfOk result (λ r. r.0.items ≡ (spec.arms_made (map (arm_walk instance.now.base (names_in instance.now) (instance_in instance.now)) arms.now) of 0 here (counters out.old)).tests) }
        ensures count { IfOk result (λ r. r.1 ≡ length arms.now) }
    {
        let mut conds = Vec::new(self.alloc);
        let mut number = 0;
        for arm in arms {
            conds.push(self.walk_arm(instance, here, of, number, arm, out)?)?;
            number += 1;
        }
        Ok((conds, number))
    }

    /// The `else` body of a choice, if there is one.
    fn walk_other(
        &self,
        instance: &Instance,
        here: Here,
        of: u32,
        number: u32,
        other: &Option<Body>,
        out: &mut Parts,
    ) -> Result<(), AllocError>
        requires walks { Walks self.now.depth (X.pre self.now.expr) (X.post self.now.expr) (Q.pre self.now.eqns) (Q.post self.now.eqns) }
        requires room { HasRoom (self.now.depth + 1) instance.now.base out.old (spec.other_made instance.now.base (names_in instance.now) (instance_in instance.now) (option_map (body_walk instance.now.base (names_in instance.now) (instance_in instance.now)) other.now) of number here (counters out.old)) }
        ensures { OnOk result (out.new ≡ joined out.old (spec.other_made instance.now.base (names_in instance.now) (instance_in instance.now) (option_map (body_walk instance.now.base (names_in instance.now) (instance_in instance.now)) other.now) of number here (counters out.old))) }
    {
        match other {
            Some(body) => self.walk_choice_body(instance, here, of, number, body, out),
            None => Ok(()),
        }
    }

    fn walk_present(
        &self,
        instance: &Instance,
        here: Here,
        arms: &[Arm],
        other: &Option<Body>,
        out: &mut Parts,
    ) -> Result<(), AllocError>
        requires walks { Walks self.now.depth (X.pre self.now.expr) (X.post self.now.expr) (Q.pre self.now.eqns) (Q.post self.now.eqns) }
        requires room { HasRoom (self.now.depth + 1) instance.now.base out.old (spec.present instance.now.base (names_in instance.now) (instance_in instance.now) (map (arm_walk instance.now.base (names_in instance.now) (instance_in instance.now)) arms.now) (option_map (body_walk instance.now.base (names_in instance.now) (instance_in instance.now)) other.now) here (counters out.old)) }
        ensures { OnOk result (out.new ≡ joined out.old (spec.present instance.now.base (names_in instance.now) (instance_in instance.now) (map (arm_walk instance.now.base (names_in instance.now) (instance_in instance.now)) arms.now) (option_map (body_walk instance.now.base (names_in instance.now) (instance_in instance.now)) other.now) here (counters out.old))) }
    {
        let of = out.leave_choice(self.alloc)?;
        let (conds, number) = self.walk_arms(instance, here, of, arms, out)?;
        self.walk_other(instance, here, of, number, other, out)?;
        out.set_choice(
            of,
            Choice {
                block: here.block,
                conds: Sequence::from_vec(conds),
                other: other.is_some(),
            },
        );
        Ok(())
    }

    /// `reset eqs every cond`
    fn walk_reset(
        &self,
        instance: &Instance,
        here: Here,
        eqs: &[Eqn],
        cond: &Cond,
        out: &mut Parts,
    ) -> Result<(), AllocError>
        requires walks { Walks self.now.depth (X.pre self.now.expr) (X.post self.now.expr) (Q.pre self.now.eqns) (Q.post self.now.eqns) }
        requires room { HasRoom (self.now.depth + 1) instance.now.base out.old (spec.reset instance.now.base (names_in instance.now) (instance_in instance.now) (map (eqn_walk instance.now.base (names_in instance.now) (instance_in instance.now)) eqs.now) (spec.cond_walk instance.now.base (names_in instance.now) (instance_in instance.now) cond.now) here (counters out.old)) }
        ensures { OnOk result (out.new ≡ joined out.old (spec.reset instance.now.base (names_in instance.now) (instance_in instance.now) (map (eqn_walk instance.now.base (names_in instance.now) (instance_in instance.now)) eqs.now) (spec.cond_walk instance.now.base (names_in instance.now) (instance_in instance.now) cond.now) here (counters out.old))) }
    {
        let block = out.leave_block()?;
        let inside = here.in_block(block, here.hybrid);
        self.eqns(instance, inside, eqs, out)?;
        let cond = self.walk_cond(instance, here, cond, out)?;
        out.set_block(
            block,
            here.inner_block(BlockKind::Reset { cond }, here.hybrid),
        );
        Ok(())
    }
}
