//! The copies of declarations' bodies.
#![tactic(auto, using(crate::proofs::WalkLaws::roomy))]

ghost use Rattle.std.specs.Prelude.{◌≡◌, ◌+◌, ◌^◌, ◌<◌, length, map, OnOk, IfOk};
ghost use Rattle.zl_flat.specs.Parts.{joined, some_places, some_definers};
ghost use Rattle.zl_flat.specs.Instances.{callee};
ghost use Rattle.zl_flat.specs.Expansion.{param_place, argument_definers};
ghost use Rattle.zl_expand.specs.Walks.{Walks};
ghost use Rattle.zl_expand.specs.Room.{HasRoom};
ghost use Rattle.zl_expand.specs.Kept.{counters, instance_in, inside_in};

use crate::decls::Known;
use crate::instance::Instance;
use crate::numbering::own_places;
use crate::parts::Parts;
use crate::walker::Walker;
use std::alloc::{AllocError, Global};
use zl_ast::{Decl, Eqn, Expr, Param};
use zl_flat::{Here, Root};
use zl_meaning::Definer;
use zl_value::Ty;

/// The places of the parameters.
pub(crate) fn add_params(
    alloc: Global,
    instance: &Instance,
    here: Here,
    params: &[Param],
    out: &mut Parts,
) -> Result<(), AllocError>
    ensures { OnOk result (out.new ≡ joined out.old (some_places (map (param_place (instance_in instance.now) here) params.now))) }
{
    for param in params {
        let ty = match instance.variable(param.name.id) {
            Some(x) => x.ty,
            None => Ty::Int,
        };
        out.add_place(here.place(alloc, ty, param.name.id, param.name.at))?;
    }
    Ok(())
}

/// Each parameter is defined by its argument. The first has this place.
fn add_arguments(
    here: Here,
    first: u32,
    params: &[Param],
    arguments: &[Root],
    out: &mut Parts,
) -> Result<(), AllocError>
    requires { first + length params.now < 2 ^ 32 }
    ensures { OnOk result (out.new ≡ joined out.old (some_definers (argument_definers here first params.now arguments.now))) }
{
    let mut place = first;
    for (argument, _param) in arguments.iter().zip(params) {
        out.define(
            place,
            Definer::Plain {
                block: here.block,
                occ: argument.occ,
            },
        )?;
        place += 1;
    }
    Ok(())
}

impl<
    X: Fn(Global, &Instance<'_>, Here, u32, &Expr, &mut Parts) -> Result<Root, AllocError>,
    Q: Fn(Global, &Instance<'_>, Here, u32, &[Eqn], &mut Parts) -> Result<(), AllocError>,
> Walker<X, Q> {
    /// A copy of the body of a declaration before, for a call; it answers the results.
    pub(crate) fn copy(
        &self,
        instance: &Instance,
        here: Here,
        name: u32,
        arguments: &[Root],
        out: &mut Parts,
    ) -> Result<Vec<Root>, AllocError>
        requires walks { Walks self.now.depth (X.pre self.now.expr) (X.post self.now.expr) (Q.pre self.now.eqns) (Q.post self.now.eqns) }
        requires room { HasRoom (self.now.depth + 2) instance.now.base out.old (callee ((instance_in instance.now).callees name) here arguments.now (counters out.old)).parts }
        ensures made { OnOk result (out.new ≡ joined out.old (callee ((instance_in instance.now).callees name) here arguments.now (counters out.old)).parts) }
        ensures results { IfOk result (λ r. r.items ≡ (callee ((instance_in instance.now).callees name) here arguments.now (counters out.old)).results) }
    {
        let declared = instance.known.declared;
        let Some(number) = declared.find(name) else {
            return Ok(Vec::new(self.alloc));
        };
        if number >= instance.known.number {
            return Ok(Vec::new(self.alloc));
        }
        let decls = declared.decls;
        let decl = &decls[number];
        let known = Known {
            declared,
            sizes: instance.known.sizes,
            number,
        };
        let first = out.next_place();
        let own = own_places(self.alloc, &known, decl, first)?;
        let callee = Instance {
            known: &known,
            own: own.as_slice(),
            base: instance.base,
            block: here.block,
        };
        add_params(self.alloc, &callee, here, decl.params.as_slice(), out)?;
        add_arguments(here, first, decl.params.as_slice(), arguments, out)?;
        self.walk_body(&callee, here, decl, out)
    }

    /// The results and the equations of a copy whose parameters are made.
    pub(crate) fn walk_body(
        &self,
        instance: &Instance,
        here: Here,
        decl: &Decl,
        out: &mut Parts,
    ) -> Result<Vec<Root>, AllocError>
        requires walks { Walks self.now.depth (X.pre self.now.expr) (X.post self.now.expr) (Q.pre self.now.eqns) (Q.post self.now.eqns) }
        requires room { HasRoom (self.now.depth + 2) instance.now.base out.old (inside_in instance.now decl.now here (counters out.old)).parts }
        ensures made { OnOk result (out.new ≡ joined out.old (inside_in instance.now decl.now here (counters out.old)).parts) }
        ensures results { IfOk result (λ r. r.items ≡ (inside_in instance.now decl.now here (counters out.old)).results) }
    {
        let results = self.walk_exprs(instance, here, decl.results.as_slice(), out)?;
        self.eqns(instance, here, decl.eqs.as_slice(), out)?;
        Ok(results)
    }
}
