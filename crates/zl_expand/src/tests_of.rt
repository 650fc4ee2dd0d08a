//! The walk of conditions.
#![tactic(auto, using(crate::proofs::WalkLaws::roomy))]

ghost use Rattle.std.specs.Prelude.{◌≡◌, ◌+◌, map, OnOk, IfOk};
ghost use Rattle.zl_flat.specs.Parts.{joined};
ghost use Rattle.zl_flat.specs.Equations as spec;
ghost use Rattle.zl_flat.specs.Equations.{up_walk, event_walk, cond_walk};
ghost use Rattle.zl_expand.specs.Walks.{Walks};
ghost use Rattle.zl_expand.specs.Room.{HasRoom};
ghost use Rattle.zl_expand.specs.Kept.{counters, instance_in, names_in};

use crate::instance::Instance;
use crate::parts::Parts;
use crate::walk::hidden_number;
use crate::walker::Walker;
use std::alloc::{AllocError, Global};
use zl_ast::{Cond, Eqn, Expr, Up};
use zl_flat::{Here, Root};
use zl_meaning::Form;
use zl_value::{Pos, Sequence, Ty};

/// The place of the first `up` of an event.
fn first_at(ups: &[Up]) -> Pos
    ensures { result ≡ spec.first_at ups.now }
{
    match ups.first() {
        Some(up) => up.at,
        None => Pos { line: 0, column: 0 },
    }
}

impl<
    X: Fn(Global, &Instance<'_>, Here, u32, &Expr, &mut Parts) -> Result<Root, AllocError>,
    Q: Fn(Global, &Instance<'_>, Here, u32, &[Eqn], &mut Parts) -> Result<(), AllocError>,
> Walker<X, Q> {
    /// `up` of an expression: an occurrence, and a site.
    fn walk_up(
        &self,
        instance: &Instance,
        here: Here,
        up: &Up,
        out: &mut Parts,
    ) -> Result<u32, AllocError>
        requires walks { Walks self.now.depth (X.pre self.now.expr) (X.post self.now.expr) (Q.pre self.now.eqns) (Q.post self.now.eqns) }
        requires room { HasRoom (self.now.depth + 1) instance.now.base out.old (up_walk instance.now.base (names_in instance.now) (instance_in instance.now) up.now here (counters out.old)).parts }
        ensures made { OnOk result (out.new ≡ joined out.old (up_walk instance.now.base (names_in instance.now) (instance_in instance.now) up.now here (counters out.old)).parts) }
        ensures test { IfOk result (λ k. k ≡ (up_walk instance.now.base (names_in instance.now) (instance_in instance.now) up.now here (counters out.old)).test) }
    {
        let next_site = out.next_site();
        let occ = out.add_occ(here.occ(Ty::Zero, up.at, Form::Up(next_site)))?;
        let site = out.leave_site()?;
        let arg = self.expr(instance, here, &up.arg, out)?;
        out.set_site(site, here.site(arg.occ, up.at));
        Ok(occ)
    }

    fn walk_ups(
        &self,
        instance: &Instance,
        here: Here,
        ups: &[Up],
        out: &mut Parts,
    ) -> Result<Vec<u32>, AllocError>
        requires walks { Walks self.now.depth (X.pre self.now.expr) (X.post self.now.expr) (Q.pre self.now.eqns) (Q.post self.now.eqns) }
        requires room { HasRoom (self.now.depth + 1) instance.now.base out.old (spec.test_all (map (up_walk instance.now.base (names_in instance.now) (instance_in instance.now)) ups.now) here (counters out.old)).parts }
        ensures made { OnOk result (out.new ≡ joined out.old (spec.test_all (map (up_walk instance.now.base (names_in instance.now) (instance_in instance.now)) ups.now) here (counters out.old)).parts) }
        ensures tests { IfOk result (λ ks. ks.items ≡ (spec.test_all (map (up_walk instance.now.base (names_in instance.now) (instance_in instance.now)) ups.now) here (counters out.old)).tests) }
    {
        let mut tests = Vec::new(self.alloc);
        for up in ups {
            tests.push(self.walk_up(instance, here, up, out)?)?;
        }
        Ok(tests)
    }

    /// An event: a hidden occurrence, before what stands inside it.
    pub(crate) fn walk_event(
        &self,
        instance: &Instance,
        here: Here,
        ups: &[Up],
        out: &mut Parts,
    ) -> Result<u32, AllocError>
        requires walks { Walks self.now.depth (X.pre self.now.expr) (X.post self.now.expr) (Q.pre self.now.eqns) (Q.post self.now.eqns) }
        requires room { HasRoom (self.now.depth + 1) instance.now.base out.old (event_walk instance.now.base (names_in instance.now) (instance_in instance.now) ups.now here (counters out.old)).parts }
        ensures made { OnOk result (out.new ≡ joined out.old (event_walk instance.now.base (names_in instance.now) (instance_in instance.now) ups.now here (counters out.old)).parts) }
        ensures test { IfOk result (λ k. k ≡ (event_walk instance.now.base (names_in instance.now) (instance_in instance.now) ups.now here (counters out.old)).test) }
    {
        let hidden = out.leave_hidden(self.alloc)?;
        let tests = self.walk_ups(instance, here, ups, out)?;
        let form = Form::Fired(Sequence::from_vec(tests));
        out.set_hidden(hidden, here.occ(Ty::Bool, first_at(ups), form));
        Ok(hidden_number(instance, hidden))
    }

    pub(crate) fn walk_cond(
        &self,
        instance: &Instance,
        here: Here,
        cond: &Cond,
        out: &mut Parts,
    ) -> Result<u32, AllocError>
        requires walks { Walks self.now.depth (X.pre self.now.expr) (X.post self.now.expr) (Q.pre self.now.eqns) (Q.post self.now.eqns) }
        requires room { HasRoom (self.now.depth + 1) instance.now.base out.old (cond_walk instance.now.base (names_in instance.now) (instance_in instance.now) cond.now here (counters out.old)).parts }
        ensures made { OnOk result (out.new ≡ joined out.old (cond_walk instance.now.base (names_in instance.now) (instance_in instance.now) cond.now here (counters out.old)).parts) }
        ensures test { IfOk result (λ k. k ≡ (cond_walk instance.now.base (names_in instance.now) (instance_in instance.now) cond.now here (counters out.old)).test) }
    {
        match cond {
            Cond::Event(ups) => self.walk_event(instance, here, ups.as_slice(), out),
            Cond::Test { arg, .. } => {
                let test = self.expr(instance, here, arg, out)?;
                Ok(test.occ)
            }
        }
    }
}
