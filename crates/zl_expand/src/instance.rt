//! One copy of a declaration's body.
ghost use Rattle.std.specs.Prelude.{◌≡◌};
ghost use Rattle.zl_flat.specs.Variables.{variable_of};
ghost use Rattle.zl_flat.specs.Instances as spec;
ghost use Rattle.zl_expand.specs.Kept.{instance_in};

use crate::decls::Known;
use zl_flat::{Here, Variable};

/// A copy of a declaration's body, in which the variables have these places.
#[derive(Clone, Copy)]
pub(crate) struct Instance<'a> {
    pub(crate) known: &'a Known<'a>,
    pub(crate) own: &'a [u32],
    /// The number of the first hidden occurrence.
    pub(crate) base: u32,
    /// The block in which the copy stands.
    pub(crate) block: u32,
}

impl Instance<'_> {
    /// Where the variables are declared that no `local` declares, whatever block defines them first.
    pub(crate) fn in_body(&self, here: Here) -> Here
        ensures { result ≡ spec.in_body (instance_in self.now) here }
    {
        here.in_block(self.block, here.hybrid)
    }

    pub(crate) fn variable(&self, id: u32) -> Option<Variable>
        ensures { result ≡ variable_of (instance_in self.now).variables id }
    {
        let k = self.known.variable(id)?;
        let types = self.known.declared.types.get(self.known.number)?;
        let ty = types.as_slice().get(k)?;
        let place = self.own.get(k)?;
        Some(Variable {
            name: id,
            ty: *ty,
            place: *place,
        })
    }
}
