//! What stands directly under each occurrence of a form.
ghost use Rattle.std.specs.Prelude.{◌≡◌, ◌<◌, length, slice_get, Some, IfOk, OnOk};
ghost use Rattle.zl_meaning.specs.Uses.{parts};
ghost use Rattle.zl_grade.specs.Children.{children, members, HasCalls, HasChildren};
ghost use Rattle.zl_grade.specs.Reached.{with_all};

use crate::reached::Reached;
use std::alloc::{AllocError, Global};
use zl_meaning::{Form, Occ};

/// Occurrences, and for each call a chain of those that have it.
#[derive(Drop)]
pub(crate) struct Children<'a> {
    occs: &'a [Occ],
    /// The last occurrence that has this one as its call.
    last: Vec<Option<usize>>,
    /// The occurrence before this one that has the same call.
    before: Vec<Option<usize>>,
}

/// Reaches the parts of an occurrence of this form.
fn add_parts(form: &Form, reached: &mut Reached) -> Result<(), AllocError>
    ensures { OnOk result (reached.new ≡ with_all reached.old (parts form.now)) }
{
    match form {
        Form::Lit(_) => Ok(()),
        Form::Read(_) => Ok(()),
        Form::Last(_) => Ok(()),
        Form::Op(_, parts) => reached.add_all(parts.as_slice()),
        Form::If(c, x, y) => reached.add_all(&[*c, *x, *y]),
        Form::Arrow(x, y) => reached.add_all(&[*x, *y]),
        Form::Pre(x) => reached.add_all(&[*x]),
        Form::Result(x) => reached.add_all(&[*x]),
        Form::Up(_) => Ok(()),
        Form::Fired(parts) => reached.add_all(parts.as_slice()),
        Form::Step => Ok(()),
    }
}

impl<'a> Children<'a> {
    pub(crate) fn of(alloc: Global, occs: &'a [Occ]) -> Result<Children<'a>, AllocError>
        requires { HasCalls occs.now }
        ensures { IfOk result (HasChildren occs.now) }
    {
        let mut last = vec![in alloc; None; occs.len()]?;
        let mut before = Vec::new(alloc);
        for (k, occ) in occs.iter().enumerate() {
            match occ.call {
                Some(call) => {
                    before.push(last[call as usize])?;
                    last[call as usize] = Some(k);
                }
                None => before.push(None)?,
            }
        }
        Ok(Children { occs, last, before })
    }

    /// Reaches the occurrences that have this one as their call.
    fn add_members(&self, call: usize, reached: &mut Reached) -> Result<(), AllocError>
        requires chains { HasChildren self.now.occs.now self.now }
        requires within { call < length self.now.occs.now }
        ensures { OnOk result (reached.new ≡ with_all reached.old (members self.now.occs.now call (length self.now.occs.now))) }
    {
        let mut at = self.last[call];
        while let Some(k) = at {
            reached.add(k)?;
            at = self.before[k];
        }
        Ok(())
    }

    /// Reaches what stands directly under an occurrence.
    pub(crate) fn add_to(&self, k: usize, reached: &mut Reached) -> Result<(), AllocError>
        requires chains { HasChildren self.now.occs.now self.now }
        requires within { k < length self.now.occs.now }
        ensures { OnOk result (reached.new ≡ with_all reached.old (children self.now.occs.now k)) }
    {
        add_parts(&self.occs[k].form, reached)?;
        self.add_members(k, reached)
    }
}
