//! The grades that are needed of occurrences.
#![tactic(auto, using(crate::proofs::Appending::appending))]

ghost use Rattle.std.specs.Prelude.{◌≡◌, ◌++◌, ◌∷◌, [], map, OnOk, IfOk};
ghost use Rattle.std.specs.List.{flat_map};
ghost use Rattle.zl_meaning.specs.Grades as grades;
ghost use Rattle.zl_grade.specs.Needs as spec;
ghost use Rattle.zl_grade.specs.Numbered.{numbered};

use std::alloc::{AllocError, Global};
use zl_meaning::{Definer, Flat, Form, Occ, PlaceInfo, SiteInfo};
use zl_value::Op;

/// Occurrence number `occ` must have no greater grade than `limit`.
#[derive(Clone, Copy, Debug)]
pub(crate) struct Need {
    pub(crate) occ: u32,
    pub(crate) limit: u8,
}

/// Whether an operator's result goes on a straight line where one of its operands does and the others stand still.
fn keeps_lines(op: Op) -> bool
    ensures { result ≡ grades.keeps_lines op }
{
    match op {
        Op::AddFloat | Op::SubFloat | Op::MulFloat | Op::DivFloat | Op::NegFloat => true,
        _ => false,
    }
}

/// An occurrence must stand still.
fn add_still(needs: &mut Vec<Need>, occ: u32) -> Result<(), AllocError>
    ensures { OnOk result (needs.new.items ≡ needs.old.items ++ map spec.still (occ ∷ [])) }
{
    needs.push(Need { occ, limit: 0 })?;
    Ok(())
}

fn add_operands(needs: &mut Vec<Need>, operands: &[u32]) -> Result<(), AllocError>
    ensures { OnOk result (needs.new.items ≡ needs.old.items ++ map spec.still operands.now) }
{
    for operand in operands {
        add_still(needs, *operand)?;
    }
    Ok(())
}

fn add_form(needs: &mut Vec<Need>, form: &Form) -> Result<(), AllocError>
    ensures { OnOk result (needs.new.items ≡ needs.old.items ++ spec.form_needs form.now) }
{
    match form {
        Form::If(condition, _, _) => add_still(needs, *condition),
        Form::Op(op, operands) => {
            if keeps_lines(*op) {
                Ok(())
            } else {
                add_operands(needs, operands.as_slice())
            }
        }
        _ => Ok(()),
    }
}

fn add_occ(needs: &mut Vec<Need>, marks: &[bool], k: usize, occ: &Occ) -> Result<(), AllocError>
    ensures { OnOk result (needs.new.items ≡ needs.old.items ++ spec.occ_needs marks.now k occ.now) }
{
    match marks.get(k) {
        Some(true) => add_form(needs, &occ.form),
        _ => Ok(()),
    }
}

fn add_occs(needs: &mut Vec<Need>, marks: &[bool], occs: &[Occ]) -> Result<(), AllocError>
    ensures { OnOk result (needs.new.items ≡ needs.old.items ++ numbered (spec.occ_needs marks.now) 0 occs.now) }
{
    for (k, occ) in occs.iter().enumerate() {
        add_occ(needs, marks, k, occ)?;
    }
    Ok(())
}

/// A derivative must stand still.
fn add_definer(needs: &mut Vec<Need>, definer: &Definer) -> Result<(), AllocError>
    ensures { OnOk result (needs.new.items ≡ needs.old.items ++ spec.definer_needs definer.now) }
{
    match definer {
        Definer::Der { slope, .. } => add_still(needs, *slope),
        _ => Ok(()),
    }
}

fn add_definers(needs: &mut Vec<Need>, definers: &[Definer]) -> Result<(), AllocError>
    ensures { OnOk result (needs.new.items ≡ needs.old.items ++ flat_map spec.definer_needs definers.now) }
{
    for definer in definers {
        add_definer(needs, definer)?;
    }
    Ok(())
}

fn add_places(needs: &mut Vec<Need>, places: &[PlaceInfo]) -> Result<(), AllocError>
    ensures { OnOk result (needs.new.items ≡ needs.old.items ++ flat_map spec.place_needs places.now) }
{
    for place in places {
        add_definers(needs, place.definers.as_slice())?;
    }
    Ok(())
}

/// The argument of an `up` must move on a straight line.
fn add_sites(needs: &mut Vec<Need>, sites: &[SiteInfo]) -> Result<(), AllocError>
    ensures { OnOk result (needs.new.items ≡ needs.old.items ++ map spec.site_need sites.now) }
{
    for site in sites {
        needs.push(Need {
            occ: site.arg,
            limit: 1,
        })?;
    }
    Ok(())
}

/// All that is needed of the occurrences of a form, of which those are marked that are graded.
pub(crate) fn needs_of(alloc: Global, flat: &Flat, marks: &[bool]) -> Result<Vec<Need>, AllocError>
    ensures { IfOk result (λ needs. needs.items ≡ spec.needs_of flat.now marks.now) }
{
    let mut needs = Vec::new(alloc);
    add_occs(&mut needs, marks, flat.occs.as_slice())?;
    add_places(&mut needs, flat.places.as_slice())?;
    add_sites(&mut needs, flat.sites.as_slice())?;
    Ok(needs)
}
