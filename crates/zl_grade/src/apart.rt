//! What stands under an `init` value or a reset value.
ghost use Rattle.std.specs.Prelude.{◌≡◌, length, map, IfOk, OnOk};
ghost use Rattle.std.specs.List.{flat_map};
ghost use Rattle.zl_grade.specs.Children.{HasChildren};
ghost use Rattle.zl_grade.specs.Closed.{IsClosed};
ghost use Rattle.zl_grade.specs.Reached.{with_all, IsListed};
ghost use Rattle.zl_grade.specs.Apart as spec;

use crate::children::Children;
use crate::reached::Reached;
use std::alloc::{AllocError, Global};
use zl_meaning::{Definer, DerArm, Flat, PlaceInfo};

fn add_resets(reached: &mut Reached, arms: &[DerArm]) -> Result<(), AllocError>
    ensures { OnOk result (reached.new ≡ with_all reached.old (spec.values_of arms.now)) }
{
    for arm in arms {
        reached.add(arm.value as usize)?;
    }
    Ok(())
}

fn add_definer(reached: &mut Reached, definer: &Definer) -> Result<(), AllocError>
    ensures { OnOk result (reached.new ≡ with_all reached.old (spec.set_by definer.now)) }
{
    match definer {
        Definer::Input(_) => Ok(()),
        Definer::Plain { block: _, occ: _ } => Ok(()),
        Definer::Der {
            block: _,
            slope: _,
            resets,
        } => add_resets(reached, resets.as_slice()),
        Definer::Start { block: _, occ } => reached.add(*occ as usize),
    }
}

fn add_definers(reached: &mut Reached, definers: &[Definer]) -> Result<(), AllocError>
    ensures { OnOk result (reached.new ≡ with_all reached.old (flat_map spec.set_by definers.now)) }
{
    for definer in definers {
        add_definer(reached, definer)?;
    }
    Ok(())
}

fn add_places(reached: &mut Reached, places: &[PlaceInfo]) -> Result<(), AllocError>
    ensures { OnOk result (reached.new ≡ with_all reached.old (spec.set_values places.now)) }
{
    for place in places {
        add_definers(reached, place.definers.as_slice())?;
    }
    Ok(())
}

/// Reaches all that stands under what was reached.
fn close(reached: &mut Reached, children: &Children, count: usize) -> Result<(), AllocError>
    requires chains { HasChildren children.now.occs.now children.now }
    requires count { length reached.old.marks ≡ count }
    requires same { length children.now.occs.now ≡ count }
    requires listed { IsListed reached.old }
    ensures { OnOk result (IsClosed children.now.occs.now reached.old reached.new) }
{
    for index in 0..count {
        let Some(k) = reached.at(index) else {
            return Ok(());
        };
        children.add_to(k, reached)?;
    }
    Ok(())
}

/// The occurrences that stand under an `init` value or a reset value.
pub(crate) fn apart(alloc: Global, flat: &Flat) -> Result<Reached, AllocError>
    ensures { IfOk result (λ r. spec.AreApart flat.now r.marks) }
{
    let occs = flat.occs.as_slice();
    let children = Children::of(alloc, occs)?;
    let mut reached = Reached::new(alloc, occs.len())?;
    add_places(&mut reached, flat.places.as_slice())?;
    close(&mut reached, &children, occs.len())?;
    Ok(reached)
}
