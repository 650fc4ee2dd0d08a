//! What each occurrence is for, in a form that has the main block alone.
#![tactic(auto, using(crate::proofs::Claims::ClaimLaws::claiming))]

ghost use Rattle.std.specs.Prelude.{◌≡◌, ◌+◌, map, slice_get, IfOk, OnOk};
ghost use Rattle.std.specs.List.{flat_map};
ghost use Rattle.zl_meaning.specs.Single.{IsSingle};
ghost use Rattle.zl_normal.specs.MainBlock.{IsMain};
ghost use Rattle.zl_normal.specs.Roles.{AreRoles};
ghost use Rattle.zl_normal.specs.Claims as spec;

use crate::role::Role;
use std::alloc::{AllocError, Global};
use zl_meaning::{Definer, DerArm, Flat, Form, Occ, PlaceInfo, SiteInfo, narrow};

/// The number behind this one.
fn behind(number: u32) -> Result<u32, AllocError>
    ensures { IfOk result (λ m. m ≡ number + 1) }
{
    narrow(number as u64 + 1)
}

/// Whether an occurrence has no role.
fn is_free(roles: &[Role], k: u32) -> bool
    ensures { result ≡ spec.is_free (slice_get roles.now k) }
{
    match roles.get(k as usize) {
        Some(Role::Unused) => true,
        _ => false,
    }
}

/// Gives an occurrence this role, if it has none.
fn claim(roles: &mut Vec<Role>, k: u32, role: Role)
    ensures { roles.new.items ≡ spec.claimed (spec.claim k role) roles.old.items }
{
    if is_free(roles.as_slice(), k) {
        roles[k as usize] = role;
    }
}

fn claim_parts(roles: &mut Vec<Role>, whole: u32, parts: &[u32])
    ensures { roles.new.items ≡ spec.claim_all (map (spec.part_claim whole) parts.now) roles.old.items }
{
    for part in parts {
        claim(roles, *part, Role::Part(whole));
    }
}

fn claim_branches(roles: &mut Vec<Role>, whole: u32, condition: u32, x: u32, y: u32)
    ensures { roles.new.items ≡ spec.claim_all (spec.branch_claims whole condition x y) roles.old.items }
{
    if x == y {
        claim(roles, x, Role::Both { whole, condition });
    } else {
        claim(
            roles,
            x,
            Role::Branch {
                whole,
                condition,
                side: true,
            },
        );
        claim(
            roles,
            y,
            Role::Branch {
                whole,
                condition,
                side: false,
            },
        );
    }
}

fn claim_form(roles: &mut Vec<Role>, k: u32, form: &Form)
    ensures { roles.new.items ≡ spec.claim_all (spec.form_claims k form.now) roles.old.items }
{
    match form {
        Form::Lit(_) => {}
        Form::Read(_) => {}
        Form::Last(_) => {}
        Form::Op(_, parts) => claim_parts(roles, k, parts.as_slice()),
        Form::If(c, x, y) => {
            claim(roles, *c, Role::Part(k));
            claim_branches(roles, k, *c, *x, *y);
        }
        Form::Arrow(x, y) => claim_parts(roles, k, &[*x, *y]),
        Form::Pre(x) => claim(roles, *x, Role::Part(k)),
        Form::Result(x) => claim(roles, *x, Role::Part(k)),
        Form::Up(_) => {}
        Form::Fired(parts) => claim_parts(roles, k, parts.as_slice()),
        Form::Step => {}
    }
}

fn claim_occs(roles: &mut Vec<Role>, occs: &[Occ]) -> Result<(), AllocError>
    ensures { OnOk result (roles.new.items ≡ spec.claim_all (spec.occs_claims 0 occs.now) roles.old.items) }
{
    let mut k = 0;
    for occ in occs {
        claim_form(roles, k, &occ.form);
        k = behind(k)?;
    }
    Ok(())
}

fn claim_arm(roles: &mut Vec<Role>, p: u32, n: u32, arm: DerArm)
    ensures { roles.new.items ≡ spec.claim_all (spec.arm_claims p n arm) roles.old.items }
{
    claim(roles, arm.event, Role::Event(p));
    claim(roles, arm.value, Role::Reset { place: p, arm: n });
}

fn claim_arms(roles: &mut Vec<Role>, p: u32, arms: &[DerArm]) -> Result<(), AllocError>
    ensures { OnOk result (roles.new.items ≡ spec.claim_all (spec.arms_claims p 0 arms.now) roles.old.items) }
{
    let mut n = 0;
    for arm in arms {
        claim_arm(roles, p, n, *arm);
        n = behind(n)?;
    }
    Ok(())
}

fn claim_definer(roles: &mut Vec<Role>, p: u32, definer: &Definer) -> Result<(), AllocError>
    ensures { OnOk result (roles.new.items ≡ spec.claim_all (spec.definer_claims p definer.now) roles.old.items) }
{
    match definer {
        Definer::Input(_) => Ok(()),
        Definer::Plain { block: _, occ } => {
            claim(roles, *occ, Role::Definer(p));
            Ok(())
        }
        Definer::Der {
            block: _,
            slope,
            resets,
        } => {
            claim(roles, *slope, Role::Slope(p));
            claim_arms(roles, p, resets.as_slice())
        }
        Definer::Start { block: _, occ } => {
            claim(roles, *occ, Role::Start(p));
            Ok(())
        }
    }
}

fn claim_definers(roles: &mut Vec<Role>, p: u32, definers: &[Definer]) -> Result<(), AllocError>
    ensures { OnOk result (roles.new.items ≡ spec.claim_all (flat_map (spec.definer_claims p) definers.now) roles.old.items) }
{
    for definer in definers {
        claim_definer(roles, p, definer)?;
    }
    Ok(())
}

fn claim_places(roles: &mut Vec<Role>, places: &[PlaceInfo]) -> Result<(), AllocError>
    ensures { OnOk result (roles.new.items ≡ spec.claim_all (spec.places_claims 0 places.now) roles.old.items) }
{
    let mut p = 0;
    for place in places {
        claim_definers(roles, p, place.definers.as_slice())?;
        p = behind(p)?;
    }
    Ok(())
}

fn claim_sites(roles: &mut Vec<Role>, sites: &[SiteInfo])
    ensures { roles.new.items ≡ spec.claim_all (map spec.site_claim sites.now) roles.old.items }
{
    for site in sites {
        claim(roles, site.arg, Role::Argument);
    }
}

fn claim_again(roles: &mut Vec<Role>, again: &[u32])
    ensures { roles.new.items ≡ spec.claim_all (map spec.again_claim again.now) roles.old.items }
{
    for k in again {
        claim(roles, *k, Role::Again);
    }
}

/// The role of each occurrence of a form that has the main block alone and is single.
pub fn roles_of(alloc: Global, flat: &Flat) -> Result<Vec<Role>, AllocError>
    requires main { IsMain flat.now }
    requires single { IsSingle flat.now }
    ensures { IfOk result (λ roles. AreRoles flat.now roles.items) }
{
    let mut roles = vec![in alloc; Role::Unused; flat.occs.len()]?;
    claim_occs(&mut roles, flat.occs.as_slice())?;
    claim_places(&mut roles, flat.places.as_slice())?;
    claim_sites(&mut roles, flat.sites.as_slice());
    claim_again(&mut roles, flat.again.as_slice());
    Ok(roles)
}
