// The sites after an instant.
ghost use Rattle.std.specs.Prelude.{◌≡◌, ◌<◌, ◌&&◌, length, get_or, not, true, false};
ghost use Rattle.std.specs.List.{list_any};
ghost use Rattle.zl_value.specs.Times.{is_below, is_negative};
ghost use Rattle.zl_code.specs.System.{site_value};
ghost use Rattle.zl_machine.specs.MachineForm.{has_instant};
ghost use Rattle.zl_run.specs.Firing.{below_by, above_by, belows, firings, fires_at};

use zl_machine::{Machine, SiteView};
use zl_value::Frac;

fn is_negative_number(value: Frac) -> bool
    ensures { result ≡ is_negative value }
{
    value.num() < 0
}

fn is_below_zero(value: Option<Frac>) -> bool
    ensures { result ≡ below_by value }
{
    match value {
        Some(value) => is_negative_number(value),
        None => false,
    }
}

fn is_reached(site: SiteView) -> bool
    ensures { result ≡ (above_by site.value && not site.fresh) }
{
    match site.value {
        Some(value) => !is_negative_number(value) && !site.fresh,
        None => false,
    }
}

/// The site is below zero.
#[tactic(auto, using(crate::proofs::FiringLemmas::below_is))]
fn site_below(machine: &Machine, k: usize) -> bool
    requires ready { has_instant machine.now.mode ≡ true }
    requires inside { k < length machine.now.code.sites }
    ensures { result ≡ is_below (site_value machine.now.code machine.now.regs k) }
{
    is_below_zero(machine.site(k).value)
}

/// The site fires, where it was below zero or not at the instant before.
#[tactic(auto, using(crate::proofs::FiringLemmas::reached_is))]
fn site_fires(was_below: bool, machine: &Machine, k: usize) -> bool
    requires ready { has_instant machine.now.mode ≡ true }
    requires inside { k < length machine.now.code.sites }
    ensures { result ≡ fires_at machine.now.code was_below machine.now.regs k }
{
    was_below && is_reached(machine.site(k))
}

/// Notes of each site whether it fires; `below` says which were below zero at the instant before.
#[tactic(auto, using(crate::proofs::FiringLemmas::listed_more))]
pub(crate) fn note_firings(below: &[bool], events: &mut [bool], machine: &Machine)
    requires ready { has_instant machine.now.mode ≡ true }
    requires below { length below.now ≡ length machine.now.code.sites }
    requires events { length events.old ≡ length machine.now.code.sites }
    ensures { events.new ≡ firings machine.now.code below.now machine.now.regs }
{
    for k in 0..events.len() {
        events[k] = site_fires(below[k], machine, k);
    }
}

/// Notes of each site whether it is below zero.
#[tactic(auto, using(crate::proofs::FiringLemmas::listed_more))]
pub(crate) fn note_below(below: &mut [bool], machine: &Machine)
    requires ready { has_instant machine.now.mode ≡ true }
    requires below { length below.old ≡ length machine.now.code.sites }
    ensures { below.new ≡ belows machine.now.code machine.now.regs }
{
    for k in 0..below.len() {
        below[k] = site_below(machine, k);
    }
}

/// Some of them is true.
pub(crate) fn has_any(events: &[bool]) -> bool
    ensures { result ≡ list_any (λ event. event) events.now }
{
    for k in 0..events.len() {
        if events[k] {
            return true;
        }
    }
    false
}
