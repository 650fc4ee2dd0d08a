ghost use Rattle.std.specs.Prelude.{◌≡◌, ℕ, ◌&&◌, not, true, false, ◌==◌, length, slice_index_or, slice_set, None, Some, IfOk, if◌then◌else◌};
ghost use Rattle.std.specs.List.{list_all};
ghost use Rattle.zl_value.specs.Order.{below};
ghost use Rattle.zl_script.specs.Faults.{is_later, out_of_order, input_fault, all_set, sets_all, missing_at};

use crate::at_line::AtLine;
use std::alloc::{AllocError, Global};
use zl_value::{Frac, Set};

fn is_below(a: Frac, b: Frac) -> bool
    ensures { result ≡ below a b }
{
    a.cmp(b).is_lt()
}

fn is_later(before: Option<Frac>, time: Frac) -> bool
    ensures { result ≡ is_later before time }
{
    match before {
        None => true,
        Some(before) => is_below(before, time),
    }
}

/// Whether a time is later than the one before and not later than the horizon.
fn is_in_order(horizon: Frac, before: Option<Frac>, time: Frac) -> bool
    ensures { result ≡ (is_later before time && not (below horizon time)) }
{
    is_later(before, time) && !is_below(horizon, time)
}

/// The first line whose time isn't greater than the one before, or is greater than the horizon.
pub(crate) fn out_of_order(horizon: Frac, lines: &[AtLine]) -> Option<u32>
    ensures { result ≡ out_of_order horizon None lines.now }
{
    let mut before: Option<Frac> = None;
    for line in lines {
        if !is_in_order(horizon, before, line.time) {
            return Some(line.line);
        }
        before = Some(line.time);
    }
    None
}

/// The first line in which a name or a value is at fault.
pub(crate) fn input_fault(lines: &[AtLine]) -> Option<u32>
    ensures { result ≡ input_fault lines.now }
{
    for line in lines {
        if !line.sets.is_some() {
            return Some(line.line);
        }
    }
    None
}

/// A mark for each of so many inputs, of which none is given.
fn none_given(alloc: Global, count: usize) -> Result<Vec<bool>, AllocError>
    ensures room { IfOk result (λ given. length given.items ≡ count) }
    ensures none { IfOk result (λ given. (k : ℕ) → slice_index_or given.items k false ≡ false) }
{
    Ok(vec![in alloc; false; count]?)
}

fn mark(given: &mut Vec<bool>, input: u32)
    ensures { given.new.items ≡ slice_set given.old.items input true }
{
    if (input as usize) < given.len() {
        given[input as usize] = true;
    }
}

fn are_all(given: &[bool]) -> bool
    ensures { result ≡ list_all (λ is_given. is_given) given.now }
{
    given.iter().all(|is_given| *is_given)
}

/// Whether each of so many inputs is set.
fn all_set(alloc: Global, sets: &[Set], count: usize) -> Result<bool, AllocError>
    ensures { IfOk result (λ all. all ≡ all_set sets.now count) }
{
    let mut given = none_given(alloc, count)?;
    for set in sets {
        mark(&mut given, set.input);
    }
    Ok(are_all(given.as_slice()))
}

/// The line at which not all of so many inputs are given: that of time 0 or, where there is none, that of the horizon.
pub(crate) fn missing_at(
    alloc: Global,
    count: usize,
    horizon_line: u32,
    lines: &[AtLine],
) -> Result<Option<u32>, AllocError>
    ensures { IfOk result (λ line. line ≡ missing_at count horizon_line lines.now) }
{
    match lines.first() {
        Some(line) if line.time.num() == 0 => missing_at_start(alloc, count, line),
        _ => Ok(if_some(count, horizon_line)),
    }
}

/// The line at which an input is missing, where there are inputs.
fn if_some(count: usize, line: u32) -> Option<u32>
    ensures { result ≡ (if count == 0 then None else Some line) }
{
    if count == 0 { None } else { Some(line) }
}

/// The line at time 0, where it doesn't set each of so many inputs.
fn missing_at_start(alloc: Global, count: usize, line: &AtLine) -> Result<Option<u32>, AllocError>
    ensures { IfOk result (λ at. at ≡ (if sets_all line.now.sets count then None else Some line.now.line)) }
{
    match &line.sets {
        None => Ok(None),
        Some(sets) => {
            if all_set(alloc, sets.as_slice(), count)? {
                Ok(None)
            } else {
                Ok(Some(line.line))
            }
        }
    }
}
