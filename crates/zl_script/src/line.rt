ghost use Rattle.std.specs.Prelude.{◌≡◌, ℕ, ◌<◌, ◌≤◌, ◌^◌, ◌==◌, ◌++◌, [], ◌∷◌, Some, None, not, map, length, slice_index, slice_set, option_map, IfOk, IfSome, OnOk, if◌then◌else◌};
ghost use Rattle.zl_script.specs.Marks.{is_first, with_set, marked};
ghost use Rattle.zl_script.specs.Assignments.{assignments_of, sets_of};
ghost use Rattle.zl_script.specs.Cut.{words_of};
ghost use Rattle.zl_script.specs.Grammar.{behind, single, horizon_of, steps_of, at_of};

use crate::assignment::{read_assignment, set_for};
use crate::at_line::AtLine;
use crate::cut::next_word;
use crate::number::{read_step_count, read_time};
use crate::table::Table;
use std::alloc::{AllocError, Global};
use zl_value::{Frac, Input, Sequence, Set, Value};

/// What stands behind the first word, where that is the keyword.
fn behind<'a>(keyword: &[u8], line: &'a [u8]) -> Option<&'a [u8]>
    ensures { option_map (λ rest. words_of rest.now) result ≡ behind keyword.now (words_of line.now) }
{
    match next_word(line) {
        Some((word, rest)) if word == keyword => Some(rest),
        _ => None,
    }
}

/// The word, where there is one alone.
fn single(line: &[u8]) -> Option<&[u8]>
    ensures { option_map (λ word. word.now) result ≡ single (words_of line.now) }
{
    match next_word(line) {
        Some((word, rest)) if next_word(rest).is_none() => Some(word),
        _ => None,
    }
}

/// The time of a line `horizon T`.
pub(crate) fn read_horizon(line: &[u8]) -> Option<Frac>
    ensures { result ≡ horizon_of (words_of line.now) }
{
    read_time(single(behind(b"horizon", line)?)?)
}

/// The number of a line `steps N`.
pub(crate) fn read_steps(line: &[u8]) -> Option<u32>
    ensures { result ≡ steps_of (words_of line.now) }
{
    read_step_count(single(behind(b"steps", line)?)?)
}

/// The sets of the assignments of a line. The outer `None` says that a word is no assignment, the inner one that a name or
/// a value is at fault. `last` has for each input the number of the last line that set it.
fn read_sets(
    alloc: Global,
    inputs: &[Input],
    table: &Table,
    last: &mut Vec<u32>,
    line: u32,
    words: &[u8],
) -> Result<Option<Option<Sequence<Set>>>, AllocError>
    requires table { table.now ≡ map (λ i. i.name) inputs.now }
    requires few { length inputs.now < 2 ^ 32 }
    requires room { length last.old.items ≡ length inputs.now }
    requires before { (k : ℕ) → slice_index last.old.items k < line }
    ensures sets { IfOk result (λ sets. sets ≡ option_map (sets_of inputs.now) (assignments_of (words_of words.now))) }
    ensures same { OnOk result (length last.new.items ≡ length last.old.items) }
    ensures until { OnOk result ((k : ℕ) → slice_index last.new.items k ≤ line) }
{
    let mut sets = Vec::new(alloc);
    let mut faultless = true;
    let mut rest = words;
    while let Some((word, behind)) = next_word(rest) {
        let Some(assignment) = read_assignment(word) else {
            return Ok(None);
        };
        let set = set_for(inputs, table, assignment.name, assignment.value);
        let added = add_set(&mut sets, last, set, line)?;
        faultless = faultless && added;
        rest = behind;
    }
    Ok(Some(if_faultless(faultless, sets)))
}

fn if_faultless(faultless: bool, sets: Vec<Set>) -> Option<Sequence<Set>>
    ensures { result ≡ (if faultless then Some sets.items else None) }
{
    if faultless {
        Some(Sequence::from_vec(sets))
    } else {
        None
    }
}

/// Adds a set, and says that it did: that there is one, of an input that this line didn't set before.
fn add_set(
    sets: &mut Vec<Set>,
    last: &mut Vec<u32>,
    set: Option<Set>,
    line: u32,
) -> Result<bool, AllocError>
    requires { IfSome set (λ set. set.input < length last.old.items) }
    ensures added { IfOk result (λ added. added ≡ is_first last.old.items set line) }
    ensures sets { IfOk result (λ added. sets.new.items ≡ with_set added sets.old.items set) }
    ensures last { OnOk result (last.new.items ≡ marked last.old.items set line) }
{
    let Some(set) = set else {
        return Ok(false);
    };
    if !take_turn(last, set.input, line) {
        return Ok(false);
    }
    push_set(sets, set.input, set.value)?;
    Ok(true)
}

fn push_set(sets: &mut Vec<Set>, input: u32, value: Value) -> Result<(), AllocError>
    ensures { OnOk result (sets.new.items ≡ sets.old.items ++ record { input = input; value = value } ∷ []) }
{
    sets.push(Set { input, value })?;
    Ok(())
}

/// Whether this line didn't set the input before. From now on it did.
fn take_turn(last: &mut Vec<u32>, input: u32, line: u32) -> bool
    requires { input < length last.old.items }
    ensures first { result ≡ not (slice_index last.old.items input == line) }
    ensures now { last.new.items ≡ slice_set last.old.items input line }
{
    let place = &mut last[input as usize];
    let first = *place != line;
    *place = line;
    first
}

/// The line of `at T` and assignments, which has this number.
pub(crate) fn read_at_line(
    alloc: Global,
    inputs: &[Input],
    table: &Table,
    last: &mut Vec<u32>,
    line: u32,
    words: &[u8],
) -> Result<Option<AtLine>, AllocError>
    requires table { table.now ≡ map (λ i. i.name) inputs.now }
    requires few { length inputs.now < 2 ^ 32 }
    requires room { length last.old.items ≡ length inputs.now }
    requires before { (k : ℕ) → slice_index last.old.items k < line }
    ensures line { IfOk result (λ l. l ≡ at_of inputs.now line (words_of words.now)) }
    ensures same { OnOk result (length last.new.items ≡ length last.old.items) }
    ensures until { OnOk result ((k : ℕ) → slice_index last.new.items k ≤ line) }
{
    let Some(rest) = behind(b"at", words) else {
        return Ok(None);
    };
    let Some((word, assignments)) = next_word(rest) else {
        return Ok(None);
    };
    let Some(time) = read_time(word) else {
        return Ok(None);
    };
    match read_sets(alloc, inputs, table, last, line, assignments)? {
        Some(sets) => Ok(Some(AtLine { line, time, sets })),
        None => Ok(None),
    }
}
