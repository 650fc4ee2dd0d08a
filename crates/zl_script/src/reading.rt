ghost use Rattle.std.specs.Prelude.{◌≡◌, ℕ, ◌+◌, ◌<◌, ◌≤◌, ◌^◌, List, map, length, slice_index, IfOk};
ghost use Rattle.std.specs.List.{IsDistinct};
ghost use Rattle.std.specs.Str.{bytes_eq};
ghost use Rattle.zl_value.specs.Script.{IsScriptFor};
ghost use Rattle.zl_value.specs.Fraction.{Fraction};
ghost use Rattle.zl_value.specs.declared.script.Input.{Input as TheInput};
ghost use Rattle.zl_script.specs.Answer.{IsReading, reading, refusal, unless_refused, script_line};
ghost use Rattle.zl_script.specs.Cut.{lines_of};
ghost use Rattle.zl_script.specs.Items.{items};
ghost use Rattle.zl_script.specs.Parsed.{IsParsed, at_lines, behind_horizon, made, parsed};

use crate::ScriptAnswer;
use crate::at_line::AtLine;
use crate::fault::{input_fault, missing_at, out_of_order};
use crate::item::next_item;
use crate::line::{read_at_line, read_horizon, read_steps};
use crate::parsed::Parsed;
use crate::table::Table;
use std::alloc::{AllocError, Global};
use zl_value::{Input, Script, ScriptLine, Sequence};

/// The most bytes that a script has.
pub const LONGEST_SCRIPT: usize = 1_048_576;

/// How many steps may be made where the script doesn't say it.
const MOST_STEPS: u32 = 1_000_000;

/// The script that a text is for these inputs: a line `horizon T`, perhaps a line `steps N`, and lines `at T` with
/// assignments `NAME=VALUE`, times in order. Where N isn't given it is 1,000,000. Blank lines and lines whose first word
/// begins with `#` are skipped. Each refusal comes exactly where its fault does and no fault of an earlier variant of
/// `ScriptAnswer` does, at the first line that has it. The form is this project's own. The names of the inputs differ.
pub fn read_script(alloc: Global, text: &[u8], inputs: &[Input]) -> Result<Script, ScriptAnswer>
    requires { IsDistinct bytes_eq (map (λ i. i.name) inputs.now) }
    ensures reading { IsReading (reading inputs.now text.now) result }
    ensures fits { IfOk result (IsScriptFor (map (λ i. i.ty) inputs.now)) }
{
    if text.len() > LONGEST_SCRIPT {
        return Err(ScriptAnswer::Size { line: 1 });
    }
    if inputs.len() > u32::MAX as usize {
        return Err(ScriptAnswer::Memory);
    }
    let table = Table::make(alloc, inputs)?;
    let parsed = read_parsed(alloc, inputs, &table, text)?;
    checked(alloc, inputs.len(), parsed)
}

/// What the lines of a text say, but for their order and their inputs.
fn read_parsed(
    alloc: Global,
    inputs: &[Input],
    table: &Table,
    text: &[u8],
) -> Result<Parsed, ScriptAnswer>
    requires table { table.now ≡ map (λ i. i.name) inputs.now }
    requires few { length inputs.now < 2 ^ 32 }
    requires short { length text.now ≤ 1048576 }
    ensures { IsParsed (parsed inputs.now text.now) result }
{
    let first = match next_item(text, 1) {
        Ok(found) => found,
        Err(line) => return Err(ScriptAnswer::Syntax { line }),
    };
    let Some(horizon) = read_horizon(first.words) else {
        return Err(ScriptAnswer::Syntax { line: first.line });
    };
    let (steps, rest, next) = split_steps(first.rest, first.next);
    let lines = read_at_lines(alloc, inputs, table, rest, next)?;
    Ok(Parsed {
        line: first.line,
        horizon,
        steps,
        lines,
    })
}

/// How many steps may be made, and the lines behind the one that says it, with the number of the first of them.
fn split_steps(text: &[u8], number: u32) -> (u32, &[u8], u32)
    requires { number + length text.now ≤ 1048577 }
    ensures steps { (inputs : List TheInput) (line : ℕ) (horizon : Fraction) →
        behind_horizon inputs line horizon (items number (lines_of text.now))
        ≡ made line horizon result.0 (at_lines inputs (items result.2 (lines_of result.1.now))) }
    ensures within { result.2 + length result.1.now ≤ number + length text.now }
    ensures later { number ≤ result.2 }
{
    match next_item(text, number) {
        Ok(found) => match read_steps(found.words) {
            Some(steps) => (steps, found.rest, found.next),
            None => (MOST_STEPS, text, number),
        },
        Err(_) => (MOST_STEPS, text, number),
    }
}

/// For each of so many inputs, that no line set it.
fn no_lines(alloc: Global, count: usize) -> Result<Vec<u32>, AllocError>
    ensures room { IfOk result (λ last. length last.items ≡ count) }
    ensures none { IfOk result (λ last. (k : ℕ) → slice_index last.items k ≡ 0) }
{
    Ok(vec![in alloc; 0; count]?)
}

/// The lines at times.
fn read_at_lines(
    alloc: Global,
    inputs: &[Input],
    table: &Table,
    text: &[u8],
    number: u32,
) -> Result<Sequence<AtLine>, ScriptAnswer>
    requires table { table.now ≡ map (λ i. i.name) inputs.now }
    requires few { length inputs.now < 2 ^ 32 }
    requires short { number + length text.now ≤ 1048577 }
    requires some { 1 ≤ number }
    ensures { IsParsed (at_lines inputs.now (items number (lines_of text.now))) result }
{
    let mut last = no_lines(alloc, inputs.len())?;
    let mut lines = Vec::new(alloc);
    let mut rest = text;
    let mut next = number;
    while let Ok(found) = next_item(rest, next) {
        let line = read_at_line(alloc, inputs, table, &mut last, found.line, found.words)?;
        let Some(line) = line else {
            return Err(ScriptAnswer::Syntax { line: found.line });
        };
        lines.push(line)?;
        rest = found.rest;
        next = found.next;
    }
    Ok(Sequence::from_vec(lines))
}

/// The script that the lines are, unless something is at fault in them.
fn checked(alloc: Global, count: usize, parsed: Parsed) -> Result<Script, ScriptAnswer>
    ensures { IsReading (unless_refused parsed (refusal count parsed)) result }
{
    let lines = parsed.lines.as_slice();
    if let Some(line) = out_of_order(parsed.horizon, lines) {
        return Err(ScriptAnswer::Order { line });
    }
    if let Some(line) = input_fault(lines) {
        return Err(ScriptAnswer::Input { line });
    }
    if let Some(line) = missing_at(alloc, count, parsed.line, lines)? {
        return Err(ScriptAnswer::Missing { line });
    }
    Ok(Script {
        horizon: parsed.horizon,
        steps: parsed.steps,
        lines: script_lines(alloc, parsed.lines)?,
    })
}

fn script_lines(alloc: Global, lines: Sequence<AtLine>) -> Result<Sequence<ScriptLine>, AllocError>
    ensures { IfOk result (λ made. made ≡ map script_line lines) }
{
    let made: Vec<ScriptLine> = lines
        .into_vec()
        .into_iter()
        .map(|line| to_script_line(alloc, line))
        .collect(alloc)?;
    Ok(Sequence::from_vec(made))
}

fn to_script_line(alloc: Global, line: AtLine) -> ScriptLine
    ensures { result ≡ script_line line }
{
    let AtLine { time, sets, .. } = line;
    let sets = match sets {
        Some(sets) => sets,
        None => Sequence::from_vec(Vec::new(alloc)),
    };
    ScriptLine { time, sets }
}
