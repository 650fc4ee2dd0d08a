ghost use Rattle.std.specs.Prelude.{◌≡◌, ◌++◌, [], ◌∷◌, IfOk, OnOk};
ghost use Rattle.zl_value.specs.Lines.{instant_line, ending_line, arith_text, mark_text};
ghost use Rattle.zl_value.specs.declared.script.Ending.TheVariants.{Horizon, Fault as EndsInFault};
ghost use Rattle.zl_value.specs.declared.value.Value.TheVariants.{F};

use std::alloc::Global;
use zl_outside::Memory;
use zl_value::{Arith, Fault, Frac, Mark, Text, Value, print_number, print_position, print_value};

/// Appends bytes to a line.
fn append(line: &mut Vec<u8>, bytes: &[u8]) -> Result<(), Memory>
    ensures { OnOk result (line.new.items ≡ line.old.items ++ bytes.now) }
{
    match line.extend_from_slice(bytes) {
        Ok(()) => Ok(()),
        Err(_) => Err(Memory),
    }
}

fn append_mark(line: &mut Vec<u8>, mark: Mark) -> Result<(), Memory>
    ensures { OnOk result (line.new.items ≡ line.old.items ++ mark_text mark) }
{
    match mark {
        Mark::Step(k) => {
            append(line, b"#")?;
            print_number(line, k as u64)
        }
        Mark::Left => append(line, b"-"),
        Mark::Flow => append(line, b"~"),
    }
}

/// The line of an instant at which a variable has a value.
pub fn value_line(
    alloc: Global,
    name: &[u8],
    time: Frac,
    mark: Mark,
    value: Frac,
) -> Result<Text, Memory>
    ensures { IfOk result (λ line. line ≡ instant_line time mark (record { name = name.now; value = F value } ∷ [])) }
{
    let mut line = Vec::new(alloc);
    print_value(&mut line, Value::F(time))?;
    append(&mut line, b" ")?;
    append_mark(&mut line, mark)?;
    append(&mut line, b" ")?;
    append(&mut line, name)?;
    append(&mut line, b"=")?;
    print_value(&mut line, Value::F(value))?;
    append(&mut line, b"\n")?;
    Ok(Text::from_vec(line))
}

/// The last line of a run that came to its horizon.
pub fn horizon_line(alloc: Global) -> Result<Text, Memory>
    ensures { IfOk result (λ line. line ≡ ending_line Horizon) }
{
    Text::make(alloc, b"end horizon\n")
}

fn append_kind(line: &mut Vec<u8>, kind: Arith) -> Result<(), Memory>
    ensures { OnOk result (line.new.items ≡ line.old.items ++ arith_text kind) }
{
    match kind {
        Arith::Range => append(line, b"range"),
        Arith::Division => append(line, b"division"),
    }
}

/// The last line of a run that ended with a fault.
pub fn fault_line(alloc: Global, fault: Fault, time: Frac, mark: Mark) -> Result<Text, Memory>
    ensures { IfOk result (λ line. line ≡ ending_line (EndsInFault fault time mark)) }
{
    let mut line = Vec::new(alloc);
    append(&mut line, b"fault ")?;
    append_kind(&mut line, fault.kind)?;
    append(&mut line, b" ")?;
    print_value(&mut line, Value::F(time))?;
    append(&mut line, b" ")?;
    append_mark(&mut line, mark)?;
    append(&mut line, b" ")?;
    print_position(&mut line, fault.at)?;
    append(&mut line, b"\n")?;
    Ok(Text::from_vec(line))
}
