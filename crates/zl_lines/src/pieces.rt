// The parts of a line.
ghost use Rattle.std.specs.Prelude.{◌≡◌, ◌++◌, map, true, OnOk};
ghost use Rattle.std.specs.List.{flat_map};
ghost use Rattle.zl_value.specs.Lines.{arith_text, mark_text, shown_text, instant_line, ending_line};
ghost use Rattle.zl_machine.specs.MachineForm.{has_instant};
ghost use Rattle.zl_lines.specs.RoomForm.{output_names, shown_by};
ghost use Rattle.zl_value.specs.declared.script.Ending.TheVariants.{Fault as EndsInFault};

use zl_machine::Machine;
use zl_outside::Memory;
use zl_value::{
    Arith, Ending, Fault, Frac, Mark, Text, Value, print_number, print_position, print_value,
};

/// Appends bytes to a line.
fn append(line: &mut Vec<u8>, bytes: &[u8]) -> Result<(), Memory>
    ensures { OnOk result (line.new.items ≡ line.old.items ++ bytes.now) }
{
    match line.extend_from_slice(bytes) {
        Ok(()) => Ok(()),
        Err(_) => Err(Memory),
    }
}

fn append_mark(line: &mut Vec<u8>, mark: Mark) -> Result<(), Memory>
    ensures { OnOk result (line.new.items ≡ line.old.items ++ mark_text mark) }
{
    match mark {
        Mark::Step(k) => {
            append(line, b"#")?;
            print_number(line, k as u64)
        }
        Mark::Left => append(line, b"-"),
        Mark::Flow => append(line, b"~"),
    }
}

fn append_kind(line: &mut Vec<u8>, kind: Arith) -> Result<(), Memory>
    ensures { OnOk result (line.new.items ≡ line.old.items ++ arith_text kind) }
{
    match kind {
        Arith::Range => append(line, b"range"),
        Arith::Division => append(line, b"division"),
    }
}

fn append_shown(line: &mut Vec<u8>, name: &[u8], value: Value) -> Result<(), Memory>
    ensures { OnOk result (line.new.items ≡ line.old.items ++ shown_text (record { name = name.now; value = value })) }
{
    append(line, b" ")?;
    append(line, name)?;
    append(line, b"=")?;
    print_value(line, value)
}

/// Appends the outputs of a machine, each with its name.
fn append_outputs(line: &mut Vec<u8>, names: &[Text], machine: &Machine) -> Result<(), Memory>
    requires ready { has_instant machine.now.mode ≡ true }
    requires names { names.now ≡ output_names machine.now.code.outs }
    ensures { OnOk result (line.new.items ≡ line.old.items ++ flat_map shown_text (shown_by machine.now)) }
{
    for k in 0..names.len() {
        append_shown(line, names[k].bytes(), machine.output(k))?;
    }
    Ok(())
}

/// Appends the line of an instant.
pub(crate) fn append_instant(
    line: &mut Vec<u8>,
    names: &[Text],
    time: Frac,
    mark: Mark,
    machine: &Machine,
) -> Result<(), Memory>
    requires ready { has_instant machine.now.mode ≡ true }
    requires names { names.now ≡ output_names machine.now.code.outs }
    ensures { OnOk result (line.new.items ≡ line.old.items ++ instant_line time mark (shown_by machine.now)) }
{
    print_value(line, Value::F(time))?;
    append(line, b" ")?;
    append_mark(line, mark)?;
    append_outputs(line, names, machine)?;
    append(line, b"\n")
}

fn append_fault(line: &mut Vec<u8>, fault: Fault, time: Frac, mark: Mark) -> Result<(), Memory>
    ensures { OnOk result (line.new.items ≡ line.old.items ++ ending_line (EndsInFault fault time mark)) }
{
    append(line, b"fault ")?;
    append_kind(line, fault.kind)?;
    append(line, b" ")?;
    print_value(line, Value::F(time))?;
    append(line, b" ")?;
    append_mark(line, mark)?;
    append(line, b" ")?;
    print_position(line, fault.at)?;
    append(line, b"\n")
}

/// Appends the last line of a trace.
pub(crate) fn append_ending(line: &mut Vec<u8>, end: Ending) -> Result<(), Memory>
    ensures { OnOk result (line.new.items ≡ line.old.items ++ ending_line end) }
{
    match end {
        Ending::Horizon => append(line, b"end horizon\n"),
        Ending::Bound => append(line, b"end bound\n"),
        Ending::Empty => append(line, b"end empty\n"),
        Ending::Fault { fault, time, mark } => append_fault(line, fault, time, mark),
    }
}
