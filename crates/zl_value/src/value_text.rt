ghost use Rattle.std.specs.Prelude.{◌≡◌, ◌+◌, ◌≤◌, ◌++◌, length, decimal, OnOk, OnErr};
ghost use Rattle.std.specs.Fmt.{signed_decimal};
ghost use Rattle.zl_value.specs.Room.{WritesAt};
ghost use Rattle.zl_value.specs.ValueText.{value_text, fraction_text, bool_text, position_text};

use crate::{Frac, Pos, Value};
use itoa::Buffer;
use zl_outside::Memory;

/// The longest text of a value, in bytes: a sign, nineteen digits, `/`, and nineteen digits.
pub const LONGEST_VALUE: usize = 40;

/// Writes bytes into a room from `at` on, and answers where they end. The other bytes of the room stay.
pub fn write_bytes(room: &mut [u8], at: usize, bytes: &[u8]) -> usize
    requires { at + length bytes.now ≤ length room.old }
    ensures end { result ≡ at + length bytes.now }
    ensures written { WritesAt room.old at bytes.now room.new }
{
    let end = at + bytes.len();
    room[at..end].copy_from_slice(bytes);
    end
}

/// Writes a number in decimal into a room from `at` on, and answers where its text ends. The other bytes stay.
pub fn write_number(room: &mut [u8], at: usize, number: i64) -> usize
    requires { at + length (signed_decimal number) ≤ length room.old }
    ensures end { result ≡ at + length (signed_decimal number) }
    ensures short { length (signed_decimal number) ≤ 20 }
    ensures written { WritesAt room.old at (signed_decimal number) room.new }
{
    let mut buffer = Buffer::new();
    write_bytes(room, at, buffer.format(number).as_bytes())
}

fn write_bool(room: &mut [u8], at: usize, value: bool) -> usize
    requires { at + 5 ≤ length room.old }
    ensures end { result ≡ at + length (bool_text value) }
    ensures short { length (bool_text value) ≤ 5 }
    ensures written { WritesAt room.old at (bool_text value) room.new }
{
    if value {
        write_bytes(room, at, b"true")
    } else {
        write_bytes(room, at, b"false")
    }
}

fn write_fraction(room: &mut [u8], at: usize, value: Frac) -> usize
    requires { at + LONGEST_VALUE ≤ length room.old }
    ensures end { result ≡ at + length (fraction_text value) }
    ensures short { length (fraction_text value) ≤ LONGEST_VALUE }
    ensures written { WritesAt room.old at (fraction_text value) room.new }
{
    let den = value.den();
    let end = write_number(room, at, value.num());
    if den == 1 {
        return end;
    }
    let behind = write_bytes(room, end, b"/");
    write_number(room, behind, den)
}

/// Writes the text of a value into a room from `at` on, and answers where it ends. The other bytes stay. A bool is
/// `true` or `false`, an int is in decimal, and a fraction is `n` where its denominator is 1, else `n/d`.
pub fn write_value(room: &mut [u8], at: usize, value: Value) -> usize
    requires { at + LONGEST_VALUE ≤ length room.old }
    ensures end { result ≡ at + length (value_text value) }
    ensures short { length (value_text value) ≤ LONGEST_VALUE }
    ensures written { WritesAt room.old at (value_text value) room.new }
{
    match value {
        Value::B(b) => write_bool(room, at, b),
        Value::I(n) => write_number(room, at, n),
        Value::F(f) => write_fraction(room, at, f),
    }
}

/// Appends the text of a value to `out`, the text that `write_value` writes. Where there is no memory, `out` is as it
/// was.
pub fn print_value(out: &mut Vec<u8>, value: Value) -> Result<(), Memory>
    ensures printed { OnOk result (out.new.items ≡ out.old.items ++ value_text value) }
    ensures failed { OnErr result (out.new.items ≡ out.old.items) }
{
    let mut room = [0; LONGEST_VALUE];
    let end = write_value(&mut room, 0, value);
    match out.extend_from_slice(&room[..end]) {
        Ok(()) => Ok(()),
        Err(_) => Err(Memory),
    }
}

/// Appends a number in decimal to `out`. Where there is no memory, `out` is as it was.
pub fn print_number(out: &mut Vec<u8>, number: u64) -> Result<(), Memory>
    ensures printed { OnOk result (out.new.items ≡ out.old.items ++ decimal number) }
    ensures failed { OnErr result (out.new.items ≡ out.old.items) }
{
    let mut buffer = Buffer::new();
    match out.extend_from_slice(buffer.format(number).as_bytes()) {
        Ok(()) => Ok(()),
        Err(_) => Err(Memory),
    }
}

/// Appends a position to `out`: the line, `:`, and the column. Where there is no memory, `out` may hold a part of it.
pub fn print_position(out: &mut Vec<u8>, at: Pos) -> Result<(), Memory>
    ensures { OnOk result (out.new.items ≡ out.old.items ++ position_text at) }
{
    print_number(out, u64::from(at.line))?;
    match out.push(b':') {
        Ok(()) => print_number(out, u64::from(at.column)),
        Err(_) => Err(Memory),
    }
}
