use crate::front::flat;
use std::alloc::AllocError;
use std::test::Fail;

/// How many there are of each kind that a number of eight bits could count.
const MANY: u32 = 300;

/// How many constants there are: more names than a number of 16 bits counts.
const CONSTANTS: u32 = 66_000;

/// How many operators are in the chain: more occurrences than a number of 16 bits counts.
const OPERATORS: u32 = 33_000;

/// Writes a name: this letter, and a letter for each of the last four digits of the number to the base 26.
fn push_name(text: &mut String, first: char, number: u32) -> Result<(), AllocError> {
    let letters = "abcdefghijklmnopqrstuvwxyz".as_bytes();
    text.push(first)?;
    let mut rest = number;
    for _digit in 0..4 {
        text.push(char::from(letters[(rest % 26) as usize]))?;
        rest /= 26;
    }
    Ok(())
}

/// Writes so many pieces, each with the name that begins with this letter and has its number between two texts.
fn push_each(
    text: &mut String,
    count: u32,
    before: &str,
    first: char,
    behind: &str,
) -> Result<(), AllocError> {
    for number in 0..count {
        text.push_str(before)?;
        push_name(text, first, number)?;
        text.push_str(behind)?;
    }
    Ok(())
}

/// Writes a program that is accepted and has many of each kind: declarations, names, operators in a chain, variables,
/// locals, arms and states.
fn push_program(text: &mut String) -> Result<(), AllocError> {
    push_each(text, CONSTANTS, "let ", 'C', "=1\n")?;
    text.push_str("let hybrid main()=x where x=1")?;
    for _operator in 0..OPERATORS {
        text.push_str("+1")?;
    }
    push_each(text, MANY, "\nand ", 'V', "=x")?;
    text.push_str("\nand init y=0 and present up(1.0)->local z")?;
    push_each(text, MANY, ",", 'L', "")?;
    text.push_str(" in do z=1 and y=z")?;
    push_each(text, MANY, "\nand ", 'L', "=z")?;
    text.push_str(" done")?;
    for _arm in 0..MANY {
        text.push_str("\n| up(1.0)->do done")?;
    }
    text.push_str("\nand automaton Z->do done")?;
    push_each(text, MANY, "\n| ", 'S', "->do until up(1.0) then Z")?;
    Ok(())
}

#[test]
fn a_wide_program_is_accepted(rt: HostRuntime) -> Result<(), Fail> {
    let mut text = String::new(rt.alloc());
    push_program(&mut text)?;
    let form = flat(rt.alloc(), text.as_str())?;
    assert!(rt; form.occs.len() > 65_536);
    assert_eq!(rt; form.places.len(), 603);
    assert_eq!(rt; form.blocks.len(), 904);
    Ok(())
}
