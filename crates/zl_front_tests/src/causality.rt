//! Which programs have ranks, and at which variable the others go round.
use crate::front::flat;
use crate::models::MODELS;
use std::alloc::Global;
use std::test::Fail;
use zl_causal::ranks;
use zl_value::{Pos, Refusal, Rule};

/// What refuses the ranks of a text's flat form.
fn refusal(alloc: Global, text: &str) -> Result<Option<Refusal>, Fail> {
    let form = flat(alloc, text)?;
    Ok(ranks(alloc, &form).err())
}

fn circle(line: u32, column: u32) -> Option<Refusal> {
    let at = Pos { line, column };
    let rule = Rule::Causality;
    Some(Refusal::Broken { rule, at })
}

#[test]
fn models_have_ranks(rt: HostRuntime) -> Result<(), Fail> {
    for model in MODELS {
        assert_eq!(rt; refusal(rt.alloc(), model)?, None, "{model}");
    }
    Ok(())
}

#[test]
fn two_variables_that_need_each_other(rt: HostRuntime) -> Result<(), Fail> {
    let text = "let hybrid main() = h where rec h = g +. 1.0 and g = h -. 1.0";
    assert_eq!(rt; refusal(rt.alloc(), text)?, circle(1, 33));
    Ok(())
}

#[test]
fn an_unless_test_that_reads_its_body(rt: HostRuntime) -> Result<(), Fail> {
    let text = "let node f() = x where rec init x = 0 and automaton
    | A -> do x = 1 unless (x = 1) then B
    | B -> do x = 2 done
let hybrid main() = z where rec
    der t = 1.0 init 0.0 and init z = 0 and present up(t -. 1.0) -> do z = f() done";
    assert_eq!(rt; refusal(rt.alloc(), text)?, circle(1, 33));
    Ok(())
}

#[test]
fn a_copy_in_a_branch_whose_condition_reads_it(rt: HostRuntime) -> Result<(), Fail> {
    let text = "let f(a) = y where y = a
let hybrid main() = z where rec z = if z > 0.0 then f(1.0) else 0.0";
    assert_eq!(rt; refusal(rt.alloc(), text)?, circle(2, 33));
    Ok(())
}

/// So many variables, each of which reads the one before, in one circle or in none.
fn chain(alloc: Global, count: u32, first: &str) -> Result<String, Fail> {
    let mut text = String::from_str(alloc, "let hybrid main() = a where a = 1.0 and b = ")?;
    text.push_str(first)?;
    text.push_str(" and c")?;
    push_number(&mut text, 0)?;
    text.push_str(" = b")?;
    for number in 1..count {
        text.push_str(" and c")?;
        push_number(&mut text, number)?;
        text.push_str(" = c")?;
        push_number(&mut text, number - 1)?;
    }
    Ok(text)
}

/// Writes a number of four digits.
fn push_number(text: &mut String, number: u32) -> Result<(), Fail> {
    let digits = "0123456789".as_bytes();
    for place in [1000, 100, 10, 1] {
        text.push(char::from(digits[(number / place % 10) as usize]))?;
    }
    Ok(())
}

#[test]
fn long_chains_and_great_circles(rt: HostRuntime) -> Result<(), Fail> {
    let open = chain(rt.alloc(), 8190, "a +. 0.0")?;
    assert_eq!(rt; refusal(rt.alloc(), open.as_str())?, None);
    let closed = chain(rt.alloc(), 8190, "c8189 +. 0.0")?;
    assert_eq!(rt; refusal(rt.alloc(), closed.as_str())?, circle(1, 41));
    Ok(())
}
