//! Which files break no rule, which is the first rule that a file breaks, and what a file comes to that breaks none.
use crate::constructs::EVERY_CONSTRUCT;
use crate::models::{A_DERIVATIVE_THAT_MOVES, MODELS};
use std::test::Fail;
use zl_compile::{CompileAnswer, accept, check};
use zl_value::{Pos, Rule};

/// Files that break a rule and may break a later one, with the place.
const BROKEN: [(&str, Rule, u32, u32); 11] = [
    ("let ~ = 99999999999999999999", Rule::Token, 1, 5),
    ("let k = 99999999999999999999 ~", Rule::Literal, 1, 9),
    ("let let", Rule::Parse, 1, 5),
    ("let f(a) = a let f(b) = c", Rule::NameUnknown, 1, 25),
    ("", Rule::Main, 1, 1),
    (
        "let hybrid main() = x where rec x = 1 +. 2.0",
        Rule::TypeClash,
        1,
        39,
    ),
    (
        "let hybrid main() = x where rec x = pre x +. 1.0",
        Rule::Kind,
        1,
        37,
    ),
    (
        "let hybrid main() = x where rec der x = 1.0 and y = y +. 1.0",
        Rule::Init,
        1,
        37,
    ),
    (
        "let hybrid main() = h where rec h = g +. 1.0 and g = h -. 1.0",
        Rule::Causality,
        1,
        33,
    ),
    (
        "let hybrid main() = y where rec der x = 1.0 init 0.0 and der y = x init 0.0 and z = z +. 1.0",
        Rule::Causality,
        1,
        81,
    ),
    (A_DERIVATIVE_THAT_MOVES, Rule::Grade, 1, 66),
];

#[test]
fn first_broken_rules_and_their_places(rt: HostRuntime) -> Result<(), Fail> {
    for (text, rule, line, column) in BROKEN {
        let at = Pos { line, column };
        let broken = Err(CompileAnswer::Refused { rule, at });
        assert_eq!(rt; check(rt.alloc(), text.as_bytes()), broken, "{text}");
    }
    Ok(())
}

#[test]
fn models_break_no_rule(rt: HostRuntime) -> Result<(), Fail> {
    for model in MODELS {
        if model != A_DERIVATIVE_THAT_MOVES {
            assert_eq!(rt; check(rt.alloc(), model.as_bytes()), Ok(()));
        }
    }
    assert_eq!(rt; check(rt.alloc(), EVERY_CONSTRUCT.as_bytes()), Ok(()));
    Ok(())
}

#[test]
fn a_line_beside_a_constant(rt: HostRuntime) -> Result<(), Fail> {
    let text = "let hybrid main() = (x, y) where rec der x = 1.0 init 0.0 and y = 2.0";
    let Ok(accepted) = accept(rt.alloc(), text.as_bytes()) else {
        return Err("the file breaks no rule".into());
    };
    assert_eq!(rt; accepted.flat.outs.len(), 2);
    assert_eq!(rt; accepted.ranks.places.len(), 2);
    assert_eq!(rt; accepted.grades.places.as_slice(), [1, 0].as_slice());
    Ok(())
}
