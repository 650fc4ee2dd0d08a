use crate::front::{read, tokens};
use std::alloc::{AllocError, Global};
use std::test::Fail;
use zl_ast::{DeclKind, Eqn, Expr, Infix};
use zl_parser::{ParseAnswer, parse};
use zl_value::{Frac, Pos, Value};

/// The refusal of a text that has tokens.
fn refusal(alloc: Global, text: &str) -> Result<Option<ParseAnswer>, Fail> {
    let lexed = tokens(alloc, text)?;
    Ok(parse(alloc, lexed).err())
}

fn refused(token: usize, line: u32, column: u32) -> Option<ParseAnswer> {
    let at = Pos { line, column };
    Some(ParseAnswer::Parse { token, at })
}

fn too_deep(token: usize, column: u32) -> Option<ParseAnswer> {
    let at = Pos { line: 1, column };
    Some(ParseAnswer::Deep { token, at })
}

/// A constant with so many parentheses before its value, and so many behind it.
fn nested(alloc: Global, before: u32, value: &str, behind: u32) -> Result<String, AllocError> {
    let mut text = String::from_str(alloc, "let x = ")?;
    for _ in 0..before {
        text.push('(')?;
    }
    text.push_str(value)?;
    for _ in 0..behind {
        text.push(')')?;
    }
    Ok(text)
}

#[test]
fn every_form_has_a_tree(rt: HostRuntime) -> Result<(), Fail> {
    let text = "let half = 0.5
let mean(x: float, y) = (x +. y) *. half
let node count(go: bool) = n where rec n = 0 -> pre n + (if go || not go then 1 else 0)
let hybrid ball(height) = (y, v) where rec
    der y = v init height
    and der v = -9.81 init 0.0 reset up(-. y) -> -0.5 *. last v | up(y) | up(v) -> mean(y, v)
    and (a, b) = pair(y, v) and init s = 1 fby 2
    and present | up(y) -> local q in do q = 1 and t = q done | (y > 0.0) -> do done else do t = 2 done end
    and automaton | Rise -> do z = 1 until up(y) then Fall else (a mod 2 = 1) continue Rise unless up(v) then Fall
        | Fall -> local w in do w = 1 done end
    and reset u = 1 every up(v)";
    let program = read(rt.alloc(), text)?;
    let decls = program.decls.as_slice();
    assert_eq!(rt; decls.len(), 4);
    assert_eq!(rt; decls[0].kind, DeclKind::Constant);
    assert_eq!(rt; decls[1].kind, DeclKind::Function);
    assert_eq!(rt; decls[1].params.len(), 2);
    assert_eq!(rt; decls[2].kind, DeclKind::Node);
    assert_eq!(rt; decls[3].kind, DeclKind::Hybrid);
    assert_eq!(rt; decls[3].results.len(), 2);
    assert_eq!(rt; decls[3].eqs.len(), 7);
    assert_eq!(rt; program.names.text(0), Some("half"));
    Ok(())
}

#[test]
fn operators_of_a_level_are_one_chain(rt: HostRuntime) -> Result<(), Fail> {
    let program = read(rt.alloc(), "let x = 1 - 2 * 3 - 4")?;
    let decls = program.decls.as_slice();
    assert_eq!(rt; decls.len(), 1);
    let results = decls[0].results.as_slice();
    assert_eq!(rt; results.len(), 1);
    let Expr::Chain { first, rest } = &results[0] else {
        return Err("a chain")?;
    };
    assert!(rt;
        matches!(
            first.get(),
            Expr::Lit {
                value: Value::I(1),
                ..
            }
        )
    );
    let links = rest.as_slice();
    assert_eq!(rt; links.len(), 2);
    assert_eq!(rt; links[0].op, Infix::Minus);
    assert_eq!(rt;
        links[0].at,
        Pos {
            line: 1,
            column: 11
        }
    );
    assert!(rt; matches!(links[0].arg, Expr::Chain { .. }));
    assert!(rt;
        matches!(
            links[1].arg,
            Expr::Lit {
                value: Value::I(4),
                ..
            }
        )
    );
    Ok(())
}

#[test]
fn minus_and_a_float_are_one_number(rt: HostRuntime) -> Result<(), Fail> {
    let program = read(rt.alloc(), "let x = -1.5 let y = -1")?;
    let decls = program.decls.as_slice();
    assert_eq!(rt; decls.len(), 2);
    for result in decls[0].results.as_slice() {
        let Expr::Lit {
            value: Value::F(number),
            ..
        } = result
        else {
            return Err("a number")?;
        };
        assert_eq!(rt; *number, Frac::make(-3, 2)?);
    }
    for result in decls[1].results.as_slice() {
        assert!(rt; matches!(result, Expr::Prefix { .. }));
    }
    Ok(())
}

#[test]
fn the_innermost_form_takes_else(rt: HostRuntime) -> Result<(), Fail> {
    let text = "let node f(a) = a where present (a) -> do present (a) -> do done else do done done";
    let program = read(rt.alloc(), text)?;
    for decl in program.decls.as_slice() {
        for eqn in decl.eqs.as_slice() {
            assert!(rt; matches!(eqn, Eqn::Present { other: None, .. }));
        }
    }
    Ok(())
}

#[test]
fn a_token_that_cannot_follow_is_refused(rt: HostRuntime) -> Result<(), Fail> {
    let alloc = rt.alloc();
    assert_eq!(rt; refusal(alloc, "")?, None);
    assert_eq!(rt; refusal(alloc, "let x = 1\nx")?, refused(4, 2, 1));
    assert_eq!(rt;
        refusal(alloc, "let hybrid main() = x where rec der = 1.0")?,
        refused(10, 1, 37)
    );
    assert_eq!(rt;
        refusal(alloc, "let hybrid main() = x where rec der x = 1.0 init ")?,
        refused(14, 1, 50)
    );
    assert_eq!(rt; refusal(alloc, "let f(a,) = a")?, refused(5, 1, 9));
    assert_eq!(rt; refusal(alloc, "let x = 1 < 2 < 3")?, refused(6, 1, 15));
    assert_eq!(rt; refusal(alloc, "let f() = (a, b")?, refused(9, 1, 16));
    assert_eq!(rt;
        refusal(
            alloc,
            "let f() = a where automaton A -> do a = 1 until up(a) then end"
        )?,
        refused(20, 1, 60)
    );
    Ok(())
}

#[test]
fn a_construct_too_many_is_refused(rt: HostRuntime) -> Result<(), Fail> {
    let alloc = rt.alloc();
    let (within, past, prefix) = (
        nested(alloc, 64, "1", 64)?,
        nested(alloc, 65, "1", 65)?,
        nested(alloc, 64, "-", 0)?,
    );
    let (within, past, prefix) = (within.as_str(), past.as_str(), prefix.as_str());
    assert_eq!(rt; refusal(alloc, within)?, None);
    assert_eq!(rt; refusal(alloc, past)?, too_deep(67, 73));
    assert_eq!(rt; refusal(alloc, prefix)?, too_deep(67, 73));
    Ok(())
}
