//! What the calls behind the parser say of programs: the first rule that is broken, and where; scopes, types and the form.
use crate::front::{expanded, flat, read};
use std::alloc::Global;
use std::test::Fail;
use zl_ast::{VarClass, VarInfo};
use zl_names::check_names;
use zl_types::check_types;
use zl_value::{Pos, Refusal, Rule, Ty};

/// The refusal of a text that has a tree.
fn refusal(alloc: Global, text: &str) -> Result<Option<Refusal>, Fail> {
    let program = read(alloc, text)?;
    Ok(expanded(alloc, &program).err())
}

fn broken(rule: Rule, column: u32) -> Option<Refusal> {
    let at = Pos { line: 1, column };
    Some(Refusal::Broken { rule, at })
}

#[test]
fn rules_of_names(rt: HostRuntime) -> Result<(), Fail> {
    let alloc = rt.alloc();
    assert_eq!(rt;
        refusal(alloc, "let hybrid main() = x where rec x = y")?,
        broken(Rule::NameUnknown, 37)
    );
    assert_eq!(rt;
        refusal(alloc, "let f(a) = a let f(b) = b")?,
        broken(Rule::NameTwice, 18)
    );
    assert_eq!(rt; refusal(alloc, "")?, broken(Rule::Main, 1));
    assert_eq!(rt;
        refusal(alloc, "let hybrid main() = x where rec x = 0.0")?,
        None
    );
    Ok(())
}

#[test]
fn scopes_and_types(rt: HostRuntime) -> Result<(), Fail> {
    let alloc = rt.alloc();
    let text = "let f(a) = a +. 0.0 let hybrid main() = x where rec x = f(1.0)";
    let program = read(alloc, text)?;
    let scopes = check_names(alloc, &program)?;
    assert_eq!(rt; scopes.decls.len(), 2);
    let x = VarInfo {
        name: 3,
        at: Pos {
            line: 1,
            column: 53,
        },
        class: VarClass::Top,
    };
    assert_eq!(rt; scopes.vars(1), [x].as_slice());
    let typing = check_types(alloc, &program, &scopes)?;
    assert_eq!(rt; typing.decls.len(), 2);
    assert_eq!(rt;
        typing.decls.as_slice()[0].as_slice(),
        [Ty::Float].as_slice()
    );
    Ok(())
}

#[test]
fn rules_of_types(rt: HostRuntime) -> Result<(), Fail> {
    let alloc = rt.alloc();
    assert_eq!(rt;
        refusal(
            alloc,
            "let f(a: int) = a +. 0.0 let hybrid main() = x where rec x = 0.0"
        )?,
        broken(Rule::TypeClash, 19)
    );
    assert_eq!(rt;
        refusal(
            alloc,
            "let f(a) = a let hybrid main() = x where rec x = 0.0"
        )?,
        broken(Rule::TypeOpen, 7)
    );
    Ok(())
}

#[test]
fn rules_of_contexts(rt: HostRuntime) -> Result<(), Fail> {
    let alloc = rt.alloc();
    assert_eq!(rt;
        refusal(
            alloc,
            "let f(a: int) = pre a let hybrid main() = x where rec x = 0.0"
        )?,
        broken(Rule::Kind, 17)
    );
    assert_eq!(rt;
        refusal(alloc, "let hybrid main() = x where rec x = pre x +. 0.0")?,
        broken(Rule::Kind, 37)
    );
    assert_eq!(rt;
        refusal(
            alloc,
            "let node f() = 0.0 let hybrid main() = x where rec x = f()"
        )?,
        broken(Rule::Kind, 56)
    );
    assert_eq!(rt;
        refusal(
            alloc,
            "let hybrid f() = 0.0 let hybrid main() = x where rec x = f()"
        )?,
        None
    );
    Ok(())
}

#[test]
fn rule_of_initialisation(rt: HostRuntime) -> Result<(), Fail> {
    let alloc = rt.alloc();
    assert_eq!(rt;
        refusal(
            alloc,
            "let node f() = x where rec x = pre x + 1 let hybrid main() = x where rec x = 0.0"
        )?,
        broken(Rule::Init, 38)
    );
    assert_eq!(rt;
        refusal(
            alloc,
            "let node f() = x where rec x = 1 -> y and reset y = pre x every (x = 2) let hybrid main() = x where rec x = 0.0"
        )?,
        broken(Rule::Init, 53)
    );
    assert_eq!(rt;
        refusal(alloc, "let hybrid main() = x where rec der x = 1.0")?,
        broken(Rule::Init, 37)
    );
    Ok(())
}

/// In an arm of a hybrid declaration the last value is early, and in one of a node it isn't.
#[test]
fn last_in_an_arm(rt: HostRuntime) -> Result<(), Fail> {
    let alloc = rt.alloc();
    assert_eq!(rt;
        refusal(
            alloc,
            "let hybrid main() = x where rec x = 1.0 and init y = 1.0 and present up(x) -> do y = last x done"
        )?,
        None
    );
    assert_eq!(rt;
        refusal(
            alloc,
            "let node f(c) = x where rec x = 1 and init y = 1 and present (c) -> do y = last x done let hybrid main() = z where rec z = 0.0"
        )?,
        broken(Rule::Init, 76)
    );
    Ok(())
}

#[test]
fn a_constant_is_expanded(rt: HostRuntime) -> Result<(), Fail> {
    let form = flat(
        rt.alloc(),
        "let c = 1 let hybrid main() = x where rec x = c",
    )?;
    // the result, the use of the constant, and the literal of its copy
    assert_eq!(rt; form.occs.len(), 3);
    assert_eq!(rt; form.places.len(), 1);
    Ok(())
}
