use sqlite_items::{Boxed, Items};
use std::test::Fail;
use zl_ast::{Expr, Infix, Link, Prefix, Scopes, Typing, VarClass, VarInfo};
use zl_value::{Pos, Sequence, Ty, Value};

#[test]
fn variables_and_types(rt: HostRuntime) -> Result<(), Fail> {
    let alloc = rt.alloc();
    let at = Pos { line: 1, column: 5 };
    let first = VarInfo {
        name: 3,
        at,
        class: VarClass::Param,
    };
    let second = VarInfo {
        name: 4,
        at,
        class: VarClass::Top,
    };
    let mut variables = Vec::new(alloc);
    variables.push(first)?;
    variables.push(second)?;
    let mut decls = Vec::new(alloc);
    decls.push(Sequence::from_vec(variables))?;
    let scopes = Scopes {
        decls: Sequence::from_vec(decls),
    };
    assert_eq!(rt; scopes.vars(0).len(), 2);
    assert_eq!(rt; scopes.vars(0)[1], second);
    let mut types = Vec::new(alloc);
    types.push(Ty::Bool)?;
    types.push(Ty::Float)?;
    let mut decls = Vec::new(alloc);
    decls.push(Sequence::from_vec(types))?;
    let typing = Typing {
        decls: Sequence::from_vec(decls),
    };
    assert_eq!(rt; typing.ty(0, 1), Ty::Float);
    Ok(())
}

/// `- 1 + 2`, built and let go
#[test]
fn a_tree(rt: HostRuntime) -> Result<(), Fail> {
    let alloc = rt.alloc();
    let at = Pos { line: 1, column: 1 };
    let one = Expr::Lit {
        value: Value::I(1),
        at,
    };
    let first = Expr::Prefix {
        op: Prefix::Minus,
        at,
        arg: Boxed::new(alloc, one)?,
    };
    let arg = Expr::Lit {
        value: Value::I(2),
        at,
    };
    let mut rest = Items::new(alloc);
    rest.push(Link {
        op: Infix::Plus,
        at,
        arg,
    })?;
    let sum = Expr::Chain {
        first: Boxed::new(alloc, first)?,
        rest,
    };
    let links = match &sum {
        Expr::Chain { rest, .. } => rest.len(),
        _ => 0,
    };
    assert_eq!(rt; links, 1);
    Ok(())
}
