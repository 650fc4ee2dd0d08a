//! The operators of expressions, by the types of their operands.
ghost use Rattle.std.specs.Prelude.{◌≡◌};
ghost use Rattle.zl_value.specs.OperatorTypes.{type_of};
ghost use Rattle.zl_flat.specs.Operators as spec;

use crate::texts::has_text;
use zl_ast::{Infix, Prefix};
use zl_lexer::Names;
use zl_value::{Op, Ty, Value};

pub(crate) fn value_type(value: &Value) -> Ty
    ensures { result ≡ spec.value_type value.now }
{
    match value {
        Value::B(_) => Ty::Bool,
        Value::I(_) => Ty::Int,
        Value::F(_) => Ty::Float,
    }
}

fn by_type(ty: Ty, of_bool: Op, of_int: Op, of_float: Op) -> Op
    ensures { result ≡ spec.by_type ty of_bool of_int of_float }
{
    match ty {
        Ty::Bool => of_bool,
        Ty::Int => of_int,
        Ty::Float => of_float,
        Ty::Zero => of_bool,
    }
}

/// The operator between two operands, of which the left one has this type.
pub(crate) fn infix_form(op: Infix, ty: Ty) -> Op
    ensures { result ≡ spec.infix_form op ty }
{
    match op {
        Infix::Or => Op::Or,
        Infix::And => Op::And,
        Infix::Equal => by_type(ty, Op::EqBool, Op::EqInt, Op::EqFloat),
        Infix::Unequal => by_type(ty, Op::NeBool, Op::NeInt, Op::NeFloat),
        Infix::Less => by_type(ty, Op::LtBool, Op::LtInt, Op::LtFloat),
        Infix::AtMost => by_type(ty, Op::LeBool, Op::LeInt, Op::LeFloat),
        Infix::Greater => by_type(ty, Op::GtBool, Op::GtInt, Op::GtFloat),
        Infix::AtLeast => by_type(ty, Op::GeBool, Op::GeInt, Op::GeFloat),
        Infix::Plus => Op::AddInt,
        Infix::Minus => Op::SubInt,
        Infix::PlusDot => Op::AddFloat,
        Infix::MinusDot => Op::SubFloat,
        Infix::Star => Op::MulInt,
        Infix::Slash => Op::DivInt,
        Infix::Mod => Op::ModInt,
        Infix::StarDot => Op::MulFloat,
        Infix::SlashDot => Op::DivFloat,
    }
}

/// The type of an operator before an operand of this type.
pub(crate) fn prefix_type(op: Prefix, ty: Ty) -> Ty
    ensures { result ≡ spec.prefix_type op ty }
{
    match op {
        Prefix::Minus => Ty::Int,
        Prefix::MinusDot => Ty::Float,
        Prefix::Not => Ty::Bool,
        Prefix::Pre => ty,
    }
}

/// The type of what the operator of a chain or of a call gives.
pub(crate) fn result_type(op: Op) -> Ty
    ensures { result ≡ (type_of op).result }
{
    match op {
        Op::AddInt => Ty::Int,
        Op::SubInt => Ty::Int,
        Op::MulInt => Ty::Int,
        Op::DivInt => Ty::Int,
        Op::ModInt => Ty::Int,
        Op::NegInt => Ty::Int,
        Op::AddFloat => Ty::Float,
        Op::SubFloat => Ty::Float,
        Op::MulFloat => Ty::Float,
        Op::DivFloat => Ty::Float,
        Op::NegFloat => Ty::Float,
        Op::FloatOfInt => Ty::Float,
        Op::Truncate => Ty::Int,
        _ => Ty::Bool,
    }
}

/// One of the two functions that every program has, which are operators.
pub(crate) fn built_in_op(names: &Names, id: u32) -> Option<Op>
    ensures { result ≡ spec.built_in_op names.now id }
{
    if has_text(names, id, "float_of_int") {
        Some(Op::FloatOfInt)
    } else if has_text(names, id, "truncate") {
        Some(Op::Truncate)
    } else {
        None
    }
}
