//! Numbers as exact fractions in a width of 64 bits, the values of a program, and positions in its text.
#![tactic(auto)]

mod arith;
mod decimal;
mod frac;
mod gcd;
mod int_operators;
pub mod laws;
mod line;
pub mod lowest;
mod op;
mod position;
mod quotients;
mod ratio_text;
mod rule;
mod script;
mod sequence;
mod significand;
mod text;
mod thin;
mod value;
mod value_text;
mod wide;
pub mod worked;

pub use arith::Arith;
pub use decimal::{is_decimal, read_decimal, read_unsigned};
pub use frac::Frac;
pub use int_operators::{IntOp, int_neg, int_op};
pub use line::Line;
pub use op::Op;
pub use position::Pos;
pub use ratio_text::read_ratio;
pub use rule::{Refusal, Rule};
pub use script::{Ending, Input, Mark, Output, Script, ScriptLine, Set};
pub use sequence::Sequence;
pub use text::Text;
pub use thin::Thin;
pub use value::{Fault, Ty, Value};
pub use value_text::{
    LONGEST_VALUE, print_number, print_position, print_value, write_bytes, write_number,
    write_value,
};
pub use wide::Wide;
