//! The script of a run: its horizon, how many steps may be made, and what the inputs are set to when.
#![tactic(auto)]

mod answer;
mod assignment;
mod at_line;
mod cut;
mod fault;
mod item;
mod line;
mod literal;
mod number;
mod parsed;
mod reading;
mod table;
pub mod worked;

pub use answer::ScriptAnswer;
pub use reading::read_script;
pub use zl_value::{Input, Script, ScriptLine, Set, Text};
