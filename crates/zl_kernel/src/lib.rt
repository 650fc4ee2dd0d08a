//! The kernel of a program, wires and memories, and the meaning of its runs, as definitions.
#![tactic(auto)]

mod kernel;
pub mod laws;
mod memory;
mod site;
mod wire;
pub mod worked;

pub use kernel::Kernel;
pub use memory::KMem;
pub use site::KSite;
pub use wire::{Def, Wire};
