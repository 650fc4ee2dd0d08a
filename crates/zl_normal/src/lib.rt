//! The normal form of a flat form: which kernel stands for it, as definitions, what is proved of them, and the pass.
#![tactic(auto)]

mod guards;
mod joined;
mod key;
mod keys;
mod known;
mod laid;
pub mod laws;
pub mod made_flows;
mod made_kernel;
mod made_place;
mod made_wire;
mod main_block;
mod normal;
mod numbering;
mod numbers;
mod role;
mod roles;
mod roots;
mod slot;
mod tables;
mod wire_ranks;
mod wiring;
pub mod worked;

pub use main_block::has_main_alone;
pub use normal::{Normal, normalise};
