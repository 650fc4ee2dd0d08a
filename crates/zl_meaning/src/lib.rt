//! The flat form of a program, and the meaning of its runs in superdense time, as definitions.
#![tactic(auto)]

mod block;
mod flat;
mod grades;
pub mod laws;
mod numbers;
mod occurrence;
mod place;
mod ranks;
pub mod worked;

pub use block::{Auto, AutoMove, Block, BlockKind, Choice};
pub use flat::Flat;
pub use grades::Grades;
pub use numbers::narrow;
pub use occurrence::{Form, Occ, SiteInfo};
pub use place::{Definer, DerArm, PlaceInfo};
pub use ranks::Ranks;
