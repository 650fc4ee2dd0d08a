//! Where files are read and bytes are written: two traits, a fake of each in memory, and the adapters
//! over real files and standard output.
#![tactic(auto)]

mod error;
mod failures;
mod file_shelf;
mod mem_shelf;
mod mem_sink;
mod shelf;
mod sink;
mod std_sink;

pub use error::{Failed, Memory, ReadAnswer};
pub use file_shelf::FileShelf;
pub use mem_shelf::MemShelf;
pub use mem_sink::MemSink;
pub use shelf::Shelf;
pub use sink::Sink;
pub use std_sink::StdSink;
