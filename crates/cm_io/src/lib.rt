//! How the program meets the outside: files that are read, a sink that is written, and what fails there.
//!
//! `Shelf` and `Sink` say what each call gives, and have counts of faults, so that an error always has its
//! cause; a shelf also counts the reads of names, and the bytes that they gave. `MemShelf` and `MemSink`
//! stand in memory and fail at chosen calls, the devices of `SureShelf` and `SureSink` never fail, and
//! `RealShelf` and `RealSink` are files and a writer of the system. `read_whole` and `write_all` go on until
//! all is read or written; `LineCutter` gives a file line by line, and keeps a piece of it.
#![tactic(auto)]

mod breaks;
mod buffer;
mod counts;
mod cutter;
mod held;
mod memory;
mod names;
mod outside;
mod real;
mod shelf;
mod sink;
mod streams;
mod sure;
mod turns;
mod whole;

pub use counts::Tally;
pub use cutter::{CutError, LineCutter};
pub use memory::{MemShelf, MemSink};
pub use names::are_distinct;
pub use outside::{NoMemory, Outside};
pub use real::{RealShelf, RealSink};
pub use shelf::Shelf;
pub use sink::Sink;
pub use sure::{SureShelf, SureSink};
pub use whole::{WholeError, read_whole, write_all};
