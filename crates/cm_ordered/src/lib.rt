//! Lists of things that have numbers, by ascending numbers, each number once. The calls on a slice or a `Vec` (`place`,
//! `find`, `get`, `insert`, `put`, `remove`) ask that the numbers ascend, and leave them so. A `Tracked` list keeps that
//! itself, and can be rolled back to a savepoint, which takes no memory.
#![tactic(auto)]

mod numbered;
mod ordered;
mod search;
mod tracked;
mod undo;

pub use numbered::Numbered;
pub use ordered::{find, get, insert, is_at, place, put, remove};
pub use tracked::Tracked;
pub use undo::{Copied, Undo};
