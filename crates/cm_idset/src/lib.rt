//! Sets of ids as intervals: `IdSet`, a lawful set, with what an id map makes of it. Contracts see a set as the list of
//! its intervals, and say by `ids_hold` what it holds.
#![tactic(auto)]

mod ascending;
mod common;
mod counting;
mod cover;
mod growing;
mod ids;
mod image;
mod interval;
mod laws;
mod lookup;
mod merge;

pub use ids::IdSet;
pub use interval::Interval;
pub use laws::one_meaning_one_list;
