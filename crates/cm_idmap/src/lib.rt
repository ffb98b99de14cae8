//! Id maps of user namespaces: lists of extents, which lists are a map, and what a map takes an id to, both ways.
//! Contracts see a map as the list of its extents, in the order in which it was handed in.
#![tactic(auto)]

mod down;
mod extent;
mod fault;
mod kept;
mod looks;
mod map;
mod search;
mod side;
mod sorted;
mod steps;
mod uncounted;

pub use extent::Extent;
pub use fault::BadMap;
pub use looks::Looks;
pub use map::IdMap;
pub use search::{down_counted, up_counted};
pub use sorted::Sorted;
pub use steps::Steps;
