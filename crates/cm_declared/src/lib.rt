//! What a world's text declares, as types: `World`, what stands before a log begins, with the form of the log (`LogForm`)
//! and the names of its user namespaces (`Names`), which lines have too; and what a log of either form tells, an event with
//! the number of its line (`Placed`). Contracts see a `World` as the record of the
//! definitions in model_cred (`world_of`). Its reader is cm_world.
#![tactic(auto)]

mod names;
mod placed;
mod space_token;
mod world;

pub use names::Names;
pub use placed::Placed;
pub use space_token::put_space;
pub use world::{LogForm, World};
