//! What the machine keeps and what a log tells, as types. The machine keeps a `State`: its processes (`Procs`, each a
//! `Proc` with its `Cred` and `Groups`) and its user namespaces (`Spaces`, each a `Space`); `FourIds` are the user ids, or
//! the group ids, as they are taken out of a `Cred` and put back. A log tells `Event`s, each a `Call` with what it was
//! given (`Ids`, `Extents`) and its `Res`. An audit asks for a `Right`. What each state keeps is handed out by `see_state`.
//! Contracts see each as the record of the definitions in model_cred.
#![tactic(auto)]

mod call;
mod cred;
mod event;
mod extents;
mod four_ids;
mod groups;
mod ids;
mod made;
mod mapped;
mod proc;
mod procs;
mod right;
mod seeing;
mod space;
mod spaces;
mod state;
mod tree;

pub use call::Call;
pub use cm_base::Res;
pub use cred::Cred;
pub use event::Event;
pub use extents::Extents;
pub use four_ids::FourIds;
pub use groups::Groups;
pub use ids::Ids;
pub use proc::Proc;
pub use procs::Procs;
pub use right::Right;
pub use seeing::see_state;
pub use space::Space;
pub use spaces::Spaces;
pub use state::State;
