//! The reader of a world: the text that declares what stands before a log begins. It is TOML; `read_world` makes a
//! `World` of it (cm_declared), or answers why it can't (`WorldError`). Its tables are read one after another, each row by
//! row up to its first refusal. What a text may say is in model_text/specs (WorldText, SpaceText, MountText, FileText,
//! ProcessText, FilterText).
#![tactic(auto)]

mod error;
mod files;
mod filter;
mod laws;
mod mounts;
mod processes;
mod reading;
mod spaces;
mod tables;

pub use cm_declared::{LogForm, Names, World};
pub use error::WorldError;
pub use laws::read_worlds_keep;
pub use reading::read_world;

#[cfg(test)]
mod tests;
