//! A session of a reader of strace(1), which is fed line by line: what each line gives is the reading of
//! model_strace/specs (Turn, Lines, Rest).
#![tactic(auto)]

mod acts;
mod agenda;
mod births;
mod body;
mod deed;
mod ending;
mod line;
mod opens;
mod stage;
mod told;
mod tracer;
mod waiting;
mod work;
mod writes;

pub use stage::{Stage, Stop};
pub use tracer::Tracer;
