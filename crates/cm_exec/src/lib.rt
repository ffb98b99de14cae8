//! Running a program (execve(2), capabilities(7)): who may run a file, and what becomes of the caller's ids and sets. Nothing
//! here takes memory, and a refused call leaves the credential as it was.
#![tactic(auto)]

mod counts;
mod execve;
mod ids;
mod permission;
mod program;
mod sets;

pub use execve::exec;
pub use permission::may_exec;
