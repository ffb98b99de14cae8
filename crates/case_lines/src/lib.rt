//! What the programs of cases have in common. A text of cases is taken line by line, and each answer is told after its
//! line (`Cases`, `tell_cases`, `Told`). Lines write texts with escapes (`bytes_of`), numbers, pids and rights (`number`,
//! `pid`, `pids`, `right`) and sets of ids (`ids`), and answers words, values and ranges of ids (`word`, `named`, `ranges`).
//! `Stop` is why a line isn't done.
#![tactic(auto)]

mod escapes;
mod lines;
mod sets;
mod stop;
mod told;
mod values;

pub use escapes::bytes_of;
pub use lines::{Cases, tell_cases};
pub use sets::{ids, interval, ranges};
pub use stop::Stop;
pub use told::Told;
pub use values::{named, number, pid, pids, right, word};
