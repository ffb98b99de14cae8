//! The drill: n events that are made from the number n, on one machine, and what is told of them (`drill`); or the events as
//! the lines of a script log (`drill_log`). Which events they are is said in model_drill/specs. A large valid log, and a
//! measure of speed, come of one number.
#![tactic(auto)]

mod calls;
mod draws;
mod generator;
mod start;
mod telling;

pub use telling::{Drilled, drill, drill_log};
