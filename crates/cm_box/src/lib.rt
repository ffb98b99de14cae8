//! Bounds of what a family can reach, in code: rows of sets, the least bounds that cover the members now, each closure
//! rule as a step, and the three tests by which a certificate is judged. The tests take no memory. What bounds are, and
//! what they exclude, is defined and proved in `model_box`.
#![tactic(auto)]

mod above;
mod adding;
mod bounds;
mod caps;
mod closedness;
mod covers;
mod joins;
mod maps;
mod names;
mod place;
mod rights;
mod rules;
mod setting;
mod start;

pub use adding::{rule, widened};
pub use bounds::{Bounds, Rows};
pub use closedness::closed;
pub use cm_box_rows::BoxRow;
pub use covers::covers_start;
pub use rights::{meets, meets_by};
pub use rules::{RULES, Rule};
pub use setting::Setting;
pub use start::start_bounds;
