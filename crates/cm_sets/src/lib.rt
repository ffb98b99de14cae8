//! Sets that are told by what they hold: the trait of lawful sets, whose contract says of each call which items it
//! gives or finds, and two kinds of such sets, of capabilities and of one unit.
#![tactic(auto)]

mod caps;
mod flag;
mod laws;
mod rev_flag;
mod set_like;

pub use caps::CapSet;
pub use flag::Flag;
pub use laws::each_within_the_other;
pub use rev_flag::RevFlag;
pub use set_like::SetLike;

#[cfg(test)]
mod tests;
