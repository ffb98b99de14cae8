//! Tests of the devices of cm_io, call by call. The crate has tests alone, so that none of them is proved with cm_io anew.
#![tactic(auto)]

#[cfg(test)]
mod cutting;
#[cfg(test)]
mod memory;
#[cfg(test)]
mod real;
#[cfg(test)]
mod shelves;
