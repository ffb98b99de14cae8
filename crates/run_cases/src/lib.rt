//! Tests of the program beside its worked cases, which stand in report_cases: what no text of cases can hold, as reads and
//! writes that fail, texts as long as the limits and bytes that don't show. The crate has tests alone.
#![tactic(auto)]

#[cfg(test)]
mod case;
#[cfg(test)]
mod drill;
#[cfg(test)]
mod judged;
#[cfg(test)]
mod limits;
#[cfg(test)]
mod lines;
#[cfg(test)]
mod outside;
#[cfg(test)]
mod pieces;
#[cfg(test)]
mod spaces;
#[cfg(test)]
mod strace;
#[cfg(test)]
mod words;
#[cfg(test)]
mod worlds;
