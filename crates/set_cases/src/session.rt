// What the lines of cases ask of sets.
use crate::sets::set_answered;
use case_lines::{Cases, Stop, Told};
use std::alloc::Global;

// Each line asks anew: nothing is kept from line to line.
#[derive(Drop)]
pub(crate) struct Sets;

impl Cases for Sets {
    fn take(&mut self, alloc: Global, line: &str, told: &mut Told) -> Result<(), Stop> {
        let answer = set_answered(alloc, line)?;
        told.answer(line, answer.as_bytes())
    }
}
