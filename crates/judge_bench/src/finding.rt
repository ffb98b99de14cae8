// The least bounds, found as often as is asked, so that the time of one of the two ways can be taken.
ghost use Rattle.std.specs.Prelude.{◌<◌, ◌^◌, length};

use crate::setup::Setup;
use cm_base::NoMemory;
use cm_box::Bounds;
use cm_maker::{least, least_by_rounds};
use std::alloc::Global;

// How they are found.
#[derive(Clone, Copy, Debug)]
pub(crate) enum Way {
    ByChangedRows,
    ByRounds,
}

impl Way {
    // The way of that word.
    pub(crate) fn of_word(word: &str) -> Option<Way> {
        match word {
            "least" => Some(Way::ByChangedRows),
            "rounds" => Some(Way::ByRounds),
            _ => None,
        }
    }
}

// The least bounds, found once and so many times more. It fails only where memory runs out.
pub(crate) fn found(alloc: Global, s: &Setup, way: Way, more: u32) -> Result<Bounds, NoMemory>
    requires { length s.now.m.state.spaces < 2 ^ 31 }
{
    for _ in 0..more {
        once(alloc, s, way)?;
    }
    once(alloc, s, way)
}

// Found once.
fn once(alloc: Global, s: &Setup, way: Way) -> Result<Bounds, NoMemory>
    requires { length s.now.m.state.spaces < 2 ^ 31 }
{
    match way {
        Way::ByChangedRows => least(alloc, &s.m.state, &s.w.files, s.w.filter, &s.members),
        Way::ByRounds => least_by_rounds(alloc, &s.m.state, &s.w.files, s.w.filter, &s.members),
    }
}
