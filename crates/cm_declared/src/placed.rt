// An event with the place where it is told, as a log of any form gives it.
use cm_state::Event;
use std::marker::Model;

/// An event, and the number of the line that tells it.
#[derive(Debug, Drop)]
pub struct Placed {
    pub line: u64,
    pub event: Event,
}

impl Model for Placed {
    ghost use Rattle.std.specs.Coded.{codes};
    ghost use Rattle.cm_state.specs.CallCode.{coded_call};
    ghost use Rattle.model_text.specs.Reading as reading;

    ghost Value = { reading.Placed };

    ghost coded = { Prim.hlevel (coded_call, codes) };

    ghost view = { λ placed. record { line = placed.line; event = placed.event } };
}
