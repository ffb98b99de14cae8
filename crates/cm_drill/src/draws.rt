// The numbers that are drawn: those of a linear congruential generator modulo 2^64, of which each draw gives the upper half.
ghost use Rattle.std.specs.Prelude.{◌≡◌, ◌<◌, ◌%◌, ◌^◌};
ghost use Rattle.model_drill.specs.Draws.{drawn, next_number};
ghost use Rattle.model_drill.specs.Rows.{id_drawn};

use cm_base::MINUS_ONE;
use std::marker::Model;

/// The number that is drawn on from.
#[derive(Clone, Copy, Debug)]
pub(crate) struct Draws {
    number: u64,
}

impl Model for Draws {
    ghost use Rattle.std.specs.Prelude.{ℕ};

    ghost Value = { ℕ };

    ghost view = { λ d. d.number };

    ghost inverse = { λ n. record { number = n } };
}

impl Draws {
    /// To draw on from this number.
    pub(crate) fn from(number: u32) -> Draws
        ensures { result ≡ number }
    {
        Draws {
            number: number as u64,
        }
    }

    /// The next draw.
    #[tactic(auto, unfolding(model_drill::specs::Draws::next_number, model_drill::specs::Draws::drawn))]
    pub(crate) fn draw(&mut self) -> u32
        ensures value { result ≡ drawn self.old }
        ensures next { self.new ≡ next_number self.old }
    {
        self.number = self
            .number
            .wrapping_mul(6_364_136_223_846_793_005)
            .wrapping_add(1_442_695_040_888_963_407);
        (self.number >> 32) as u32
    }

    /// The next draw as an id: -1, 0, 1000 or 1001.
    pub(crate) fn id(&mut self) -> u32
        ensures value { result ≡ id_drawn (drawn self.old) }
        ensures next { self.new ≡ next_number self.old }
    {
        let draw = self.draw();
        id_of(draw)
    }
}

// The id that a draw stands for.
fn id_of(draw: u32) -> u32
    ensures { result ≡ id_drawn draw }
{
    match draw % 4 {
        0 => MINUS_ONE,
        1 => 0,
        2 => 1000,
        _ => 1001,
    }
}
