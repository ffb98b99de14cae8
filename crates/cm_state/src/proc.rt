// A process, as the machine keeps it: its pid, whom it descends from, where it is, its credentials and its filter.
use crate::Cred;
use cm_base::{NoMemory, Pid, SpaceId};
use cm_filter::Filter;
use cm_ordered::Numbered;
use std::alloc::Global;
use std::marker::Model;

/// A process: its pid; its forebear, the nearest living ancestor by birth, None where none lives (choice); the number
/// of the user namespace that it is in; its credentials, behind a box, so that a list of processes is walked and moved
/// by little.
#[derive(Debug, Drop)]
pub struct Proc {
    pub pid: Pid,
    pub forebear: Option<Pid>,
    pub space: SpaceId,
    pub cred: Box<Cred>,
    /// What the process has excluded by the filters that it installed (seccomp(2)).
    pub filter: Filter,
}

impl Model for Proc {
    ghost use Rattle.std.specs.Prelude.{box_value};
    ghost use Rattle.model_cred.specs.Process.{Process};

    ghost Value = { Process };

    ghost view = { λ p. record { pid = p.pid; forebear = p.forebear; space = p.space.0; cred = box_value p.cred; filter = p.filter } };
}

impl Proc {
    ghost use Rattle.std.specs.Prelude.{◌≡◌};
    ghost use Rattle.cm_base.specs.Outcome.{OrNoMemory};

    /// The same process. It fails only where memory runs out.
    pub fn copy(&self, alloc: Global) -> Result<Proc, NoMemory>
        ensures { OrNoMemory result (λ p. p ≡ self.now) }
    {
        let cred = Box::new(alloc, self.cred.copy(alloc)?)?;
        Ok(Proc {
            pid: self.pid,
            forebear: self.forebear,
            space: self.space,
            cred,
            filter: self.filter,
        })
    }
}

impl Numbered for Proc {
    ghost number = { λ p. p.pid };

    fn number(&self) -> u64 {
        u64::from(self.pid.number())
    }
}
