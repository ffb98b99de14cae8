// The beginnings of calls that aren't finished, by ascending pids of their processes.
ghost use Rattle.std.specs.Prelude.{◌≡◌};
ghost use Rattle.cm_base.specs.Outcome.{OrNoMemory};

use cm_base::{NoMemory, Pid};
use cm_ordered::{Copied, Numbered};
use std::alloc::Global;
use std::marker::Model;
use std::rc::Rc;

/// The beginning of a call of a process that isn't finished. A copy shares its text.
#[derive(Debug, Drop)]
pub struct Kept {
    pid: Pid,
    text: Rc<Vec<u8>>,
}

impl Model for Kept {
    ghost use Rattle.model_strace.specs.Parts as model;

    ghost Value = { model.Kept };

    ghost view = { λ kept. record { pid = kept.pid; text = kept.text.value.items } };
}

impl Kept {
    // The beginning of a call of that process. It fails only where memory runs out.
    pub(crate) fn new(alloc: Global, pid: Pid, text: &[u8]) -> Result<Kept, NoMemory>
        ensures { OrNoMemory result (λ kept. kept ≡ record { pid = pid; text = text.now }) }
    {
        let bytes = Vec::from_slice(alloc, text)?;
        let text = Rc::new(alloc, bytes)?;
        Ok(Kept { pid, text })
    }

    // Its text.
    pub(crate) fn text(&self) -> &[u8]
        ensures { result.now ≡ self.now.text }
    {
        &self.text
    }
}

impl Numbered for Kept {
    ghost number = { λ kept. kept.pid };

    fn number(&self) -> u64 {
        u64::from(self.pid.number())
    }
}

impl Copied for Kept {
    fn copy(&self) -> Result<Kept, NoMemory> {
        let text = self.text.clone()?;
        Ok(Kept {
            pid: self.pid,
            text,
        })
    }
}
