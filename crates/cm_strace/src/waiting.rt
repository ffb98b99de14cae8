// Held lines that are taken one after another where they stand.
ghost use Rattle.std.specs.Prelude.{◌≡◌, [], ◌++◌, ◌+◌, slice_get, drop, if◌then◌else◌, IfSome, None, option_map, length};
ghost use Rattle.cm_base.specs.Outcome.{OrNoMemory};
ghost use Rattle.cm_strace.specs.Given.{born_is, next_is};
ghost use Rattle.cm_strace.specs.Taken.{untaken};
ghost use Rattle.cm_strace.specs.Queues.{first_line, without_taken};
ghost use Rattle.model_strace.specs.Lines.{next_line};
ghost use Rattle.model_strace.specs.Parts.{is_known};

use crate::agenda::Agenda;
use crate::line::{Line, next_place};
use cm_base::{NoMemory, Pid};
use cm_strace_parts::Parts;
use std::alloc::Global;
use std::marker::Model;

/// Held lines, a flag for each whether it was taken, and the pids whose lines come next.
#[derive(Debug, Drop)]
pub(crate) struct Waiting<'a> {
    lines: &'a [Line],
    taken: Vec<bool>,
    agenda: Agenda,
}

impl<'a> Model for Waiting<'a> {
    ghost use Rattle.std.specs.Prelude.{map};
    ghost use Rattle.cm_strace.specs.Taken.{untaken};
    ghost use Rattle.cm_strace.specs.Queues.{Queue, Keeps};

    ghost Value = { Queue };

    ghost view = { λ t. record {
      all = t.lines.now;
      left = untaken t.lines.now t.taken.items;
      pids = map (λ due. due.pid) t.agenda;
    } };

    ghost invariant = { λ t. Keeps t.lines.now t.taken.items t.agenda };
}

impl<'a> Waiting<'a> {
    /// All of these lines are left. It fails only where memory runs out.
    pub(crate) fn new(alloc: Global, lines: &'a [Line]) -> Result<Waiting<'a>, NoMemory>
        ensures { OrNoMemory result (λ t. t ≡ record { all = lines.now; left = lines.now; pids = [] }) }
    {
        let taken = vec![in alloc; false; lines.len()]?;
        Ok(Waiting {
            lines,
            taken,
            agenda: Agenda::new(alloc),
        })
    }

    /// The lines of a child that was born come before all others. It fails only where memory runs out.
    pub(crate) fn put(&mut self, born: Option<Pid>) -> Result<(), NoMemory>
        ensures { OrNoMemory result (λ _. self.new ≡ record self.old { pids = born_is born ++ self.old.pids }) }
    {
        self.agenda.put(born)
    }

    /// The next line of these pids is taken.
    pub(crate) fn take_next(&mut self, parts: &Parts) -> Option<&'a Line>
        ensures next { next_is (option_map (λ l. l.now) result) self.new.pids
            ≡ next_line parts.now.known self.old.left self.old.pids }
        ensures left { self.new.left ≡ (without_taken (option_map (λ l. l.now) result) self.old).left }
        ensures all { self.new.all ≡ self.old.all }
        ensures fewer { IfSome result (λ _. length self.new.left + 1 ≡ length self.old.left) }
    {
        while let Some(pid) = self.first() {
            match self.take_of(parts, pid) {
                Some(l) => return Some(l),
                None => self.drop_first(),
            }
        }
        None
    }

    // The first pid.
    fn first(&self) -> Option<Pid>
        ensures { result ≡ slice_get self.now.pids 0 }
    {
        let due = self.agenda.first()?;
        Some(due.pid)
    }

    // The first pid goes.
    fn drop_first(&mut self)
        ensures { self.new ≡ record self.old { pids = drop 1 self.old.pids } }
    {
        self.agenda.drop_first();
    }

    // The first line of the first pid is taken, where this pid is known.
    fn take_of(&mut self, parts: &Parts, pid: Pid) -> Option<&'a Line>
        ensures line { option_map (λ l. l.now) result
            ≡ (if is_known pid parts.now.known then first_line self.old.pids self.old.left else None) }
        ensures rest { self.new ≡ without_taken (option_map (λ l. l.now) result) self.old }
        ensures fewer { IfSome result (λ _. length self.new.left + 1 ≡ length self.old.left) }
    {
        if parts.is_known(pid) {
            self.take_first()
        } else {
            None
        }
    }

    // The first line of the first pid is taken.
    fn take_first(&mut self) -> Option<&'a Line>
        ensures line { option_map (λ l. l.now) result ≡ first_line self.old.pids self.old.left }
        ensures rest { self.new ≡ without_taken (option_map (λ l. l.now) result) self.old }
        ensures fewer { IfSome result (λ _. length self.new.left + 1 ≡ length self.old.left) }
    {
        let due = self.agenda.first()?;
        let at = next_place(self.lines, &self.taken, due.pid, due.from)?;
        self.taken[at] = true;
        self.agenda.go_on(at + 1);
        Some(&self.lines[at])
    }

    /// Which of the lines were taken.
    pub(crate) fn into_taken(self) -> Vec<bool>
        ensures flags { length result.items ≡ length self.entry.all }
        ensures left { untaken self.entry.all result.items ≡ self.entry.left }
    {
        let Waiting {
            lines: _,
            taken,
            agenda: _,
        } = self;
        taken
    }
}
