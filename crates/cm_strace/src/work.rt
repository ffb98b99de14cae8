// A session that goes on: what is known, the held lines, and how many lines came (model_strace/specs, Rest). All lines
// are read in place. Before a line that bears a child with held lines a savepoint of what is known is set, to which it
// is rolled back where memory runs out; the held lines are read where they stand and go out at the end.
ghost use Rattle.std.specs.Prelude.{◌≡◌, [], ◌+◌, ◌<◌, ◌≤◌, ◌^◌};
ghost use Rattle.cm_base.specs.Limits.{greatest_number};
ghost use Rattle.cm_base.specs.Outcome.{OrNoMemory, UnchangedOnErr};
ghost use Rattle.cm_strace.specs.Given.{Gave};
ghost use Rattle.cm_strace.specs.Works.{concluded, uses};
ghost use Rattle.cm_declared.specs.World.{world_of};
ghost use Rattle.model_strace.specs.After.{preceded};
ghost use Rattle.model_strace.specs.Rest.{fed, first_work, held_fed, read_fed};

use crate::acts::conclude;
use crate::births::read_on;
use crate::body::read_deed;
use crate::deed::{Deed, Origin};
use crate::line::{Line, has_line, remove_taken};
use crate::stage::{Stage, Stop};
use crate::waiting::Waiting;
use cm_base::{Limited, LineFault, NoMemory, Pid};
use cm_declared::{Placed, World};
use cm_strace_parts::Parts;
use cm_strace_text::{PidLine, read_row};
use std::alloc::Global;
use std::marker::Model;

/// What is known, the held lines in their order, and how many lines came.
#[derive(Debug, Drop)]
pub(crate) struct Work {
    pub(crate) parts: Parts,
    pub(crate) held: Vec<Line>,
    count: u64,
}

impl Model for Work {
    ghost use Rattle.std.specs.Prelude.{◌≡◌, None};
    ghost use Rattle.model_strace.specs.Rest as model;

    ghost Value = { model.Work };

    ghost view = { λ t. record { parts = t.parts.known; held = t.held.items; count = t.count } };

    ghost invariant = { λ t. t.parts.saved ≡ None };
}

impl Work {
    /// The session of a world before any line. It fails only where memory runs out.
    pub(crate) fn first(alloc: Global, w: &World) -> Result<Work, NoMemory>
        ensures { OrNoMemory result (λ t. t ≡ first_work (world_of w.now)) }
    {
        let parts = Parts::first(alloc, w)?;
        Ok(Work {
            parts,
            held: Vec::new(alloc),
            count: 0,
        })
    }

    /// How many lines came.
    pub(crate) fn count(&self) -> u64
        ensures { result ≡ self.now.count }
    {
        self.count
    }

    /// How many user namespaces there are, and one for each held line, which may make one.
    pub(crate) fn uses(&self) -> u32
        requires { uses self.now ≤ greatest_number }
        ensures { result ≡ uses self.now }
    {
        self.parts.spaces() + self.held.len() as u32
    }

    /// A line comes: whether the session goes on. It fails only where memory runs out, and then leaves the session as
    /// it was.
    pub(crate) fn feed(
        &mut self,
        alloc: Global,
        w: &World,
        line: &[u8],
        events: &mut Vec<Placed>,
    ) -> Result<Stage, NoMemory>
        requires room { uses self.old < greatest_number }
        requires few { self.old.count < 2 ^ 63 }
        ensures fed { OrNoMemory result (λ stage. Gave stage events.new.items self.new
            (preceded events.old.items (fed (world_of w.now) line.now self.old))) }
        ensures unchanged { UnchangedOnErr result self.new self.old }
        ensures uses { uses self.new ≤ uses self.old + 1 }
        ensures counted { OrNoMemory result (λ _. self.new.count ≡ self.old.count + 1) }
    {
        match read_row(line) {
            PidLine::Blank => {
                self.count += 1;
                Ok(Stage::Going)
            }
            PidLine::NoPid => {
                self.count += 1;
                Ok(Stage::Stopped(Stop::Fault(self.count, LineFault::Pid)))
            }
            PidLine::Of(pid, body) => if self.parts.is_known(pid) {
                self.read(alloc, w, pid, body, events)
            } else {
                self.hold(alloc, pid, body)
            },
        }
    }

    // The line is held, unless the held ones exceed their limit then.
    fn hold(&mut self, alloc: Global, pid: Pid, body: &[u8]) -> Result<Stage, NoMemory>
        requires { self.old.count < 2 ^ 63 }
        ensures held { OrNoMemory result (λ stage. Gave stage [] self.new
            (held_fed (record { number = self.old.count + 1; pid = pid; body = body.now })
            (record self.old { count = self.old.count + 1 }))) }
        ensures unchanged { UnchangedOnErr result self.new self.old }
        ensures uses { uses self.new ≤ uses self.old + 1 }
        ensures counted { OrNoMemory result (λ _. self.new.count ≡ self.old.count + 1) }
    {
        if self.held.len() as u64 >= Limited::Held.number() {
            self.count += 1;
            return Ok(Stage::Stopped(Stop::Limit(Limited::Held)));
        }
        let number = self.count + 1;
        let l = Line::new(alloc, number, pid, body)?;
        self.held.push(l)?;
        self.count = number;
        Ok(Stage::Going)
    }

    // The line is read, and after it the held lines of those that it gave birth to. Of most lines nothing is left to be
    // done; the deed of one that no held line waits for is done in place.
    fn read(
        &mut self,
        alloc: Global,
        w: &World,
        pid: Pid,
        body: &[u8],
        events: &mut Vec<Placed>,
    ) -> Result<Stage, NoMemory>
        requires room { uses self.old < greatest_number }
        requires few { self.old.count < 2 ^ 63 }
        ensures read { OrNoMemory result (λ stage. Gave stage events.new.items self.new (preceded events.old.items
            (read_fed (world_of w.now) (record { number = self.old.count + 1; pid = pid; body = body.now })
            (record self.old { count = self.old.count + 1 })))) }
        ensures unchanged { UnchangedOnErr result self.new self.old }
        ensures uses { uses self.new ≤ uses self.old + 1 }
        ensures counted { OrNoMemory result (λ _. self.new.count ≡ self.old.count + 1) }
    {
        let (deed, resumed) = read_deed(alloc, w, &mut self.parts, pid, body)?;
        let line = self.count + 1;
        let origin = Origin { line, pid, resumed };
        match &deed {
            Deed::Quiet if !resumed => {
                self.count = line;
                Ok(Stage::Going)
            }
            Deed::Bears(birth) if has_line(&self.held, birth.child) => {
                self.read_birth(alloc, w, origin, deed, events)
            }
            _ => {
                let stage = conclude(alloc, &mut self.parts, origin, deed, events)?;
                self.count = line;
                Ok(stage)
            }
        }
    }

    // The deed of a line is done, and after it the held lines of a child are read where they stand; those that were
    // read go out at the end, when nothing fails any more. Where memory runs out, what is known is rolled back.
    fn read_birth(
        &mut self,
        alloc: Global,
        w: &World,
        origin: Origin,
        deed: Deed,
        events: &mut Vec<Placed>,
    ) -> Result<Stage, NoMemory>
        requires room { uses self.old < greatest_number }
        requires few { self.old.count < 2 ^ 63 }
        requires line { origin.line ≡ self.old.count + 1 }
        ensures done { OrNoMemory result (λ stage. Gave stage events.new.items self.new (preceded events.old.items
            (concluded (world_of w.now) origin deed (record self.old { count = self.old.count + 1 })))) }
        ensures unchanged { UnchangedOnErr result self.new self.old }
        ensures uses { uses self.new ≤ uses self.old + 1 }
        ensures counted { OrNoMemory result (λ _. self.new.count ≡ self.old.count + 1) }
    {
        let number = origin.line;
        let mut waiting = Waiting::new(alloc, &self.held)?;
        self.parts.set_savepoint();
        let read = read_on(
            alloc,
            w,
            &mut self.parts,
            &mut waiting,
            origin,
            deed,
            events,
        );
        match read {
            Ok(stage) => {
                self.parts.release();
                let taken = waiting.into_taken();
                remove_taken(&mut self.held, &taken);
                self.count = number;
                Ok(stage)
            }
            Err(out) => {
                self.parts.roll_back();
                Err(out)
            }
        }
    }
}
