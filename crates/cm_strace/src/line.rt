// Lines that are held: those of pids that aren't known yet, in the order in which they came.
ghost use Rattle.std.specs.Prelude.{◌≡◌, ◌<◌, ◌≤◌, ◌+◌, true, false, find, length, slice_get, slice_set};
ghost use Rattle.std.specs.Prelude.{IfSome, IfNone, None};
ghost use Rattle.std.specs.List.{list_any};
ghost use Rattle.cm_base.specs.Limits.{greatest_number};
ghost use Rattle.cm_base.specs.Outcome.{OrNoMemory};
ghost use Rattle.cm_strace.specs.Given.{Gave, read_is};
ghost use Rattle.cm_strace.specs.Taken.{NextFlag, untaken, waits_before};
ghost use Rattle.cm_declared.specs.World.{world_of};
ghost use Rattle.model_strace.specs.After.{preceded};
ghost use Rattle.model_strace.specs.Lines.{is_line_of, read_line};
ghost use Rattle.model_strace.specs.Rest.{without_first};

use crate::acts::conclude;
use crate::body::read_deed;
use crate::deed::Origin;
use crate::stage::Stage;
use cm_base::{NoMemory, Pid};
use cm_declared::{Placed, World};
use cm_strace_parts::Parts;
use std::alloc::Global;
use std::marker::Model;

/// A line: its number in the log, its pid and its body.
#[derive(Debug, Drop)]
pub(crate) struct Line {
    number: u64,
    pid: Pid,
    body: Vec<u8>,
}

impl Model for Line {
    ghost use Rattle.model_strace.specs.Lines as model;

    ghost Value = { model.Line };

    ghost view = { λ l. record { number = l.number; pid = l.pid; body = l.body.items } };
}

impl Line {
    // The line of that number. It fails only where memory runs out.
    pub(crate) fn new(alloc: Global, number: u64, pid: Pid, body: &[u8]) -> Result<Line, NoMemory>
        ensures { OrNoMemory result (λ l. l ≡ record { number = number; pid = pid; body = body.now }) }
    {
        let body = Vec::from_slice(alloc, body)?;
        Ok(Line { number, pid, body })
    }

    // The line is one of that pid.
    fn is_of(&self, pid: Pid) -> bool
        ensures { result ≡ is_line_of pid self.now }
    {
        self.pid == pid
    }

    // The line is read: whether the reading goes on, and the child of a birth. It fails only where memory runs out.
    pub(crate) fn read(
        &self,
        alloc: Global,
        w: &World,
        parts: &mut Parts,
        events: &mut Vec<Placed>,
    ) -> Result<(Stage, Option<Pid>), NoMemory>
        requires { parts.old.known.spaces < greatest_number }
        ensures given { OrNoMemory result (λ read. Gave read.0 events.new.items (read_is read.1 parts.new.known)
            (preceded events.old.items (read_line (world_of w.now) self.now parts.old.known))) }
        ensures saved { parts.new.saved ≡ parts.old.saved }
        ensures spaces { OrNoMemory result (λ _. parts.new.known.spaces ≤ parts.old.known.spaces + 1) }
    {
        let (deed, resumed) = read_deed(alloc, w, parts, self.pid, &self.body)?;
        let origin = Origin {
            line: self.number,
            pid: self.pid,
            resumed,
        };
        let born = deed.child();
        let stage = conclude(alloc, parts, origin, deed, events)?;
        Ok((stage, born))
    }
}

// A line of that pid is held.
pub(crate) fn has_line(list: &[Line], pid: Pid) -> bool
    ensures { result ≡ list_any (is_line_of pid) list.now }
{
    list.iter().any(|l| l.is_of(pid))
}

// The place of the first line of a pid that wasn't taken, where none of these stands before `from`.
pub(crate) fn next_place(lines: &[Line], taken: &[bool], pid: Pid, from: usize) -> Option<usize>
    requires flags { length taken.now ≡ length lines.now }
    requires none { waits_before pid from lines.now taken.now ≡ false }
    ensures within { IfSome result (λ at. at < length lines.now) }
    ensures line { IfSome result (λ at. slice_get lines.now at
        ≡ find (is_line_of pid) (untaken lines.now taken.now)) }
    ensures rest { IfSome result (λ at. untaken lines.now (slice_set taken.now at true)
        ≡ without_first pid (untaken lines.now taken.now)) }
    ensures past { IfSome result (λ at. waits_before pid (at + 1) lines.now (slice_set taken.now at true)
        ≡ false) }
    ensures none { IfNone result (find (is_line_of pid) (untaken lines.now taken.now) ≡ None) }
{
    for at in from..lines.len() {
        if lines[at].is_of(pid) && !taken[at] {
            return Some(at);
        }
    }
    None
}

// The lines that were taken go out, the others stay in their order.
pub(crate) fn remove_taken(lines: &mut Vec<Line>, taken: &[bool])
    requires flags { length taken.now ≡ length lines.old.items }
    ensures { lines.new.items ≡ untaken lines.old.items taken.now }
{
    let mut flags = taken.iter();
    lines.retain(
        |_line: &Line| -> bool
            ensures { NextFlag flags.entry.rest.now result flags.exit.rest.now }
        {
            match flags.next() {
                Some(taken) => !*taken,
                None => true,
            }
        },
    );
}
