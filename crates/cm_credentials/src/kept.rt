// The last credential lines of some processes, and the number of the last line, kept as text: most of what comes next
// is the same.
ghost use Rattle.std.specs.Prelude.{◌≡◌, ◌++◌, ◌<◌, ◌≤◌, ◌∷◌, [], ℕ, List, None, codes, decimal, length};
ghost use Rattle.cm_base.specs.Outcome.{OrNoMemory};
ghost use Rattle.cm_credentials.specs.Kept.{Keeps, KeepsGroups, KeepsLine, KeepsNumber};
ghost use Rattle.cm_filter.specs.Filters.{no_filter};
ghost use Rattle.cm_tokens.specs.Pieces.{Appends};
ghost use Rattle.model_text.specs.Print.{credential_line, groups_text};

use crate::credential_line::{put_credential_line, put_groups};
use crate::short_text::{KeptNumber, KeptPlace};
use crate::shown_parts::{LabelledIds, ShownIds, ShownTail};
use crate::two_shown::TwoShown;
use cm_base::{Kgid, NoMemory, Pid, SpaceId};
use cm_declared::World;
use cm_state::Cred;
use cm_tokens::put;
use std::alloc::Global;

/// How many lines are kept.
const LINES: u32 = 16;

/// A line is kept where it has no more groups than these.
const MOST_KEPT_GROUPS: usize = 40;

/// The last credential lines of some processes, as text in parts, and the number of the last line of the report, each
/// with the values that the text shows. A report has a credential line after each event, and most of it is the same as
/// the last time: what is the same is copied, what differs is written anew. Each line is compared with all that it is
/// to show, so that what is kept needs no tie to the state: whatever process a line was of, the next one is right.
/// Memory is bounded: there are sixteen lines, by the pid's remainder, and a line of more than forty groups isn't kept.
#[derive(Debug, Drop)]
pub struct KeptLines {
    lines: Vec<KeptLine>,
    number: KeptNumber,
}

impl KeptLines {
    /// No line is kept. It fails only where memory runs out.
    pub fn new(alloc: Global) -> Result<KeptLines, NoMemory>
        ensures { OrNoMemory result (λ kept. (names : List (List ℕ)) → Keeps names kept) }
    {
        let mut lines = Vec::new(alloc);
        for _ in 0..LINES {
            lines.push(KeptLine::none(alloc))?;
        }
        Ok(KeptLines {
            lines,
            number: KeptNumber::none(),
        })
    }

    /// The number of a line in decimal, a colon and a space, at the end of a text. Where it is one more than the last
    /// one and doesn't end in 0, one digit of the last one's text is changed. It fails only where memory runs out; what
    /// the text holds then, and what is kept, isn't said.
    #[inline]
    pub fn put_number(&mut self, text: &mut Vec<u8>, number: u64) -> Result<(), NoMemory>
        requires number { KeepsNumber self.old.number }
        ensures text { OrNoMemory result (λ _. Appends text.old.items text.new.items (decimal number ++ codes ": ")) }
        ensures keeps { OrNoMemory result (λ _. (names : List (List ℕ)) → Keeps names self.old → Keeps names self.new) }
    {
        let last = &mut self.number;
        if number % 10 > 0 && last.shown == Some(number - 1) {
            last.shown = Some(number);
            last.text.count(number);
            last.text.put(text)?;
            return Ok(());
        }
        last.write(text, number)
    }

    /// The credential line of a process of that pid in that user namespace, with its LF, at the end of a text: the
    /// bytes that `put_credential_line` writes. It fails only where memory runs out; what the text holds then, and what
    /// is kept, isn't said, so that nothing more can be put.
    #[inline]
    pub fn put(
        &mut self,
        text: &mut Vec<u8>,
        cred: &Cred,
        pid: Pid,
        space: SpaceId,
        w: &World,
    ) -> Result<(), NoMemory>
        requires keeps { Keeps w.now.names self.old }
        ensures text { OrNoMemory result (λ _. Appends text.old.items text.new.items (credential_line w.now.names
            (record { pid = pid; forebear = None; space = space.0; cred = cred.now; filter = no_filter }) ++ 10 ∷ [])) }
        ensures keeps { OrNoMemory result (λ _. Keeps w.now.names self.new) }
    {
        if cred.groups.items().len() > MOST_KEPT_GROUPS {
            return put_credential_line(text, cred, pid, space, w);
        }
        let slot = (pid.number() % LINES) as usize;
        let line = &mut self.lines[slot];
        line.put(text, cred, pid, space, w)
    }
}

/// The credential line of some process, in parts.
#[derive(Debug, Drop)]
pub(crate) struct KeptLine {
    place: KeptPlace,
    user: TwoShown<ShownIds>,
    group: TwoShown<ShownIds>,
    groups: KeptGroups,
    tail: TwoShown<ShownTail>,
}

impl KeptLine {
    /// No part is kept. It takes no memory.
    fn none(alloc: Global) -> KeptLine
        ensures { (names : List (List ℕ)) → KeepsLine names result }
    {
        KeptLine {
            place: KeptPlace::none(),
            user: TwoShown::of(ShownIds::none(), ShownIds::none()),
            group: TwoShown::of(ShownIds::none(), ShownIds::none()),
            groups: KeptGroups::none(alloc),
            tail: TwoShown::of(ShownTail::none(), ShownTail::none()),
        }
    }

    /// The credential line of a process and its LF at the end of a text.
    #[inline]
    fn put(
        &mut self,
        text: &mut Vec<u8>,
        cred: &Cred,
        pid: Pid,
        space: SpaceId,
        w: &World,
    ) -> Result<(), NoMemory>
        requires keeps { KeepsLine w.now.names self.old }
        requires few { length cred.now.groups ≤ 40 }
        ensures text { OrNoMemory result (λ _. Appends text.old.items text.new.items (credential_line w.now.names
            (record { pid = pid; forebear = None; space = space.0; cred = cred.now; filter = no_filter }) ++ 10 ∷ [])) }
        ensures keeps { OrNoMemory result (λ _. KeepsLine w.now.names self.new) }
    {
        self.place.put(text, pid, space, w)?;
        let ids = cred.user_ids();
        self.user.put(text, &LabelledIds { letter: b'u', ids })?;
        let ids = cred.group_ids();
        self.group.put(text, &LabelledIds { letter: b'g', ids })?;
        self.groups.put(text, cred.groups.items())?;
        self.tail.put(text, cred)
    }
}

/// The supplementary groups, where there is one, with their text.
#[derive(Debug, Drop)]
pub(crate) struct KeptGroups {
    groups: Vec<Kgid>,
    text: Vec<u8>,
}

impl KeptGroups {
    /// Nothing is kept.
    fn none(alloc: Global) -> KeptGroups
        ensures { KeepsGroups result }
    {
        KeptGroups {
            groups: Vec::new(alloc),
            text: Vec::new(alloc),
        }
    }

    /// The groups at the end of a text.
    #[inline]
    fn put(&mut self, text: &mut Vec<u8>, groups: &[Kgid]) -> Result<(), NoMemory>
        requires keeps { KeepsGroups self.old }
        requires few { length groups.now ≤ 40 }
        ensures text { OrNoMemory result (λ _. Appends text.old.items text.new.items (codes " groups=" ++
            groups_text groups.now)) }
        ensures keeps { OrNoMemory result (λ _. KeepsGroups self.new) }
    {
        if groups.is_empty() {
            return put(text, b" groups=-");
        }
        self.show(groups)?;
        put(text, &self.text)
    }

    // Sees to it that the part shows these.
    #[inline]
    fn show(&mut self, groups: &[Kgid]) -> Result<(), NoMemory>
        requires keeps { KeepsGroups self.old }
        requires some { 0 < length groups.now }
        requires few { length groups.now ≤ 40 }
        ensures text { OrNoMemory result (λ _. self.new.text.items ≡ codes " groups=" ++ groups_text groups.now) }
        ensures keeps { OrNoMemory result (λ _. KeepsGroups self.new) }
    {
        if self.groups.as_slice() == groups {
            return Ok(());
        }
        self.write(groups)
    }

    // The text anew.
    fn write(&mut self, groups: &[Kgid]) -> Result<(), NoMemory>
        requires { length groups.now ≤ 40 }
        ensures text { OrNoMemory result (λ _. self.new.text.items ≡ codes " groups=" ++ groups_text groups.now) }
        ensures keeps { OrNoMemory result (λ _. KeepsGroups self.new) }
    {
        self.groups.clear();
        self.groups.extend_from_slice(groups)?;
        self.text.clear();
        put(&mut self.text, b" groups=")?;
        put_groups(&mut self.text, groups)
    }
}
