// Parts of a credential line as they were shown: four ids after their label; and the end, which is the sets, the
// securebits, no_new_privs and the LF. The text of the end has always the same length, so that it is copied without a
// call.
ghost use Rattle.std.specs.Prelude.{◌≡◌, ◌++◌, ◌+◌, ◌≤◌, ◌-◌, ◌∷◌, decimal, drop, length, true};
ghost use Rattle.cm_base.specs.Outcome.{OrNoMemory};
ghost use Rattle.cm_credentials.specs.Shown.{labelled_text, tail_of, tail_text, end_text};
ghost use Rattle.cm_tokens.specs.Pieces.{Appends};

use crate::credential_line::{put_bounds, put_flags, put_sets};
use crate::short_text::{MOST, ShortText};
use crate::two_shown::Shown;
use cm_base::{CapWord, NoMemory, SecBits};
use cm_state::{Cred, FourIds};
use cm_tokens::put;
use std::marker::Model;

/// Four ids, and the letter of their label: `u` for user ids, `g` for group ids.
#[derive(Clone, Copy, Debug)]
pub(crate) struct LabelledIds {
    pub letter: u8,
    pub ids: FourIds,
}

/// Four ids with their text.
#[derive(Debug, Drop)]
pub(crate) struct ShownIds {
    shown: Option<LabelledIds>,
    text: ShortText,
}

impl Model for ShownIds {
    ghost use Rattle.std.specs.Prelude.{ℕ, List};

    ghost Value = { List ℕ };

    ghost use Rattle.cm_credentials.specs.Shown.{ShowsIds};

    ghost view = { λ part. part.text };

    ghost invariant = { ShowsIds };
}

impl ShownIds {
    /// Nothing is shown.
    pub(crate) fn none() -> ShownIds {
        ShownIds {
            shown: None,
            text: ShortText::empty(),
        }
    }
}

impl Shown for ShownIds {
    type Key = LabelledIds;

    ghost text_of = { labelled_text };

    #[inline(always)]
    fn put(&self, text: &mut Vec<u8>, key: &LabelledIds) -> Result<bool, NoMemory> {
        match self.shown {
            Some(shown) if shown.letter == key.letter && shown.ids == key.ids => {
                self.text.put(text)?;
                Ok(true)
            }
            _ => Ok(false),
        }
    }

    #[inline]
    fn write(&mut self, text: &mut Vec<u8>, key: &LabelledIds) -> Result<(), NoMemory> {
        write_labelled(&mut self.text, key);
        self.shown = Some(*key);
        self.text.put(text)
    }
}

// The label and the ids, written from the last one on.
#[inline]
#[tactic(auto, unfolding(model_text::specs::Print::ids_text))]
fn write_labelled(text: &mut ShortText, key: &LabelledIds)
    ensures { text.new ≡ labelled_text key.now }
{
    text.clear();
    write_id_before(text, key.ids.fs);
    write_before_comma(text, key.ids.saved);
    write_before_comma(text, key.ids.effective);
    write_before_comma(text, key.ids.real);
    text.write_before(&[b' ', key.letter, b'i', b'd', b'=']);
}

// An id and a comma before what is there.
#[inline]
fn write_before_comma(text: &mut ShortText, id: u32)
    requires { 11 + length text.old ≤ MOST }
    ensures text { text.new ≡ decimal id ++ 44 ∷ text.old }
    ensures few { length text.new ≤ 11 + length text.old }
{
    text.write_before(b",");
    write_id_before(text, id);
}

#[inline]
#[tactic(auto, using(crate::proofs::Decimals::id_length))]
fn write_id_before(text: &mut ShortText, id: u32)
    requires { 10 + length text.old ≤ MOST }
    ensures text { text.new ≡ decimal id ++ text.old }
    ensures few { length text.new ≤ 10 + length text.old }
{
    text.write_decimal_before(id as u64);
}

/// What the end of a line shows: the inheritable, permitted, effective, bounding and ambient set, the securebits, and
/// whether no_new_privs is set.
#[derive(Clone, Copy, Debug)]
pub(crate) struct Tail {
    inh: CapWord,
    prm: CapWord,
    eff: CapWord,
    bnd: CapWord,
    amb: CapWord,
    sec: SecBits,
    nnp: bool,
}

impl Tail {
    /// That of a credential.
    #[inline]
    fn of(cred: &Cred) -> Tail
        ensures { result ≡ tail_of cred.now }
    {
        Tail {
            inh: cred.inh,
            prm: cred.prm,
            eff: cred.eff,
            bnd: cred.bnd,
            amb: cred.amb,
            sec: cred.sec,
            nnp: cred.nnp,
        }
    }

    /// What it shows is the end of this credential's line.
    #[inline(always)]
    #[tactic(auto, unfolding(model_text::specs::Print::sets_text, model_text::specs::Print::bounds_text, model_text::specs::Print::flags_text))]
    fn is_of(&self, cred: &Cred) -> bool
        ensures { result ≡ true → tail_text self.now ≡ end_text cred.now }
    {
        self.inh == cred.inh
            && self.prm == cred.prm
            && self.eff == cred.eff
            && self.bnd == cred.bnd
            && self.amb == cred.amb
            && self.sec.0 == cred.sec.0
            && self.nnp == cred.nnp
    }
}

/// How many bytes each end has.
const LONG: usize = 119;

/// How many are copied: eight moves of sixteen.
const ROOM: usize = 128;

/// The end of a line with its text.
#[derive(Debug, Drop)]
pub(crate) struct ShownTail {
    shown: Option<Tail>,
    text: [u8; ROOM],
}

impl Model for ShownTail {
    ghost use Rattle.std.specs.Prelude.{ℕ, List, take};

    ghost Value = { List ℕ };

    ghost use Rattle.cm_credentials.specs.Shown.{ShowsTail};

    ghost view = { λ part. take 119 part.text };

    ghost invariant = { ShowsTail };
}

impl ShownTail {
    /// Nothing is shown.
    pub(crate) fn none() -> ShownTail {
        ShownTail {
            shown: None,
            text: [0; ROOM],
        }
    }
}

impl Shown for ShownTail {
    type Key = Cred;

    ghost text_of = { end_text };

    #[inline(always)]
    fn put(&self, text: &mut Vec<u8>, cred: &Cred) -> Result<bool, NoMemory> {
        let Some(tail) = self.shown else {
            return Ok(false);
        };
        if !tail.is_of(cred) {
            return Ok(false);
        }
        let end = text.len() + LONG;
        put(text, &self.text)?;
        text.truncate(end);
        Ok(true)
    }

    fn write(&mut self, text: &mut Vec<u8>, cred: &Cred) -> Result<(), NoMemory> {
        put_end(text, cred)?;
        self.shown = Some(Tail::of(cred));
        keep_end(&mut self.text[..LONG], text);
        Ok(())
    }
}

// The sets, the securebits, no_new_privs and the LF at the end of a text.
#[tactic(auto, unfolding(model_text::specs::Print::sets_text, model_text::specs::Print::bounds_text, model_text::specs::Print::flags_text))]
fn put_end(text: &mut Vec<u8>, cred: &Cred) -> Result<(), NoMemory>
    ensures { OrNoMemory result (λ _. Appends text.old.items text.new.items (end_text cred.now)) }
{
    put_sets(text, cred)?;
    put_bounds(text, cred)?;
    put_flags(text, cred)?;
    put(text, b"\n")
}

// Copies as many bytes as there is room for from the end of a text.
#[inline]
fn keep_end(room: &mut [u8], text: &[u8])
    requires { length room.old ≤ length text.now }
    ensures { room.new ≡ drop (length text.now - length room.old) text.now }
{
    room.copy_from_slice(&text[text.len() - room.len()..]);
}
