// Short texts that are kept and put again and again; the number of a line and the place of a credential line are such.
ghost use Rattle.std.specs.Prelude.{◌≡◌, ◌++◌, ◌+◌, ◌-◌, ◌%◌, ◌<◌, ◌≤◌, [], ℕ, List, codes, decimal, length};
ghost use Rattle.cm_base.specs.Outcome.{OrNoMemory};
ghost use Rattle.cm_tokens.specs.Pieces.{Appends};
ghost use Rattle.model_text.specs.SpaceToken.{space_token};

use crate::credential_line::put_place;
use cm_base::{NoMemory, Pid, SpaceId};
use cm_declared::World;
use cm_tokens::put;
use itoa::write_digits;
use std::marker::Model;

/// How many bytes a short text has at most.
pub(crate) const MOST: usize = 48;

/// The room of a text: it stands at the end of the first half.
const ROOM: usize = 96;

/// A text of at most 48 bytes. It is written from its end, as the digits of a number are found. It is put by a copy of
/// 48 bytes from where it begins, of which what is too much is cut off: a copy of a length that the compiler knows is a
/// few moves, and no call.
#[derive(Debug, Drop)]
pub(crate) struct ShortText {
    bytes: [u8; ROOM],
    from: usize,
}

impl Model for ShortText {
    ghost use Rattle.std.specs.Prelude.{ℕ, List, ◌≤◌, ◌-◌, drop, take};

    ghost Value = { List ℕ };

    ghost view = { λ t. take (48 - t.from) (drop t.from t.bytes) };

    ghost invariant = { λ t. t.from ≤ 48 };
}

impl ShortText {
    /// No byte.
    pub(crate) fn empty() -> ShortText
        ensures { result ≡ [] }
    {
        ShortText {
            bytes: [0; ROOM],
            from: MOST,
        }
    }

    /// Takes all bytes out.
    #[inline]
    pub(crate) fn clear(&mut self)
        ensures { self.new ≡ [] }
    {
        self.from = MOST;
    }

    /// A piece before what is there.
    #[inline]
    pub(crate) fn write_before(&mut self, piece: &[u8])
        requires { length piece.now + length self.old ≤ MOST }
        ensures { self.new ≡ piece.now ++ self.old }
    {
        let end = self.from;
        self.from = end - piece.len();
        self.bytes[self.from..end].copy_from_slice(piece);
    }

    /// A number in decimal before what is there. One digit, as the id of root is, goes at once.
    #[inline]
    #[tactic(auto, using(std::proofs::lemmas::Fmt::decimal_digit))]
    pub(crate) fn write_decimal_before(&mut self, n: u64)
        requires { length (decimal n) + length self.old ≤ MOST }
        ensures { self.new ≡ decimal n ++ self.old }
    {
        if n < 10 {
            return self.write_before(&[b'0' + n as u8]);
        }
        self.from = write_digits(n, &mut self.bytes, self.from);
    }

    /// The text at the end of another.
    #[inline(always)]
    pub(crate) fn put(&self, text: &mut Vec<u8>) -> Result<(), NoMemory>
        ensures { OrNoMemory result (λ _. Appends text.old.items text.new.items self.now) }
    {
        let end = text.len() + (MOST - self.from);
        put(text, &self.bytes[self.from..self.from + MOST])?;
        text.truncate(end);
        Ok(())
    }

    /// Makes the text of a number, with a colon and a space after it, that of the next number, which differs in its
    /// last digit alone.
    #[inline]
    pub(crate) fn count(&mut self, number: u64)
        requires last { self.old ≡ decimal (number - 1) ++ codes ": " }
        requires digit { 0 < number % 10 }
        ensures { self.new ≡ decimal number ++ codes ": " }
    {
        self.bytes[MOST - 3] = b'0' + (number % 10) as u8;
    }
}

/// A number in decimal, and a colon and a space. Most numbers are one more than the last one.
#[derive(Debug, Drop)]
pub(crate) struct KeptNumber {
    pub shown: Option<u64>,
    pub text: ShortText,
}

impl KeptNumber {
    ghost use Rattle.cm_credentials.specs.Kept.{KeepsNumber};

    /// Nothing is kept. It takes no memory.
    pub(crate) fn none() -> KeptNumber
        ensures { KeepsNumber result }
    {
        KeptNumber {
            shown: None,
            text: ShortText::empty(),
        }
    }

    /// The number anew, a colon and a space at the end of a text, and their text kept.
    pub(crate) fn write(&mut self, text: &mut Vec<u8>, number: u64) -> Result<(), NoMemory>
        ensures text { OrNoMemory result (λ _. Appends text.old.items text.new.items (decimal number ++ codes ": ")) }
        ensures keeps { OrNoMemory result (λ _. KeepsNumber self.new) }
    {
        self.text.clear();
        self.text.write_before(b": ");
        self.text.write_decimal_before(number);
        self.shown = Some(number);
        self.text.put(text)
    }
}

/// A pid and a space.
#[derive(Clone, Copy, Debug)]
pub(crate) struct Place {
    pid: Pid,
    space: SpaceId,
}

/// The pid and the token of the space, where their text has no more than 48 bytes.
#[derive(Debug, Drop)]
pub(crate) struct KeptPlace {
    shown: Option<Place>,
    text: ShortText,
}

impl KeptPlace {
    ghost use Rattle.cm_credentials.specs.Kept.{KeepsPlace};

    /// Nothing is kept. It takes no memory.
    pub(crate) fn none() -> KeptPlace
        ensures { (names : List (List ℕ)) → KeepsPlace names result }
    {
        KeptPlace {
            shown: None,
            text: ShortText::empty(),
        }
    }

    /// The pid and the token of the space at the end of a text.
    #[inline]
    pub(crate) fn put(
        &mut self,
        text: &mut Vec<u8>,
        pid: Pid,
        space: SpaceId,
        w: &World,
    ) -> Result<(), NoMemory>
        requires { KeepsPlace w.now.names self.old }
        ensures text { OrNoMemory result (λ _. Appends text.old.items text.new.items (codes "> " ++ decimal pid ++
            codes " " ++ space_token w.now.names space.0)) }
        ensures keeps { OrNoMemory result (λ _. KeepsPlace w.now.names self.new) }
    {
        match self.shown {
            Some(place) if place.pid.number() == pid.number() && place.space.0 == space.0 => {
                self.text.put(text)
            }
            _ => self.write(text, pid, space, w),
        }
    }

    // The pid and the token anew, and their text kept where it is short.
    fn write(
        &mut self,
        text: &mut Vec<u8>,
        pid: Pid,
        space: SpaceId,
        w: &World,
    ) -> Result<(), NoMemory>
        ensures text { OrNoMemory result (λ _. Appends text.old.items text.new.items (codes "> " ++ decimal pid ++
            codes " " ++ space_token w.now.names space.0)) }
        ensures keeps { OrNoMemory result (λ _. KeepsPlace w.now.names self.new) }
    {
        let from = text.len();
        put_place(text, pid, space, w)?;
        self.shown = None;
        if text.len() - from > MOST {
            return Ok(());
        }
        self.text.clear();
        self.text.write_before(&text[from..]);
        self.shown = Some(Place { pid, space });
        Ok(())
    }
}
