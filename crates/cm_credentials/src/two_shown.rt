// Two texts of a part of a line, as it was shown last and before.
ghost use Rattle.std.specs.Prelude.{◌≡◌, ℕ, List, false, true};
ghost use Rattle.cm_base.specs.Outcome.{OrNoMemory};
ghost use Rattle.cm_tokens.specs.Pieces.{Appends};

use cm_base::NoMemory;

/// A part of a line as it was shown: the text, and the values that it is of.
pub(crate) trait Shown {
    /// The values that such a part shows.
    type Key;

    /// The text of the values.
    ghost text_of: { Self.Key → List ℕ };

    /// The text at the end of another, where it is that of these values: says whether it is. Else nothing is put.
    fn put(&self, text: &mut Vec<u8>, key: &Self::Key) -> Result<bool, NoMemory>
        ensures same { OrNoMemory result (λ is. is ≡ true → Appends text.old.items text.new.items (text_of key.now)) }
        ensures other { OrNoMemory result (λ is. is ≡ false → text.new.items ≡ text.old.items) };

    /// The text of these values, anew, at the end of another; it is kept.
    fn write(&mut self, text: &mut Vec<u8>, key: &Self::Key) -> Result<(), NoMemory>
        ensures { OrNoMemory result (λ _. Appends text.old.items text.new.items (text_of key.now)) };
}

/// A part as it was shown last and before: a program that calls often mostly goes from one credential to another and
/// back.
#[derive(Debug, Drop)]
pub(crate) struct TwoShown<S> {
    first: S,
    second: S,
    second_is_older: bool,
}

impl<S: Shown> TwoShown<S> {
    /// Of two that show nothing.
    pub(crate) fn of(first: S, second: S) -> TwoShown<S> {
        TwoShown {
            first,
            second,
            second_is_older: false,
        }
    }

    /// The text of these values at the end of another.
    #[inline(always)]
    pub(crate) fn put(&mut self, text: &mut Vec<u8>, key: &S::Key) -> Result<(), NoMemory>
        ensures { OrNoMemory result (λ _. Appends text.old.items text.new.items (S.text_of key.now)) }
    {
        if self.first.put(text, key)? {
            self.second_is_older = true;
            return Ok(());
        }
        if self.second.put(text, key)? {
            self.second_is_older = false;
            return Ok(());
        }
        self.write(text, key)
    }

    // The text anew, in the place of the one that wasn't put last.
    #[inline(never)]
    fn write(&mut self, text: &mut Vec<u8>, key: &S::Key) -> Result<(), NoMemory>
        ensures { OrNoMemory result (λ _. Appends text.old.items text.new.items (S.text_of key.now)) }
    {
        self.second_is_older = !self.second_is_older;
        if self.second_is_older {
            self.first.write(text, key)
        } else {
            self.second.write(text, key)
        }
    }
}
