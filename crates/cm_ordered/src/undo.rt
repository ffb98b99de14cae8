// What puts a list of things with numbers back as it was at a savepoint: since then, what stood at a number is saved
// before each change there. Nothing is saved while no savepoint is set.
ghost use Rattle.std.specs.Prelude.{◌≡◌, ◌≤◌, ◌++◌, ◌∷◌, [], true, false, find, length, option_map, IsOk};
ghost use Rattle.std.specs.Prelude.{vec_capacity};
ghost use Rattle.cm_base.specs.Outcome.{OrNoMemory, UnchangedOnErr};
ghost use Rattle.cm_ordered.specs.Order.{Ascends, before_by, has_number};
ghost use Rattle.cm_ordered.specs.Undone.{put_back, undone, saving_at, HasRoom};

use crate::{Numbered, ordered};
use cm_base::NoMemory;
use std::alloc::Global;
use std::marker::Model;

/// What can be copied.
pub trait Copied {
    /// The same. It fails only where memory runs out.
    fn copy(&self) -> Result<Self, NoMemory>
        ensures { OrNoMemory result (λ copy. copy ≡ self.now) };
}

/// Whether a savepoint is set, and what stood at numbers before their changes since then, the last one last.
#[derive(Debug, Drop)]
pub struct Undo<T> {
    saving: bool,
    entries: Vec<(u64, Option<T>)>,
}

impl<T> Model for Undo<T> {
    ghost use Rattle.cm_ordered.specs.Undone as undone;

    ghost Value = { undone.Undo T };

    ghost view = { λ u. record { saving = u.saving; entries = u.entries.items } };
}

impl<T> Undo<T> {
    // No savepoint is set.
    pub(crate) fn new(alloc: Global) -> Undo<T>
        ensures { result ≡ record { saving = false; entries = [] } }
    {
        Undo {
            saving: false,
            entries: Vec::new(alloc),
        }
    }
}

impl<T: Drop> Undo<T> {
    // A savepoint is set, or none is, and nothing has changed since then.
    pub(crate) fn begin(&mut self, saving: bool)
        ensures { self.new ≡ record { saving = saving; entries = [] } }
    {
        self.entries.clear();
        self.saving = saving;
    }

    // A savepoint is set.
    pub(crate) fn is_saving(&self) -> bool
        ensures { result ≡ self.now.saving }
    {
        self.saving
    }
}

impl<T: Numbered + Copied + Drop> Undo<T> {
    /// Saves what stands at the number, where a savepoint is set. It fails only where memory runs out, and then leaves
    /// all as it was; never where no savepoint is set.
    pub fn save<K: Numbered + Copy>(&mut self, list: &[T], key: K) -> Result<(), NoMemory>
        requires { Ascends (before_by T.number) list.now }
        ensures saved { OrNoMemory result (λ _. self.new ≡ saving_at T.number (K.number key) list.now self.old) }
        ensures unchanged { UnchangedOnErr result self.new self.old }
        ensures never { self.old.saving ≡ false → IsOk result }
    {
        if self.saving {
            self.note(list, key)?;
        }
        Ok(())
    }

    // What stands at the number is noted. It fails only where memory runs out.
    fn note<K: Numbered + Copy>(&mut self, list: &[T], key: K) -> Result<(), NoMemory>
        requires { Ascends (before_by T.number) list.now }
        ensures noted { OrNoMemory result (λ _. self.new ≡ record self.old {
          entries = self.old.entries ++ (K.number key, find (has_number T.number (K.number key)) list.now) ∷ [];
        }) }
        ensures unchanged { UnchangedOnErr result self.new self.old }
    {
        let old = copy_of(ordered::get(list, key))?;
        self.entries.push((key.number(), old))?;
        Ok(())
    }
}

// The same thing, where there is one. It fails only where memory runs out.
fn copy_of<T: Copied>(thing: Option<&T>) -> Result<Option<T>, NoMemory>
    ensures { OrNoMemory result (λ copy. copy ≡ option_map (λ thing. thing.now) thing.entry) }
{
    match thing {
        Some(thing) => {
            let copy = thing.copy()?;
            Ok(Some(copy))
        }
        None => Ok(None),
    }
}

impl<T: Numbered + Drop> Undo<T> {
    // All that was saved is put back, the last of it first, and no savepoint is set any more. There is room for it.
    pub(crate) fn put_all_back(&mut self, list: &mut Vec<T>)
        requires ascends { Ascends (before_by T.number) list.old.items }
        requires room { HasRoom T.number (vec_capacity list.old) self.old.entries list.old.items }
        ensures items { list.new.items ≡ undone T.number self.old.entries list.old.items }
        ensures ascends { Ascends (before_by T.number) list.new.items }
        ensures done { self.new ≡ record { saving = false; entries = [] } }
    {
        unwind(&mut self.entries, list);
        self.saving = false;
    }
}

// What was saved is put back, the last of it first.
fn unwind<T: Numbered + Drop>(entries: &mut Vec<(u64, Option<T>)>, list: &mut Vec<T>)
    requires ascends { Ascends (before_by T.number) list.old.items }
    requires room { HasRoom T.number (vec_capacity list.old) entries.old.items list.old.items }
    ensures items { list.new.items ≡ undone T.number entries.old.items list.old.items }
    ensures ascends { Ascends (before_by T.number) list.new.items }
    ensures done { entries.new.items ≡ [] }
{
    while let Some((number, old)) = entries.pop() {
        put_back(list, number, old);
    }
}

// What stood at the number stands there again. There is room for it.
fn put_back<T: Numbered + Drop>(list: &mut Vec<T>, number: u64, old: Option<T>)
    requires ascends { Ascends (before_by T.number) list.old.items }
    requires room { length (put_back T.number number old list.old.items) ≤ vec_capacity list.old }
    ensures items { list.new.items ≡ put_back T.number number old list.old.items }
    ensures ascends { Ascends (before_by T.number) list.new.items }
    ensures capacity { vec_capacity list.old ≤ vec_capacity list.new }
{
    match old {
        Some(thing) => {
            let _ = ordered::put(list, thing);
        }
        None => ordered::remove(list, number),
    }
}
