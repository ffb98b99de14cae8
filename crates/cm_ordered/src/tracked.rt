// A list of things with numbers that can be rolled back to a savepoint. Each change of what stands at a number saves
// first what stood there, where a savepoint is set, so that to roll back takes no memory.
ghost use Rattle.std.specs.Prelude.{◌≡◌, ◌<◌, List, [], None, Some, find, length, option_map, is_some, IsOk};
ghost use Rattle.cm_base.specs.Outcome.{OrNoMemory, UnchangedOnErr};
ghost use Rattle.cm_ordered.specs.Order.{Ascends, before_by, has_number, others_by, put_by};

use crate::{Copied, Numbered, Undo, ordered};
use cm_base::NoMemory;
use std::alloc::Global;
use std::marker::Model;

/// A list, and what puts it back as it was at the savepoint, where one is set. Both are open: what stands at a number
/// is changed in place once it is saved, as `tracked.undo.save(&tracked.list, key)?` does.
#[derive(Debug, Drop)]
pub struct Tracked<T: Numbered> {
    pub list: Vec<T>,
    pub undo: Undo<T>,
}

impl<T: Numbered> Model for Tracked<T> {
    ghost use Rattle.std.specs.Prelude.{vec_capacity};
    ghost use Rattle.cm_ordered.specs.Undone as undone;

    ghost Value = { undone.Tracked T };

    ghost view = { λ t. record {
      items = t.list.items;
      saved = undone.saved_list T.number t.undo t.list.items;
      room = vec_capacity t.list;
    } };

    ghost invariant = { λ t. undone.CanUndo T.number t.undo t.list.items (vec_capacity t.list) };
}

// ---- what stands in it

impl<T: Numbered> Tracked<T> {
    /// The list, without a savepoint.
    pub fn of(alloc: Global, list: Vec<T>) -> Tracked<T>
        requires { Ascends (before_by T.number) list.items }
        ensures items { result.items ≡ list.items }
        ensures fresh { result.saved ≡ None }
    {
        Tracked {
            list,
            undo: Undo::new(alloc),
        }
    }

    /// Its things.
    pub fn items(&self) -> &[T]
        ensures { result.now ≡ self.now.items }
    {
        &self.list
    }

    /// The thing itself, where it stands in the list.
    pub fn get<K: Numbered + Copy>(&self, key: K) -> Option<&T>
        ensures { option_map (λ thing. thing.now) result ≡ find (has_number T.number (K.number key)) self.now.items }
    {
        ordered::get(&self.list, key)
    }
}

impl<T: Numbered + Copied + Drop> Tracked<T> {
    /// The same things, without a savepoint. It fails only where memory runs out.
    pub fn copy(&self, alloc: Global) -> Result<Tracked<T>, NoMemory>
        ensures items { OrNoMemory result (λ made. made.items ≡ self.now.items) }
        ensures fresh { OrNoMemory result (λ made. made.saved ≡ None) }
    {
        let list = copy_list(alloc, &self.list)?;
        Ok(Tracked::of(alloc, list))
    }
}

// The same things. It fails only where memory runs out.
fn copy_list<T: Copied + Drop>(alloc: Global, list: &[T]) -> Result<Vec<T>, NoMemory>
    ensures { OrNoMemory result (λ made. made.items ≡ list.now) }
{
    let mut made = Vec::with_capacity(alloc, list.len())?;
    for thing in list {
        let thing = thing.copy()?;
        made.push(thing)?;
    }
    Ok(made)
}

// ---- changes

impl<T: Numbered + Copied + Drop> Tracked<T> {
    /// There is room for one more. It fails only where memory runs out.
    pub fn reserve_one(&mut self) -> Result<(), NoMemory>
        ensures items { self.new.items ≡ self.old.items }
        ensures saved { self.new.saved ≡ self.old.saved }
        ensures room { OrNoMemory result (λ _. length self.new.items < self.new.room) }
    {
        self.list.reserve(1)?;
        Ok(())
    }

    /// The thing in its place, instead of any of its number. It fails only where memory runs out, and then leaves all
    /// as it was; never where there is room for one more, and no savepoint is set.
    pub fn put(&mut self, new: T) -> Result<(), NoMemory>
        ensures items { OrNoMemory result (λ _. self.new.items ≡ put_by T.number new self.old.items) }
        ensures saved { self.new.saved ≡ self.old.saved }
        ensures unchanged { UnchangedOnErr result self.new.items self.old.items }
        ensures never { self.old.saved ≡ None → length self.old.items < self.old.room → IsOk result }
    {
        self.undo.save(&self.list, new.number())?;
        ordered::put(&mut self.list, new)?;
        Ok(())
    }

    /// It goes, where it stands in the list. It fails only where memory runs out, and then leaves all as it was; never
    /// where no savepoint is set.
    pub fn remove<K: Numbered + Copy>(&mut self, key: K) -> Result<(), NoMemory>
        ensures items { OrNoMemory result (λ _. self.new.items ≡ others_by T.number (K.number key) self.old.items) }
        ensures saved { self.new.saved ≡ self.old.saved }
        ensures unchanged { UnchangedOnErr result self.new.items self.old.items }
        ensures never { self.old.saved ≡ None → IsOk result }
    {
        self.undo.save(&self.list, key)?;
        ordered::remove(&mut self.list, key);
        Ok(())
    }
}

impl<T: Numbered + Drop> Tracked<T> {
    /// All go. No savepoint is set.
    pub fn clear(&mut self)
        requires { self.old.saved ≡ None }
        ensures items { self.new.items ≡ [] }
        ensures saved { self.new.saved ≡ None }
    {
        self.list.clear();
    }
}

// ---- the savepoint

impl<T: Numbered + Drop> Tracked<T> {
    /// A savepoint is set.
    pub fn has_savepoint(&self) -> bool
        ensures { result ≡ is_some self.now.saved }
    {
        self.undo.is_saving()
    }

    /// A savepoint is set here.
    pub fn set_savepoint(&mut self)
        ensures items { self.new.items ≡ self.old.items }
        ensures saved { self.new.saved ≡ Some self.old.items }
    {
        self.undo.begin(true);
    }

    /// All is as it was at the savepoint, which isn't set any more. Where none is set all stays as it is.
    pub fn roll_back(&mut self)
        ensures items { (xs : List T) → self.old.saved ≡ Some xs → self.new.items ≡ xs }
        ensures unset { self.old.saved ≡ None → self.new.items ≡ self.old.items }
        ensures saved { self.new.saved ≡ None }
    {
        if self.undo.is_saving() {
            self.undo.put_all_back(&mut self.list);
        }
    }

    /// No savepoint is set any more.
    pub fn release(&mut self)
        ensures items { self.new.items ≡ self.old.items }
        ensures saved { self.new.saved ≡ None }
    {
        self.undo.begin(false);
    }
}
