// Lists of things that have numbers: the numbers ascend, so each stands once. What is looked for is told by a key that
// has its number.
ghost use Rattle.std.specs.Prelude.{◌≡◌, ◌<◌, ◌≤◌, false, find, option_map, length, IfSome, IfNone, IsOk};
ghost use Rattle.std.specs.Prelude.{vec_capacity};
ghost use Rattle.cm_base.specs.Outcome.{OrNoMemory, UnchangedOnErr};
ghost use Rattle.cm_ordered.specs.Order.{Ascends, AllSay, IsCut, StandsAt, is_at, before_by, below_by, has_number};
ghost use Rattle.cm_ordered.specs.Order.{others_by, put_by};

use crate::{Numbered, search};
use cm_base::NoMemory;

/// The place of what is looked for: those before it have lower numbers, and no other ones. It takes no memory.
pub fn place<T: Numbered, K: Numbered + Copy>(list: &[T], key: K) -> usize
    requires { Ascends (before_by T.number) list.now }
    ensures { IsCut (below_by T.number (K.number key)) list.now result }
{
    search::place(list, key.number())
}

/// What is looked for stands at the place. It takes no memory.
pub fn is_at<T: Numbered, K: Numbered + Copy>(list: &[T], at: usize, key: K) -> bool
    ensures { result ≡ is_at (has_number T.number (K.number key)) list.now at }
{
    match list.get(at) {
        Some(thing) => thing.number() == key.number(),
        None => false,
    }
}

/// The place at which it stands, from 0 on. None exactly where it doesn't stand in the list. It takes no memory.
pub fn find<T: Numbered, K: Numbered + Copy>(list: &[T], key: K) -> Option<usize>
    requires { Ascends (before_by T.number) list.now }
    ensures found { IfSome result (λ at. StandsAt (has_number T.number (K.number key)) list.now at) }
    ensures within { IfSome result (λ at. at < length list.now) }
    ensures none { IfNone result (AllSay (has_number T.number (K.number key)) false list.now) }
{
    let at = place(list, key);
    if is_at(list, at, key) { Some(at) } else { None }
}

/// The thing itself. None exactly where it doesn't stand in the list. It takes no memory.
pub fn get<T: Numbered, K: Numbered + Copy>(list: &[T], key: K) -> Option<&T>
    requires { Ascends (before_by T.number) list.now }
    ensures { option_map (λ thing. thing.now) result ≡ find (has_number T.number (K.number key)) list.now }
{
    match find(list, key) {
        Some(at) => Some(&list[at]),
        None => None,
    }
}

/// Puts one more thing in its place, where none of its number stands. It fails only where memory runs out, and then
/// leaves all as it was.
pub fn insert<T: Numbered + Drop>(list: &mut Vec<T>, new: T) -> Result<(), NoMemory>
    requires ascends { Ascends (before_by T.number) list.old.items }
    requires fresh { AllSay (has_number T.number (T.number new)) false list.old.items }
    ensures items { OrNoMemory result (λ _. list.new.items ≡ put_by T.number new list.old.items) }
    ensures unchanged { UnchangedOnErr result list.new.items list.old.items }
    ensures ascends { Ascends (before_by T.number) list.new.items }
{
    let at = search::place(list, new.number());
    list.insert(at, new)?;
    Ok(())
}

/// Puts the thing in its place, instead of any of its number. It fails only where memory runs out, and then leaves all
/// as it was; never where there is room for the list as it is then.
pub fn put<T: Numbered + Drop>(list: &mut Vec<T>, new: T) -> Result<(), NoMemory>
    requires { Ascends (before_by T.number) list.old.items }
    ensures items { OrNoMemory result (λ _. list.new.items ≡ put_by T.number new list.old.items) }
    ensures unchanged { UnchangedOnErr result list.new.items list.old.items }
    ensures ascends { Ascends (before_by T.number) list.new.items }
    ensures room { length (put_by T.number new list.old.items) ≤ vec_capacity list.old → IsOk result }
    ensures capacity { vec_capacity list.old ≤ vec_capacity list.new }
{
    let number = new.number();
    let at = place(list, number);
    if is_at(list, at, number) {
        list[at] = new;
    } else {
        list.insert(at, new)?;
    }
    Ok(())
}

/// Takes what is looked for out of the list, where it stands there. It takes no memory.
pub fn remove<T: Numbered + Drop, K: Numbered + Copy>(list: &mut Vec<T>, key: K)
    requires { Ascends (before_by T.number) list.old.items }
    ensures items { list.new.items ≡ others_by T.number (K.number key) list.old.items }
    ensures ascends { Ascends (before_by T.number) list.new.items }
    ensures capacity { vec_capacity list.old ≤ vec_capacity list.new }
{
    match find(list, key) {
        Some(at) => {
            list.remove(at);
        }
        None => {}
    }
}
