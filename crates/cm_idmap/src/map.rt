// An id map: a list of extents that is one by user_namespaces(7), with what it takes an id to, both ways. Beside the
// list it keeps its extents in the order of each side, so that ids are looked for by halves. Contracts see the list.
ghost use Rattle.std.specs.Prelude.{◌≡◌, ℕ, ◌<◌, ◌↔◌, None, Some, IfOk, IfSome, option_map};
ghost use Rattle.std.specs.declared.result.Result.TheVariants.{Err};
ghost use Rattle.std.specs.List.Sorted.{IsNonDecreasingBy, IsPermutation};
ghost use Rattle.cm_base.specs.Limits.{id_count};
ghost use Rattle.cm_base.specs.Outcome.{OrNoMemory};
ghost use Rattle.model_cred.specs.IdMap.{down, extents_of, up, initial_map, Maps};
ghost use Rattle.model_cred.specs.MapFault.{IsMap, map_fault};
ghost use Rattle.model_rules.specs.Maps.{list_down as model_list_down};
ghost use Rattle.cm_idmap.specs.Fault.{fault_of};
ghost use Rattle.cm_idmap.specs.declared.fault.BadMap.{BadMap};
ghost use Rattle.cm_idmap.specs.declared.fault.BadMap.TheVariants as answer;

use crate::down::list_down;
use crate::fault::{fault_but_overlap, overlap};
use crate::kept::Sides;
use crate::sorted::Sorted;
use crate::uncounted::{down_in, up_in};
use crate::{BadMap, Extent};
use cm_base::{MINUS_ONE, NoMemory};
use std::alloc::Global;
use std::marker::{Brand, Model};
use std::sync::ledger::Blank;

/// A map from the ids of a user namespace, its inside ids, to outside ids. It takes no two ids to one.
#[derive(Debug, Drop)]
pub struct IdMap {
    list: Vec<Extent>,
    sides: Sides,
}

impl Model for IdMap {
    ghost use Rattle.std.specs.Prelude.{List};
    ghost use Rattle.model_cred.specs.IdMap.{Extent};
    ghost use Rattle.model_cred.specs.MapFault.{IsMap};

    ghost Value = { List Extent };

    ghost view = { λ m. m.list.items };

    ghost use Rattle.cm_idmap.specs.Kept.{AreSides};

    ghost invariant = { λ m. IsMap m.list.items × AreSides m.list.items m.sides };
}

impl IdMap {
    /// The map of a list of extents. The first fault of a list that is none is answered in this order (the order is a
    /// choice): `Empty`, `TooMany` past 340 extents, the first extent with `ZeroLength` or `PastEnd`, then `Overlap` of
    /// the least pair whose inside or outside ranges meet (user_namespaces(7)). `NoMemory` comes only for a map.
    pub fn make(alloc: Global, list: &[Extent]) -> Result<IdMap, BadMap>
        ensures made { IfOk result (λ m. (m ≡ list.now) × (map_fault list.now ≡ None)) }
        ensures refused { (e : BadMap) → result ≡ Err e → map_fault list.now ≡ fault_of e }
        ensures memory { result ≡ Err answer.NoMemory → map_fault list.now ≡ None }
    {
        if let Some(fault) = fault_but_overlap(list) {
            return Err(fault);
        }
        let sides = Sides::of(alloc, list);
        if let Some(fault) = overlap(list, &sides) {
            return Err(fault);
        }
        match (sides, Vec::from_slice(alloc, list)) {
            (Ok(sides), Ok(list)) => Ok(IdMap { list, sides }),
            _ => Err(BadMap::NoMemory),
        }
    }

    /// The map of the initial user namespace, `0 0 4294967295`: each id stands for itself (user_namespaces(7)). It
    /// fails only where memory runs out.
    pub fn initial(alloc: Global) -> Result<IdMap, NoMemory>
        ensures { OrNoMemory result (λ m. m ≡ initial_map) }
    {
        let all = Extent {
            inside: 0,
            outside: 0,
            length: MINUS_ONE,
        };
        let list = vec![in alloc; all]?;
        let sides = Sides::of(alloc, &list)?;
        Ok(IdMap { list, sides })
    }

    /// The outside id of an inside id, which isn't -1. None exactly where no extent holds the id
    /// (user_namespaces(7)).
    pub fn down(&self, inside: u32) -> Option<u32>
        ensures image { result ≡ down self.now inside }
        ensures is_id { IfSome result (λ id. id < id_count) }
        ensures maps { (id : ℕ) → (result ≡ Some id) ↔ Maps self.now inside id }
    {
        down_in::<Brand>(&self.sides.by_inside, inside, Blank::new(1))
    }

    /// The inside id of an outside id, which isn't -1. None exactly where no extent holds the id
    /// (user_namespaces(7)).
    pub fn up(&self, outside: u32) -> Option<u32>
        ensures image { result ≡ up self.now outside }
        ensures is_id { IfSome result (λ id. id < id_count) }
        ensures maps { (id : ℕ) → (result ≡ Some id) ↔ Maps self.now id outside }
    {
        up_in::<Brand>(&self.sides.by_outside, outside, Blank::new(1))
    }

    /// The map with its outside ids, which are inside ids of another map, taken down through that one: its outside ids are then
    /// those of the other. None exactly where an outside range doesn't lie in one extent of the other, as where that isn't
    /// written (user_namespaces(7)). It fails only where memory runs out.
    pub fn under(&self, alloc: Global, other: Option<&IdMap>) -> Result<Option<IdMap>, NoMemory>
        ensures { OrNoMemory result (λ m. m ≡ model_list_down (extents_of (option_map (λ o. o.now) other.entry)) self.now) }
    {
        let given = self.extents();
        let Some(other) = other else {
            return Ok(None);
        };
        let Some(list) = list_down(alloc, &other.sides.by_inside, given)? else {
            return Ok(None);
        };
        let sides = Sides::of(alloc, &list)?;
        Ok(Some(IdMap { list, sides }))
    }

    /// The extents, in the order in which they were handed in. They are a map.
    pub fn extents(&self) -> &[Extent]
        ensures value { result.now ≡ self.now }
        ensures map { IsMap result.now }
    {
        &self.list
    }

    /// The extents in the order of their inside ids, as `down_counted` takes them. They are a map that takes each id
    /// down as this one does.
    pub fn by_inside(&self) -> &Sorted
        ensures map { IsMap result.now }
        ensures order { IsNonDecreasingBy (λ e. e.inside) result.now }
        ensures extents { ∥ IsPermutation self.now result.now ∥₁ }
        ensures same { (id : ℕ) → down result.now id ≡ down self.now id }
    {
        &self.sides.by_inside
    }

    /// The extents in the order of their outside ids, as `up_counted` takes them. They are a map that takes each id up
    /// as this one does.
    pub fn by_outside(&self) -> &Sorted
        ensures map { IsMap result.now }
        ensures order { IsNonDecreasingBy (λ e. e.outside) result.now }
        ensures extents { ∥ IsPermutation self.now result.now ∥₁ }
        ensures same { (id : ℕ) → up result.now id ≡ up self.now id }
    {
        &self.sides.by_outside
    }

    /// An equal map. It fails only where memory runs out.
    pub fn copy(&self, alloc: Global) -> Result<IdMap, NoMemory>
        ensures { OrNoMemory result (λ m. m ≡ self.now) }
    {
        let list = Vec::from_slice(alloc, &self.list)?;
        let sides = self.sides.copy(alloc)?;
        Ok(IdMap { list, sides })
    }
}
