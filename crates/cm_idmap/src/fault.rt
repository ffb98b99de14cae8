// Which lists of extents are no map, and why (user_namespaces(7), "Defining user and group ID mappings: writing to
// uid_map and gid_map"). The checks stand in the order of the answers: the whole list, each extent, each pair. Each pair
// is looked at only where some meet, for the exact answer, or where there was no memory for lists in order.
ghost use Rattle.std.specs.Prelude.{◌≡◌, ℕ, ◌+◌, ◌≤◌, None, length, drop, nat_lt, is_some, option_map};
ghost use Rattle.cm_base.specs.Limits.{id_count};
ghost use Rattle.cm_base.specs.Outcome.{OrNoMemory};
ghost use Rattle.model_cred.specs.MapFault.{Overlap, first_extent_fault, first_overlap, overlap_with, ranges_meet, extents_meet};
ghost use Rattle.cm_idmap.specs.Fault.{told, fault_but_overlap};
ghost use Rattle.cm_idmap.specs.Kept.{AreSides};

use crate::Extent;
use crate::kept::Sides;
use cm_base::{MINUS_ONE, NoMemory};

// The most extents of a map (user_namespaces(7), since Linux 4.15).
const MOST_EXTENTS: usize = 340;

/// Why a list of extents is no map. An extent is named by its place in the list, from 0 on.
#[derive(Clone, Copy, Debug, PartialEq, Eq)]
pub enum BadMap {
    /// The list has no extent.
    Empty,
    /// The list has more than 340 extents.
    TooMany,
    /// The extent has no ids.
    ZeroLength(usize),
    /// The extent has ids past 4294967294, inside or outside.
    PastEnd(usize),
    /// The first extent and the later second one have an inside or an outside id in common.
    Overlap(usize, usize),
    /// There was no memory.
    NoMemory,
}

// The first fault of the list that isn't a pair of extents that meet.
pub(crate) fn fault_but_overlap(list: &[Extent]) -> Option<BadMap>
    ensures fault { told result ≡ fault_but_overlap list.now }
    ensures some { is_some result ≡ is_some (fault_but_overlap list.now) }
{
    if list.is_empty() {
        return Some(BadMap::Empty);
    }
    if list.len() > MOST_EXTENTS {
        return Some(BadMap::TooMany);
    }
    bad_extent(list)
}

// The first extent that is wrong by itself.
fn bad_extent(list: &[Extent]) -> Option<BadMap>
    ensures fault { told result ≡ first_extent_fault 0 list.now }
    ensures some { is_some result ≡ is_some (first_extent_fault 0 list.now) }
{
    for (i, e) in list.iter().enumerate() {
        if e.length == 0 {
            return Some(BadMap::ZeroLength(i));
        }
        if passes_end(e.inside, e.length) || passes_end(e.outside, e.length) {
            return Some(BadMap::PastEnd(i));
        }
    }
    None
}

// A range of ids has one past the greatest id.
fn passes_end(first: u32, length: u32) -> bool
    ensures { result ≡ nat_lt id_count (first + length) }
{
    u64::from(first) + u64::from(length) > u64::from(MINUS_ONE)
}

// The least pair of extents that meet. Two lists in order tell that there is none; else each pair is looked at.
pub(crate) fn overlap(list: &[Extent], sides: &Result<Sides, NoMemory>) -> Option<BadMap>
    requires fine { first_extent_fault 0 list.now ≡ None }
    requires sides { OrNoMemory sides.now (AreSides list.now) }
    ensures fault { told result ≡ first_overlap 0 list.now }
    ensures some { is_some result ≡ is_some (first_overlap 0 list.now) }
{
    match sides {
        Ok(sides) if sides.are_apart() => None,
        _ => bad_pair(list),
    }
}

// The least pair of extents that meet.
fn bad_pair(list: &[Extent]) -> Option<BadMap>
    ensures fault { told result ≡ first_overlap 0 list.now }
    ensures some { is_some result ≡ is_some (first_overlap 0 list.now) }
{
    for (i, e) in list.iter().enumerate() {
        if let Some(j) = meets_at(e, i + 1, list) {
            return Some(BadMap::Overlap(i, j));
        }
    }
    None
}

// The place of the first extent from a place on that meets the given one.
fn meets_at(e: &Extent, from: usize, list: &[Extent]) -> Option<usize>
    requires { from ≤ length list.now }
    ensures { (i : ℕ) → option_map (Overlap i) result ≡ overlap_with i e.now from (drop from list.now) }
{
    for j in from..list.len() {
        if meet(e, &list[j]) {
            return Some(j);
        }
    }
    None
}

// The two extents have an inside or an outside id in common.
fn meet(e: &Extent, f: &Extent) -> bool
    ensures { result ≡ extents_meet e.now f.now }
{
    ranges_meet(e.inside, e.length, f.inside, f.length)
        || ranges_meet(e.outside, e.length, f.outside, f.length)
}

// Two ranges have an id in common.
fn ranges_meet(first: u32, length: u32, other: u32, other_length: u32) -> bool
    ensures { result ≡ ranges_meet first length other other_length }
{
    u64::from(first) < u64::from(other) + u64::from(other_length)
        && u64::from(other) < u64::from(first) + u64::from(length)
}
