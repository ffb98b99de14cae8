// An index of declared files: the numbers of rows in the order of their paths' keys, and of their paths where keys are
// one. Most paths that a row has are found by their slot; the others by halves, over the keys alone as long as these
// differ.
ghost use Rattle.std.specs.Prelude.{◌≡◌, ◌≢◌, ℕ, ◌+◌, ◌<◌, ◌≤◌, ◌^◌, [], true, false, length, take, slice_index_or, is_none, IfOk, IfSome, OnOk};
ghost use Rattle.cm_files.specs.Index.{Ascend, HasKeys, IsIndex, IsPlace, no_row, path_at as model_path_at, path_key as model_path_key, is_before as model_is_before};
ghost use Rattle.cm_files.specs.Fault.{has_path};
ghost use Rattle.std.specs.List.{insert};
ghost use Rattle.model_cred.specs.Files.{row_named};

use crate::FileRow;
use crate::slots::Slots;
use std::alloc::{AllocError, Global};
use std::cmp::Ordering;

/// An index of rows.
#[derive(Debug, Drop)]
pub(crate) struct Index {
    // The numbers of the rows.
    pub order: Vec<u32>,
    // The keys of their paths.
    pub keys: Vec<u64>,
    // Where a path may be found without a search.
    slots: Slots,
}

impl Index {
    // The index of no rows. It takes no memory.
    pub(crate) fn none(alloc: Global) -> Index
        ensures order { result.order.items ≡ [] }
        ensures keys { result.keys.items ≡ [] }
    {
        Index {
            order: Vec::new(alloc),
            keys: Vec::new(alloc),
            slots: Slots::none(alloc),
        }
    }

    // The index of no rows, with room for so many.
    pub(crate) fn with_capacity(alloc: Global, count: usize) -> Result<Index, AllocError>
        requires { count < 2 ^ 32 }
        ensures order { IfOk result (λ index. index.order.items ≡ []) }
        ensures keys { IfOk result (λ index. index.keys.items ≡ []) }
    {
        let order = Vec::with_capacity(alloc, count)?;
        let keys = Vec::with_capacity(alloc, count)?;
        let slots = Slots::with_capacity(alloc, count)?;
        Ok(Index { order, keys, slots })
    }

    // The row of that number comes to that place.
    pub(crate) fn put(&mut self, rows: &[FileRow], n: u32, place: usize) -> Result<(), AllocError>
        requires within { n < length rows.now }
        requires place { place ≤ length self.old.order.items }
        requires keys { HasKeys rows.now self.old.order.items self.old.keys.items }
        ensures order { OnOk result (self.new.order.items ≡ insert self.old.order.items place n) }
        ensures keys { OnOk result (HasKeys rows.now self.new.order.items self.new.keys.items) }
    {
        let row = &rows[n as usize];
        let path = row.path.items();
        let key = path_key(path);
        self.order.insert(place, n)?;
        self.keys.insert(place, key)?;
        self.slots.put(key, path.len(), n);
        Ok(())
    }
}

// The row of a path, by an index of all rows.
pub(crate) fn find(rows: &[FileRow], index: &Index, path: &[u8]) -> Option<u32>
    requires index { IsIndex rows.now (length rows.now) index.now.order.items }
    requires keys { HasKeys rows.now index.now.order.items index.now.keys.items }
    ensures named { result ≡ row_named rows.now path.now }
    ensures within { IfSome result (λ n. n < length rows.now) }
{
    let key = path_key(path);
    if let Some(n) = index.slots.find(rows, key, path) {
        return Some(n);
    }
    let place = place_of(rows, index, key, path);
    if stands_at(rows, index, place, key, path) {
        Some(index.order[place])
    } else {
        None
    }
}

// Where the path of the row of that number belongs in the index of those before it, None where one of these has it.
pub(crate) fn free_place(rows: &[FileRow], index: &Index, n: usize) -> Option<usize>
    requires within { n < length rows.now }
    requires index { IsIndex rows.now n index.now.order.items }
    requires keys { HasKeys rows.now index.now.order.items index.now.keys.items }
    ensures twice { is_none result ≡ has_path (slice_index_or rows.now n no_row).path (take n rows.now) }
    ensures within { IfSome result (λ at. at ≤ length index.now.order.items) }
    ensures index { IfSome result (λ at. IsIndex rows.now (n + 1) (insert index.now.order.items at n)) }
{
    let row = &rows[n];
    let path = row.path.items();
    let key = path_key(path);
    let place = place_of(rows, index, key, path);
    if stands_at(rows, index, place, key, path) {
        None
    } else {
        Some(place)
    }
}

// The place of a path, of which the key is given too.
fn place_of(rows: &[FileRow], index: &Index, key: u64, path: &[u8]) -> usize
    requires ascend { Ascend rows.now index.now.order.items }
    requires keys { HasKeys rows.now index.now.order.items index.now.keys.items }
    requires key { key ≡ model_path_key path.now }
    ensures { IsPlace rows.now index.now.order.items path.now result }
{
    let mut low = 0;
    let mut high = index.keys.len();
    while low < high {
        let middle = low + (high - low) / 2;
        if comes_before(rows, index, middle, key, path) {
            low = middle + 1;
        } else {
            high = middle;
        }
    }
    low
}

// The path at that place comes before this one. Paths are looked at only where their keys are one.
fn comes_before(rows: &[FileRow], index: &Index, place: usize, key: u64, path: &[u8]) -> bool
    requires ascend { Ascend rows.now index.now.order.items }
    requires keys { HasKeys rows.now index.now.order.items index.now.keys.items }
    requires key { key ≡ model_path_key path.now }
    requires within { place < length index.now.order.items }
    ensures { result ≡ model_is_before (model_path_at rows.now index.now.order.items place) path.now }
{
    let here = index.keys[place];
    if here == key {
        path_at(rows, index, place).cmp(path) == Ordering::Less
    } else {
        here < key
    }
}

// The path stands at that place.
fn stands_at(rows: &[FileRow], index: &Index, place: usize, key: u64, path: &[u8]) -> bool
    requires ascend { Ascend rows.now index.now.order.items }
    requires keys { HasKeys rows.now index.now.order.items index.now.keys.items }
    requires key { key ≡ model_path_key path.now }
    ensures there { result ≡ true → (place < length index.now.order.items) × (model_path_at rows.now index.now.order.items place ≡ path.now) }
    ensures absent { result ≡ false → place < length index.now.order.items → model_path_at rows.now index.now.order.items place ≢ path.now }
{
    place < index.keys.len() && index.keys[place] == key && path_at(rows, index, place) == path
}

// The path at a place of an index.
fn path_at<'a>(rows: &'a [FileRow], index: &Index, place: usize) -> &'a [u8]
    requires ascend { Ascend rows.now index.now.order.items }
    requires within { place < length index.now.order.items }
    ensures { result.now ≡ model_path_at rows.now index.now.order.items place }
{
    let row = &rows[index.order[place] as usize];
    row.path.items()
}

// The key of a path: its last eight bytes as a number, or all of them where it has fewer.
fn path_key(path: &[u8]) -> u64
    ensures { result ≡ model_path_key path.now }
{
    let last = &path[path.len().saturating_sub(8)..];
    let mut key = 0u64;
    for byte in last {
        key = key << 8 | *byte as u64;
    }
    key
}
