// The arguments of the calls that have a list: ids of groups, triples of numbers of a map, and kinds of a filter. A
// list is read in one pass.
ghost use Rattle.std.specs.Prelude.{◌≡◌, ◌+◌, ◌<◌, ◌≤◌, IfOk, IfSome, length, option_map};
ghost use Rattle.cm_script.specs.Lines.{IsTold};
ghost use Rattle.cm_filter.specs.Filters.{no_filter};
ghost use Rattle.cm_script.specs.Steps.{arguments_in, and_make, next_told, ids_told, kinds_told, extent_or_end, extents_told};
ghost use Rattle.model_text.specs.Token.{kind_token, number_token};

use crate::error::LineError;
use crate::parts::next_argument;
use cm_base::LineFault;
use cm_filter::{CallKind, Filter};
use cm_idmap::Extent;
use cm_tokens::{read_id, read_number};
use std::alloc::Global;

/// The ids of all arguments in a text.
pub(crate) fn read_ids(alloc: Global, text: &[u8]) -> Result<Vec<u32>, LineError>
    requires { length text.now < 4294967295 }
    ensures { IsTold (λ ids. ids.items) result (ids_told 0 (arguments_in text.now)) }
{
    let mut ids = Vec::new(alloc);
    let mut place = 0;
    let mut rest = text;
    while let Some((token, after)) = next_argument(rest) {
        let Some(id) = read_id(token) else {
            return Err(LineError::Bad(LineFault::Argument(place + 1)));
        };
        ids.push(id)?;
        place += 1;
        rest = after;
    }
    Ok(ids)
}

/// The filter that excludes the calls that all arguments in a text name.
pub(crate) fn read_kinds(text: &[u8]) -> Result<Filter, LineError>
    requires { length text.now < 4294967295 }
    ensures { IsTold (λ filter. filter) result (kinds_told no_filter 0 (arguments_in text.now)) }
{
    let mut filter = Filter::none();
    let mut place = 0;
    let mut rest = text;
    while let Some((token, after)) = next_argument(rest) {
        let Some(kind) = read_kind(token) else {
            return Err(LineError::Bad(LineFault::Argument(place + 1)));
        };
        filter = filter.excluding(kind);
        place += 1;
        rest = after;
    }
    Ok(filter)
}

// The kind of the call of that name, where a filter that is installed can exclude it: each but exit (choice).
fn read_kind(name: &[u8]) -> Option<CallKind>
    ensures { result ≡ kind_token name.now }
{
    match CallKind::from_name(name) {
        Some(CallKind::Exit) => None,
        named => named,
    }
}

/// The extents of all arguments in a text, which has those from place 1 on.
pub(crate) fn read_extents(alloc: Global, text: &[u8]) -> Result<Vec<Extent>, LineError>
    requires { length text.now < 4294967292 }
    ensures { IsTold (λ list. list.items) result (extents_told 1 (arguments_in text.now)) }
{
    let mut list = Vec::new(alloc);
    let mut place = 1;
    let mut rest = text;
    'triples: loop {
        match next_extent(rest, place) {
            Err(why) => return Err(LineError::Bad(why)),
            Ok(None) => return Ok(list),
            Ok(Some((extent, after))) => {
                list.push(extent)?;
                place += 3;
                rest = after;
            }
        }
    }
}

// The extent that the next three arguments tell, and what follows them. None exactly where there is no argument left.
fn next_extent(text: &[u8], place: u32) -> Result<Option<(Extent, &[u8])>, LineFault>
    requires { place < 4294967293 }
    ensures told { and_make (option_map (λ p. (p.0, arguments_in p.1.now))) result ≡ extent_or_end place (arguments_in text.now) }
    ensures shorter { IfOk result (λ read. IfSome read (λ p. length p.1.now + 3 ≤ length text.now)) }
{
    let Some((first, rest)) = next_argument(text) else {
        return Ok(None);
    };
    let Some(inside) = read_number(first) else {
        return Err(LineFault::Argument(place + 1));
    };
    let (outside, rest) = next_number(rest, place + 1)?;
    let (length, rest) = next_number(rest, place + 2)?;
    let extent = Extent {
        inside,
        outside,
        length,
    };
    Ok(Some((extent, rest)))
}

// The number that the next argument tells, and what follows it.
fn next_number(text: &[u8], place: u32) -> Result<(u32, &[u8]), LineFault>
    requires { place < 4294967295 }
    ensures told { and_make (λ p. (p.0, arguments_in p.1.now)) result ≡ next_told number_token place (arguments_in text.now) }
    ensures shorter { IfOk result (λ p. length p.1.now < length text.now) }
{
    let Some((token, rest)) = next_argument(text) else {
        return Err(LineFault::Argument(place + 1));
    };
    match read_number(token) {
        Some(number) => Ok((number, rest)),
        None => Err(LineFault::Argument(place + 1)),
    }
}
