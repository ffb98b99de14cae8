// Lists of ids: [ID, ID], or NULL for none.
ghost use Rattle.std.specs.Prelude.{◌≡◌, option_map};
ghost use Rattle.cm_base.specs.Outcome.{OrNoMemory};
ghost use Rattle.cm_strace_text.specs.Depths.{arguments_in};
ghost use Rattle.model_strace.specs.Numbers.{ids_of, id_list};

use cm_base::NoMemory;
use cm_strace_text::{bracketed_whole, next_argument, read_arguments};
use cm_tokens::read_id;
use std::alloc::Global;

/// The ids of a list. None exactly where the text is no list of ids.
pub fn read_id_list(alloc: Global, text: &[u8]) -> Result<Option<Vec<u32>>, NoMemory>
    ensures { OrNoMemory result (λ read. option_map (λ ids. ids.items) read ≡ id_list text.now) }
{
    if text == b"NULL".as_slice() {
        return Ok(Some(Vec::new(alloc)));
    }
    match bracketed_whole(b"[", b"]", text) {
        Some(inside) => read_ids(alloc, read_arguments(inside)),
        None => Ok(None),
    }
}

// The ids that the items of a list are. None exactly where one of them is no id.
fn read_ids(alloc: Global, items: Option<&[u8]>) -> Result<Option<Vec<u32>>, NoMemory>
    ensures { OrNoMemory result (λ read. option_map (λ ids. ids.items) read ≡ ids_of (arguments_in items.entry)) }
{
    let mut ids = Vec::new(alloc);
    let mut left = items;
    while let Some((item, rest)) = next_argument(left) {
        let Some(id) = read_id(item) else {
            return Ok(None);
        };
        ids.push(id)?;
        left = rest;
    }
    Ok(Some(ids))
}
