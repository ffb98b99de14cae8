// What the texts give that are written to the map files and the setgroups file of a process (user_namespaces(7)).
ghost use Rattle.std.specs.Prelude.{◌≡◌, map};
ghost use Rattle.cm_base.specs.Outcome.{OrNoMemory};
ghost use Rattle.model_strace.specs.Files.{extent_of, written_extents, written_word};
ghost use Rattle.model_text.specs.Cut.{tokens_of};
ghost use Rattle.model_text.specs.Token.{number_token};

use cm_base::NoMemory;
use cm_idmap::Extent;
use cm_lines::next_line;
use cm_state::Extents;
use cm_strace_text::before_mark;
use cm_tokens::{next_token, read_number, read_word};
use std::alloc::Global;

/// The extents of a text that is written to a map file, one on each line. None exactly where a line isn't three
/// numbers. It fails only where memory runs out.
pub fn read_extents(alloc: Global, text: &[u8]) -> Result<Option<Extents>, NoMemory>
    ensures { OrNoMemory result (λ extents. extents ≡ written_extents text.now) }
{
    let mut list = Vec::new(alloc);
    let mut rest = text;
    while let Some((line, after)) = next_line(rest) {
        let Some(extent) = read_extent(line) else {
            return Ok(None);
        };
        list.push(extent)?;
        rest = after;
    }
    Ok(Some(Extents::from_vec(list)))
}

// The extent of a line: the first id inside, the first outside, and how many.
fn read_extent(line: &[u8]) -> Option<Extent>
    ensures { result ≡ extent_of (map number_token (tokens_of line.now)) }
{
    let (first, rest) = next_token(line)?;
    let (second, rest) = next_token(rest)?;
    let (third, rest) = next_token(rest)?;
    if next_token(rest).is_some() {
        return None;
    }
    let inside = read_number(first)?;
    let outside = read_number(second)?;
    let length = read_number(third)?;
    Some(Extent {
        inside,
        outside,
        length,
    })
}

/// The word of a text that is written to a setgroups file, which a LF may follow: "deny" where it is true, else
/// "allow". None exactly where it is none of them.
pub fn read_written_word(text: &[u8]) -> Option<bool>
    ensures { result ≡ written_word text.now }
{
    match before_mark(b"\n", text) {
        Some(word) => read_word(word),
        None => read_word(text),
    }
}
