// The token of a user namespace, written at the end of a buffer.
ghost use Rattle.cm_base.specs.Outcome.{OrNoMemory};
ghost use Rattle.cm_tokens.specs.Pieces.{Appends};
ghost use Rattle.model_text.specs.SpaceToken.{space_token};

use crate::Names;
use cm_base::{NoMemory, SpaceId};
use cm_tokens::{put, put_decimal};

/// The token of a user namespace: its name, or `#` and its number where it has none. Where there is no memory, what the
/// buffer holds isn't said.
#[inline]
pub fn put_space(text: &mut Vec<u8>, space: SpaceId, names: &Names) -> Result<(), NoMemory>
    ensures { OrNoMemory result (λ _. Appends text.old.items text.new.items (space_token names.now space.0)) }
{
    match names.name(space) {
        Some(name) => put(text, name.as_bytes()),
        None => {
            put(text, b"#")?;
            put_decimal(text, space.0 as u64)
        }
    }
}
