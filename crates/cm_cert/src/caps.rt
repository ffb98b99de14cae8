// Sets of capabilities as texts of 16 hexadecimal digits in lower case.
ghost use Rattle.std.specs.Prelude.{◌≡◌, string_bytes};
ghost use Rattle.cm_base.specs.Outcome.{OrNoMemory};
ghost use Rattle.model_cert.specs.Sets.{set_of};
ghost use Rattle.model_cert.specs.Written.{caps_data};
ghost use Rattle.model_text.specs.Hex.{hex_set};
ghost use Rattle.serde_json.specs.View.{view};

use cm_base::{CapWord, NoMemory};
use cm_tokens::{put_hex16, read_cap_text};
use serde_json::Value;
use std::alloc::Global;

// The set whose 16 digits the text is, None where it is no such text.
#[tactic(auto, unfolding(model_cert::specs::Sets::set_of))]
pub(crate) fn set_of(alloc: Global, text: &[u8]) -> Result<Option<CapWord>, NoMemory>
    ensures { OrNoMemory result (λ set. set ≡ set_of text.now) }
{
    let Some(set) = read_cap_text(text) else {
        return Ok(None);
    };
    let digits = digits(alloc, set)?;
    if text == digits.as_slice() {
        Ok(Some(set))
    } else {
        Ok(None)
    }
}

// A set as a value. Its only error is out of memory.
pub(crate) fn caps_value(alloc: Global, set: CapWord) -> Result<Value, NoMemory>
    ensures { OrNoMemory result (λ v. view v ≡ caps_data set) }
{
    let digits = digits(alloc, set)?;
    let text = String::from_utf8(digits).unwrap();
    Ok(Value::from(text))
}

// The 16 digits of a set.
fn digits(alloc: Global, set: CapWord) -> Result<Vec<u8>, NoMemory>
    ensures { OrNoMemory result (λ text. text.items ≡ hex_set set) }
{
    let mut text = Vec::with_capacity(alloc, 16)?;
    put_hex16(&mut text, set.bits())?;
    Ok(text)
}
