// The reading of certificates, whose time is taken: by serde_json alone, and as bounds.
ghost use Rattle.std.specs.Prelude.{◌<◌, ◌^◌};

use cm_base::NoMemory;
use cm_cert::{BadCert, read_bounds};
use serde_json::Value;
use serde_json::error::Category;
use std::alloc::Global;

/// What a text comes to.
#[derive(Clone, Copy, Debug, PartialEq, Eq)]
pub(crate) enum Text {
    /// A value, or bounds.
    Read,
    /// None.
    Refused,
}

/// Whether serde_json reads the text as a value.
pub(crate) fn as_value(alloc: Global, text: &[u8]) -> Result<Text, NoMemory> {
    match Value::from_slice(alloc, text) {
        Ok(_) => Ok(Text::Read),
        Err(e) if e.classify() == Category::Memory => Err(NoMemory),
        Err(_) => Ok(Text::Refused),
    }
}

/// Whether it is read as the bounds of so many spaces.
pub(crate) fn as_bounds(alloc: Global, text: &[u8], spaces: u32) -> Result<Text, NoMemory>
    requires { spaces < 2 ^ 31 }
{
    match read_bounds(alloc, text, spaces) {
        Ok(_) => Ok(Text::Read),
        Err(BadCert::NoMemory) => Err(NoMemory),
        Err(_) => Ok(Text::Refused),
    }
}
