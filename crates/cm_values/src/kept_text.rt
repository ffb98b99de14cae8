// The texts of declared names and paths, as mounts and files keep them.
ghost use Rattle.std.specs.Prelude.{◌≡◌};
ghost use Rattle.cm_base.specs.Outcome.{OrNoMemory};

use cm_base::NoMemory;
use cm_files::Text;
use std::alloc::Global;

/// The same text. It fails only where memory runs out.
pub fn kept(alloc: Global, text: &str) -> Result<Text, NoMemory>
    ensures { OrNoMemory result (λ kept. kept ≡ text.now) }
{
    Ok(Text::from_string(String::from_str(alloc, text)?))
}
