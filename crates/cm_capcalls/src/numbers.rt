// Capabilities as prctl(2) takes them, by their numbers.
ghost use Rattle.std.specs.Prelude.{◌≡◌, Some, None, nat_lt, if◌then◌else◌};
ghost use Rattle.model_rules.specs.Caps.{last_cap};

use cm_base::Cap;

// The capability of that number, None past the last one.
pub(crate) fn capability(n: u32) -> Option<Cap>
    ensures { result ≡ (if nat_lt last_cap n then None else Some n) }
{
    Cap::new(u8::try_from(n).ok()?)
}
