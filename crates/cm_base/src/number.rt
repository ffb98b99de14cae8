// Numbers as the texts of worlds and logs spell them.
ghost use Rattle.std.specs.Prelude.{◌≡◌, ◌≤◌};
ghost use Rattle.cm_base.specs.Number.{read_decimal, read_octal_of, number_in};

/// Why a text is no number.
#[derive(Clone, Copy, Debug, PartialEq, Eq)]
pub enum BadNumber {
    /// It is empty, or has another byte than a digit.
    NotNumber,
    /// It is past 4294967295.
    TooLarge,
}

/// The number that decimal digits spell, leading zeros included.
/// `NotNumber` where the text is empty or has another byte than a digit; else `TooLarge` past 4294967295.
pub fn read_u32(text: &[u8]) -> Result<u32, BadNumber>
    ensures { result ≡ read_decimal text.now }
{
    number_of(10, text)
}

/// The same of octal digits.
pub fn read_octal(text: &[u8]) -> Result<u32, BadNumber>
    ensures { result ≡ read_octal_of text.now }
{
    number_of(8, text)
}

// Past every number that a text may spell; the value stands still here, so that it can't wrap.
const PAST: u64 = 4_294_967_296;

// The number in a base of at most ten digits.
fn number_of(base: u32, text: &[u8]) -> Result<u32, BadNumber>
    requires { (2 ≤ base) × (base ≤ 10) }
    ensures { result ≡ number_in base text.now }
{
    if text.is_empty() {
        return Err(BadNumber::NotNumber);
    }
    let mut value: u64 = 0;
    for byte in text {
        if *byte < b'0' || u32::from(*byte) >= 48 + base {
            return Err(BadNumber::NotNumber);
        }
        value = (u64::from(base) * value + u64::from(*byte - b'0')).min(PAST);
    }
    if value >= PAST {
        return Err(BadNumber::TooLarge);
    }
    Ok(value as u32)
}
