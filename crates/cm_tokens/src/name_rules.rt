// The rules of declared names and paths (choice).
ghost use Rattle.std.specs.Prelude.{◌≡◌};
ghost use Rattle.std.specs.List.{list_all};
ghost use Rattle.model_text.specs.NameText.{is_name, is_name_byte, is_path, is_path_byte};

/// 1 to 32 letters, digits, `_`, `-` or `.`, and not `init`.
#[tactic(auto, unfolding(model_text::specs::NameText::is_name))]
pub fn is_name(text: &[u8]) -> bool
    ensures { result ≡ is_name text.now }
{
    1 <= text.len() && text.len() <= 32 && are_name_bytes(text) && text != b"init".as_slice()
}

/// 1 to 4,095 bytes above the blank without DEL, and not `-` or `=`.
#[tactic(auto, unfolding(model_text::specs::NameText::is_path))]
pub fn is_path(text: &[u8]) -> bool
    ensures { result ≡ is_path text.now }
{
    1 <= text.len()
        && text.len() <= 4095
        && are_path_bytes(text)
        && text != b"-".as_slice()
        && text != b"=".as_slice()
}

/// Letters, digits, `_`, `-` or `.` alone.
fn are_name_bytes(text: &[u8]) -> bool
    ensures { result ≡ list_all is_name_byte text.now }
{
    text.iter().all(|byte| is_name_byte(*byte))
}

/// A letter, a digit, `_`, `-` or `.`.
fn is_name_byte(byte: u8) -> bool
    ensures { result ≡ is_name_byte byte }
{
    (b'A' <= byte && byte <= b'Z')
        || (b'a' <= byte && byte <= b'z')
        || (b'0' <= byte && byte <= b'9')
        || byte == b'_'
        || byte == b'-'
        || byte == b'.'
}

/// Bytes above the blank alone, and no DEL.
fn are_path_bytes(text: &[u8]) -> bool
    ensures { result ≡ list_all is_path_byte text.now }
{
    text.iter().all(|byte| is_path_byte(*byte))
}

/// A byte above the blank that isn't DEL.
fn is_path_byte(byte: u8) -> bool
    ensures { result ≡ is_path_byte byte }
{
    0x21 <= byte && byte != 0x7f
}
