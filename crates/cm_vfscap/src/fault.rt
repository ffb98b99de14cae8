// Why bytes are no attribute.

/// Why bytes are no attribute that is known here.
#[derive(Clone, Copy, Debug, PartialEq, Eq)]
pub enum BadCap {
    /// They are this many, neither the 20 of version 2 nor the 24 of version 3.
    Size(usize),
    /// Their first word is this, and without its effective bit it isn't that of the version of their number.
    Version(u32),
}
