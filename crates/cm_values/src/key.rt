// The keys of a table: each has a name, the kind of its value, and says when the table must have it.

/// What a value ought to be.
#[derive(Clone, Copy)]
pub enum Kind {
    /// A text.
    Text,
    /// One of these texts.
    Word(&'static [&'static str]),
    /// A boolean.
    Flag,
    /// A whole number from the first to the second one.
    Number { low: u32, high: u32 },
    /// An id, or an array of four.
    Ids,
    /// An array of ids.
    Groups,
    /// An array of extents, each an array of three numbers.
    Extents,
    /// An array of texts.
    Texts,
    /// An array.
    Rows,
    /// A table.
    Section,
}

/// When a table must have a key.
#[derive(Clone, Copy)]
pub enum Need {
    /// Always.
    Required,
    /// Never.
    Optional,
    /// Where it has this other key.
    Beside(&'static str),
}

/// A key that a table may have: its name, the kind of its value, and when the table must have it.
#[derive(Clone, Copy)]
pub struct Key(pub &'static str, pub Kind, pub Need);
