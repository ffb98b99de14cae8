// The limits of a text that is cut into lines.

/// The limit that a line is past: that of lines, or that of the whole text.
#[derive(Clone, Copy, Debug, PartialEq, Eq)]
pub enum Past {
    Line,
    Whole,
}
