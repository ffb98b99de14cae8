// What a certificate comes to.
use cm_box::Rule;

/// What `check` answers. Rows go by number: space n has row 2n, and row 2n + 1 for members in later spaces below it.
#[derive(Clone, Copy, Debug, PartialEq, Eq)]
pub enum Checked {
    /// The first row that lacks what a member has now, or an outside id of its space's maps.
    NotStart(u32),
    /// The first rule and row at which the bounds aren't closed, by rule and then by row.
    NotClosed { rule: Rule, row: u32 },
    /// The first row by which the bounds meet the right.
    Meets(u32),
    /// The bounds hold what the members have now, are closed, and don't meet the right: no member ever holds it.
    Holds,
}
