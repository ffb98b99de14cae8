// What rows keep by their types. The functions do nothing but look at the parts, of which a proof knows from there what
// they keep.
ghost use Rattle.std.specs.Prelude.{All};
ghost use Rattle.model_verdict.specs.Rows.{IsRow};

use cm_box::BoxRow;

// Each set of ids in the rows is written in the one way.
pub(crate) fn see_rows(rows: &[BoxRow])
    ensures { All IsRow rows.now }
{
    for row in rows {
        see_row(row);
    }
}

// The same of one row.
fn see_row(row: &BoxRow)
    ensures { IsRow row.now }
{
    row.u.intervals();
    row.eu.intervals();
    row.fu.intervals();
    row.g.intervals();
    row.eg.intervals();
    row.fg.intervals();
    row.s.intervals();
    row.mu.intervals();
    row.mg.intervals();
}
