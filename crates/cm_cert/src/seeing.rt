// What rows keep by their types. The functions do nothing but look at the parts, of which a proof knows from there what
// they keep.
ghost use Rattle.std.specs.Prelude.{All};
ghost use Rattle.model_cert.specs.Laws.{HasLawfulSets};

use cm_box::BoxRow;

// Each of the rows has lawful sets.
pub(crate) fn see_rows(rows: &[BoxRow])
    ensures { All HasLawfulSets rows.now }
{
    for row in rows {
        see_row(row);
    }
}

// The row has lawful sets.
fn see_row(row: &BoxRow)
    ensures { HasLawfulSets row.now }
{
    row.u.intervals();
    row.eu.intervals();
    row.fu.intervals();
    row.g.intervals();
    row.eg.intervals();
    row.fg.intervals();
    row.s.intervals();
    row.mu.intervals();
    row.mg.intervals();
    row.p.0.bits();
    row.i.0.bits();
    row.b.0.bits();
}
