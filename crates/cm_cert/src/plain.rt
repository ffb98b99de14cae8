// A row as it was read, before it is known that its sets ascend.
ghost use Rattle.std.specs.Prelude.{◌≡◌, if◌then◌else◌, Some, None};
ghost use Rattle.model_cert.specs.Row.{three_ascend, sets_ascend};

use cm_base::CapWord;
use cm_box::BoxRow;
use cm_idset::{IdSet, Interval};
use cm_sets::{CapSet, Flag, RevFlag};
use std::marker::Model;

// The parts of a row, with lists for its sets of ids.
#[derive(Debug, Drop)]
pub(crate) struct PlainRow {
    pub(crate) u: Vec<Interval>,
    pub(crate) eu: Vec<Interval>,
    pub(crate) fu: Vec<Interval>,
    pub(crate) g: Vec<Interval>,
    pub(crate) eg: Vec<Interval>,
    pub(crate) fg: Vec<Interval>,
    pub(crate) s: Vec<Interval>,
    pub(crate) mu: Vec<Interval>,
    pub(crate) mg: Vec<Interval>,
    pub(crate) p: CapWord,
    pub(crate) i: CapWord,
    pub(crate) b: CapWord,
    pub(crate) n: bool,
    pub(crate) r: bool,
    pub(crate) k: bool,
}

impl Model for PlainRow {
    ghost use Rattle.model_box.specs.Bounds as model;

    ghost Value = { model.BoxRow };

    ghost view = { λ row. record {
      uids = row.u.items;
      effective_uids = row.eu.items;
      fs_uids = row.fu.items;
      gids = row.g.items;
      effective_gids = row.eg.items;
      fs_gids = row.fg.items;
      groups = row.s.items;
      mapped_uids = row.mu.items;
      mapped_gids = row.mg.items;
      permitted = row.p;
      inheritable = row.i;
      bounding = row.b;
      no_new_privs = row.n;
      root_counts = row.r;
      lock_clear = row.k;
    } };
}

impl PlainRow {
    // The row, None exactly where one of its sets doesn't ascend. It takes no memory.
    pub(crate) fn ordered(self) -> Option<BoxRow>
        ensures { result ≡ (if sets_ascend self then Some self else None) }
    {
        let (u, eu, fu) = three_sets(self.u, self.eu, self.fu)?;
        let (g, eg, fg) = three_sets(self.g, self.eg, self.fg)?;
        let (s, mu, mg) = three_sets(self.s, self.mu, self.mg)?;
        Some(BoxRow {
            u,
            eu,
            fu,
            g,
            eg,
            fg,
            s,
            mu,
            mg,
            p: CapSet(self.p),
            i: CapSet(self.i),
            b: CapSet(self.b),
            n: RevFlag(self.n),
            r: Flag(self.r),
            k: Flag(self.k),
        })
    }
}

// The sets with these intervals, None exactly where the intervals of one don't ascend.
fn three_sets(a: Vec<Interval>, b: Vec<Interval>, c: Vec<Interval>) -> Option<(IdSet, IdSet, IdSet)>
    ensures { result ≡ (if three_ascend a.items b.items c.items then Some (a.items, b.items, c.items) else None) }
{
    let a = IdSet::from_list(a)?;
    let b = IdSet::from_list(b)?;
    let c = IdSet::from_list(c)?;
    Some((a, b, c))
}
