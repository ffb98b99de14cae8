// A row of bounds: the sets of what the members that stand in one space, or in later spaces below it, can hold.
ghost use Rattle.std.specs.Prelude.{◌≡◌};
ghost use Rattle.model_box.specs.Bounds.{no_row};

use cm_base::CapWord;
use cm_idset::IdSet;
use cm_sets::{CapSet, Flag, RevFlag};
use std::alloc::Global;
use std::marker::Model;

/// What the members of a row can hold. `u` bounds the real, effective and saved user ids, `eu` the effective ones, `fu`
/// the fs ones; `g`, `eg` and `fg` the group ids alike; `s` the supplementary groups; `mu` and `mg` the ids that are or
/// may be mapped; `p`, `i` and `b` the permitted, inheritable and bounding sets. `n` is true where all members have
/// no_new_privs, `r` where SECBIT_NOROOT may be clear, `k` where its lock may be clear.
#[derive(Debug, Drop)]
pub struct BoxRow {
    pub u: IdSet,
    pub eu: IdSet,
    pub fu: IdSet,
    pub g: IdSet,
    pub eg: IdSet,
    pub fg: IdSet,
    pub s: IdSet,
    pub mu: IdSet,
    pub mg: IdSet,
    pub p: CapSet,
    pub i: CapSet,
    pub b: CapSet,
    pub n: RevFlag,
    pub r: Flag,
    pub k: Flag,
}

impl Model for BoxRow {
    ghost use Rattle.model_box.specs.Bounds as model;

    ghost Value = { model.BoxRow };

    ghost view = { λ row. record {
      uids = row.u;
      effective_uids = row.eu;
      fs_uids = row.fu;
      gids = row.g;
      effective_gids = row.eg;
      fs_gids = row.fg;
      groups = row.s;
      mapped_uids = row.mu;
      mapped_gids = row.mg;
      permitted = row.p.0;
      inheritable = row.i.0;
      bounding = row.b.0;
      no_new_privs = row.n.0;
      root_counts = row.r.0;
      lock_clear = row.k.0;
    } };
}

impl BoxRow {
    /// The least row: it holds nothing. It takes no memory.
    pub fn least(alloc: Global) -> BoxRow
        ensures { result ≡ no_row }
    {
        BoxRow {
            u: IdSet::empty(alloc),
            eu: IdSet::empty(alloc),
            fu: IdSet::empty(alloc),
            g: IdSet::empty(alloc),
            eg: IdSet::empty(alloc),
            fg: IdSet::empty(alloc),
            s: IdSet::empty(alloc),
            mu: IdSet::empty(alloc),
            mg: IdSet::empty(alloc),
            p: CapSet(CapWord::empty()),
            i: CapSet(CapWord::empty()),
            b: CapSet(CapWord::empty()),
            n: RevFlag(true),
            r: Flag(false),
            k: Flag(false),
        }
    }
}
