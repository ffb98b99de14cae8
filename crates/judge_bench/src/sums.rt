// Numbers by which bounds are compared with those of another program.
use cm_box::{Bounds, BoxRow};
use std::fmt;

// Over all rows: of each set of ids how many it holds, of each set of capabilities the sum of its words, of each flag how
// many rows have it. Sums go round at 2^64.
#[derive(Default, Drop)]
pub(crate) struct Sums {
    u: u64,
    eu: u64,
    fu: u64,
    g: u64,
    eg: u64,
    fg: u64,
    s: u64,
    mu: u64,
    mg: u64,
    p: u64,
    i: u64,
    b: u64,
    n: u64,
    r: u64,
    k: u64,
}

impl Sums {
    fn add(&mut self, row: &BoxRow) {
        self.u = self.u.wrapping_add(row.u.size());
        self.eu = self.eu.wrapping_add(row.eu.size());
        self.fu = self.fu.wrapping_add(row.fu.size());
        self.g = self.g.wrapping_add(row.g.size());
        self.eg = self.eg.wrapping_add(row.eg.size());
        self.fg = self.fg.wrapping_add(row.fg.size());
        self.s = self.s.wrapping_add(row.s.size());
        self.mu = self.mu.wrapping_add(row.mu.size());
        self.mg = self.mg.wrapping_add(row.mg.size());
        self.p = self.p.wrapping_add(row.p.0.bits());
        self.i = self.i.wrapping_add(row.i.0.bits());
        self.b = self.b.wrapping_add(row.b.0.bits());
        self.n = self.n.wrapping_add(u64::from(row.n.0));
        self.r = self.r.wrapping_add(u64::from(row.r.0));
        self.k = self.k.wrapping_add(u64::from(row.k.0));
    }
}

// Those of bounds.
pub(crate) fn sums_of(b: &Bounds) -> Sums {
    let mut sums = Sums::default();
    for row in b.rows.items() {
        sums.add(row);
    }
    sums
}

impl fmt::Display for Sums {
    fn fmt<W: fmt::Write>(&self, f: &mut fmt::Formatter<W>) -> fmt::Result {
        let (u, eu, fu) = (self.u, self.eu, self.fu);
        let (g, eg, fg) = (self.g, self.eg, self.fg);
        let (s, mu, mg) = (self.s, self.mu, self.mg);
        let (p, i, b) = (self.p, self.i, self.b);
        let (n, r, k) = (self.n, self.r, self.k);
        write!(f, "u {u} {eu} {fu} g {g} {eg} {fg} s {s} m {mu} {mg}")?;
        write!(f, " p {p} {i} {b} n {n} {r} {k}")
    }
}
