use crate::{CapSet, Flag, RevFlag, SetLike, each_within_the_other};
use cm_base::{Cap, CapWord};
use std::alloc::Global;
use std::process::Abort;

// Two sets and what they come to: their union, what they have in common, whether the first is within the second, and
// whether a bound holds what they have in common.
#[derive(Drop)]
struct Row<S> {
    one: S,
    other: S,
    union: S,
    common: S,
    within: bool,
    bound: S,
    bounded: bool,
}

// Whether the two sets of a row come to what it says, by the calls of the trait alone.
fn agrees<S: SetLike + PartialEq + Drop>(rt: &impl Abort, alloc: Global, row: &Row<S>) -> bool {
    let union = row
        .one
        .join(alloc, &row.other)
        .expect(rt, "there is memory");
    let common = row
        .one
        .meet(alloc, &row.other)
        .expect(rt, "there is memory");
    union == row.union
        && common == row.common
        && row.one.within(&row.other) == row.within
        && row.one.disjoint(&row.other) == row.common.is_empty()
        && row.one.meet_within(&row.other, &row.bound) == row.bounded
}

fn caps(bits: u64) -> CapSet {
    CapSet(CapWord::from_bits(bits))
}

// The members of each set are the bits of its number, from the right: 0b0110 is the set of 1 and 2.
#[test]
fn sets_of_capabilities(rt: HostRuntime) {
    let rows = [
        Row {
            one: caps(0),
            other: caps(0),
            union: caps(0),
            common: caps(0),
            within: true,
            bound: caps(0),
            bounded: true,
        },
        Row {
            one: caps(0b0110),
            other: caps(0b1100),
            union: caps(0b1110),
            common: caps(0b0100),
            within: false,
            bound: caps(0b1011),
            bounded: false,
        },
        Row {
            one: caps(0x100_0000_0000),
            other: caps(0x100_0000_0001),
            union: caps(0x100_0000_0001),
            common: caps(0x100_0000_0000),
            within: true,
            bound: caps(0x100_0000_0000),
            bounded: true,
        },
        Row {
            one: caps(0b01),
            other: caps(0b10),
            union: caps(0b11),
            common: caps(0),
            within: false,
            bound: caps(0),
            bounded: true,
        },
    ];
    for row in &rows {
        assert!(rt;
            agrees(&rt, rt.alloc(), row),
            "{:?} and {:?}",
            row.one,
            row.other
        );
    }
    assert!(rt; rows[1].one.holds(&Cap::new(2).expect(&rt, "a capability")));
    assert!(rt; !rows[1].one.holds(&Cap::new(3).expect(&rt, "a capability")));
}

#[test]
fn flags_hold_their_unit_where_true(rt: HostRuntime) {
    let rows = [
        (false, false, false, false, true),
        (false, true, true, false, true),
        (true, false, true, false, false),
        (true, true, true, true, true),
    ];
    for (one, other, union, common, within) in rows {
        let row = Row {
            one: Flag(one),
            other: Flag(other),
            union: Flag(union),
            common: Flag(common),
            within,
            bound: Flag(false),
            bounded: !common,
        };
        assert!(rt; agrees(&rt, rt.alloc(), &row), "{one} and {other}");
    }
    assert!(rt; Flag(true).holds(&()) && !Flag(false).holds(&()));
}

#[test]
fn reversed_flags_hold_their_unit_where_false(rt: HostRuntime) {
    let rows = [
        (true, true, true, true, true),
        (true, false, false, true, true),
        (false, true, false, true, false),
        (false, false, false, false, true),
    ];
    for (one, other, union, common, within) in rows {
        let row = Row {
            one: RevFlag(one),
            other: RevFlag(other),
            union: RevFlag(union),
            common: RevFlag(common),
            within,
            bound: RevFlag(true),
            bounded: common,
        };
        assert!(rt; agrees(&rt, rt.alloc(), &row), "{one} and {other}");
    }
    assert!(rt; RevFlag(false).holds(&()) && !RevFlag(true).holds(&()));
    each_within_the_other::<RevFlag>();
}
