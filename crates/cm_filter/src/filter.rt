// Filters of calls: sets of kinds that are excluded, as seccomp(2) lets a process exclude calls (choice).
ghost use Rattle.std.specs.Prelude.{◌≡◌, ◌<◌, ◌≤◌, ◌^◌, map, position, fold, is_none, IfOk, IfErr, Ok, Err, length, IfSome};
ghost use Rattle.std.specs.String.{string_bytes};
ghost use Rattle.cm_filter.specs.Kinds.{kind_number, kind_named};
ghost use Rattle.cm_filter.specs.Filters.{permits, excluding, excluding_named, no_filter, every_kind};
ghost use Rattle.cm_filter.specs.Filters.{either, both, permitting, filter_of, filter_of_names};

use crate::CallKind;
use crate::kind::KIND_COUNT;
use std::marker::Model;

/// A set of kinds of calls that are excluded: bit k tells of the kind with number k, in the order of the kinds (choice).
#[derive(Clone, Copy, Debug, PartialEq, Eq)]
pub struct Filter(u32);

impl Model for Filter {
    ghost use Rattle.std.specs.Prelude.{ℕ, ◌<◌, ◌^◌};
    ghost use Rattle.cm_filter.specs.Kinds.{kind_count};

    ghost Value = { ℕ };

    ghost view = { λ f. f.0 };

    ghost invariant = { λ f. f.0 < 2 ^ kind_count };

    ghost inverse = { λ n. record { 0 = n } };
}

/// The place, from 0 on, of the first name that is none of the 27 calls'.
#[derive(Clone, Copy, Debug, PartialEq, Eq)]
pub struct NoSuchCall(pub usize);

#[tactic(auto, using(crate::proofs::Bits::filter_bits))]
impl Filter {
    /// The filter that excludes no call.
    pub fn none() -> Filter
        ensures { result ≡ no_filter }
    {
        Filter(0)
    }

    /// The filter doesn't exclude calls of the kind.
    pub fn permits(self, k: CallKind) -> bool
        ensures { result ≡ permits self k }
    {
        self.0 >> k.number() & 1 != 1
    }

    /// The filter that excludes every call.
    pub fn every_kind() -> Filter
        ensures { result ≡ every_kind }
    {
        Filter((1 << KIND_COUNT) - 1)
    }

    /// The filter that excludes what either excludes, as where a process installs one more (seccomp(2)).
    pub fn with(self, other: Filter) -> Filter
        ensures { result ≡ either self other }
    {
        Filter(self.0 | other.0)
    }

    /// The filter that excludes what both exclude.
    pub fn shared(self, other: Filter) -> Filter
        ensures { result ≡ both self other }
    {
        Filter(self.0 & other.0)
    }

    /// The filter without the exclusion of the kind.
    pub fn permitting(self, k: CallKind) -> Filter
        ensures { result ≡ permitting self k }
    {
        let excluded = self.0 & 1 << k.number();
        Filter(self.0 ^ excluded)
    }

    /// The filter that excludes the calls of these names, repeats included. NoSuchCall of the place of the first that is
    /// none of the 27 names.
    #[tactic(auto, using(crate::proofs::Names::position_map))]
    pub fn read(names: &[String]) -> Result<Filter, NoSuchCall>
        ensures read { IfOk result (λ f. filter_of_names (map string_bytes names.now) ≡ Ok f) }
        ensures unknown { IfErr result (λ e. filter_of_names (map string_bytes names.now) ≡ Err e.0) }
    {
        match first_unknown(names) {
            Some(place) => Err(NoSuchCall(place)),
            None => Ok(filter_of(names)),
        }
    }

    /// The filter that excludes the kind too.
    pub fn excluding(self, k: CallKind) -> Filter
        ensures { result ≡ excluding self k }
    {
        Filter(self.0 | 1 << k.number())
    }
}

/// The place of the first name that names no call.
fn first_unknown(names: &[String]) -> Option<usize>
    ensures { result ≡ position (λ name. is_none (kind_named (string_bytes name))) names.now }
{
    names
        .iter()
        .position(|name| CallKind::from_name(name.as_bytes()).is_none())
}

/// The filter that excludes the calls of those names that name one.
fn filter_of(names: &[String]) -> Filter
    ensures { result ≡ filter_of (map string_bytes names.now) }
{
    let mut filter = Filter::none();
    for name in names {
        filter = excluding_named(filter, name.as_bytes());
    }
    filter
}

/// The filter that excludes the call of the name too; the filter itself where it names none.
fn excluding_named(filter: Filter, name: &[u8]) -> Filter
    ensures { result ≡ excluding_named filter name.now }
{
    match CallKind::from_name(name) {
        Some(kind) => filter.excluding(kind),
        None => filter,
    }
}
