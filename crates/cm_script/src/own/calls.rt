// Calls as they are written: the name, and the arguments of a call of each kind, read from the front of a text. None
// says nothing of the text: there may have been no memory for a list.
ghost use Rattle.std.specs.Prelude.{◌≡◌, ◌++◌, IfSome, codes};
ghost use Rattle.cm_declared.specs.World.{world_of};
ghost use Rattle.cm_filter.specs.Kinds.{call_name};
ghost use Rattle.cm_filter.specs.Shapes.{shape_of};
ghost use Rattle.cm_script.specs.Own.{TakesCall};
ghost use Rattle.cm_state.specs.Call.{call_of};
ghost use Rattle.model_cred.specs.World as worlds;

use super::arguments::{own_cap, own_file, own_id, own_number, own_set, own_space, own_word};
use super::lists::{after_kinds, named_filter, own_extents, own_ids};
use super::pieces::take_word;
use cm_base::CapWord;
use cm_declared::World;
use cm_filter::{CallKind, Shape};
use cm_state::{Call, Extents, Ids};
use std::alloc::Global;

/// The kind of a call by its name, and what follows that. The names that most lines have are tried first.
#[inline]
pub(crate) fn take_kind(text: &[u8]) -> Option<(CallKind, &[u8])>
    ensures { IfSome result (λ p. text.now ≡ call_name p.0 ++ p.1.now) }
{
    match text {
        [b's', b'e', b't', b'u', b'i', b'd', rest @ ..] => Some((CallKind::SetUid, rest)),
        [b's', b'e', b't', b'g', b'i', b'd', rest @ ..] => Some((CallKind::SetGid, rest)),
        [b's', b'e', b't', b'r', b'e', b's', rest @ ..] => kind_after_setres(rest),
        [b'f', b'o', b'r', b'k', rest @ ..] => Some((CallKind::Fork, rest)),
        [b'e', b'x', b'i', b't', rest @ ..] => Some((CallKind::Exit, rest)),
        _ => named_kind(text),
    }
}

// The same of the two names that begin with `setres`, after that.
#[inline]
fn kind_after_setres(text: &[u8]) -> Option<(CallKind, &[u8])>
    ensures { IfSome result (λ p. codes "setres" ++ text.now ≡ call_name p.0 ++ p.1.now) }
{
    match text {
        [b'u', b'i', b'd', rest @ ..] => Some((CallKind::SetResUid, rest)),
        [b'g', b'i', b'd', rest @ ..] => Some((CallKind::SetResGid, rest)),
        _ => None,
    }
}

// The same of all names.
#[tactic(auto, using(crate::proofs::OwnWords::kind_is_named))]
fn named_kind(text: &[u8]) -> Option<(CallKind, &[u8])>
    ensures { IfSome result (λ p. text.now ≡ call_name p.0 ++ p.1.now) }
{
    let (name, rest) = take_word(text)?;
    let kind = CallKind::from_name(name)?;
    Some((kind, rest))
}

/// The call of that kind with its arguments, and what follows them.
#[inline]
pub(crate) fn take_call<'a>(
    alloc: Global,
    kind: CallKind,
    text: &'a [u8],
    w: &World,
) -> Option<(Call, &'a [u8])>
    ensures { IfSome result (λ p. TakesCall (world_of w.now) kind text.now (call_of p.0) p.1.now) }
{
    match kind.shape() {
        Shape::OneId => {
            let (id, rest) = own_id(text)?;
            Some((Call::with_id(kind, id), rest))
        }
        Shape::TwoIds => take_two(kind, text),
        Shape::ThreeIds => take_three(kind, text),
        Shape::ManyIds => {
            let (ids, rest) = own_ids(alloc, text)?;
            Some((Call::with_ids(kind, Ids::from_vec(ids)), rest))
        }
        Shape::ManyKinds => take_filter(kind, text),
        Shape::ThreeSets => take_sets(kind, text),
        Shape::OneCap => {
            let (cap, rest) = own_cap(text)?;
            Some((Call::with_cap(kind, cap), rest))
        }
        Shape::OneNumber => {
            let (n, rest) = own_number(text)?;
            Some((Call::with_number(kind, n), rest))
        }
        Shape::OneSpace => {
            let (space, rest) = own_space(text, w)?;
            Some((Call::with_space(kind, space), rest))
        }
        Shape::SpaceAndWord => take_word_call(kind, text, w),
        Shape::SpaceAndMap => take_map(alloc, kind, text, w),
        Shape::OneFile => {
            let (file, rest) = own_file(text, w)?;
            Some((Call::with_file(kind, file), rest))
        }
        Shape::Bare => Some((Call::bare(kind), text)),
    }
}

// A call with two ids.
#[inline]
fn take_two(kind: CallKind, text: &[u8]) -> Option<(Call, &[u8])>
    requires { shape_of kind ≡ Shape.TwoIds }
    ensures { (w : worlds.World) → IfSome result (λ p. TakesCall w kind text.now (call_of p.0) p.1.now) }
{
    let (r, rest) = own_id(text)?;
    let (e, rest) = own_id(rest)?;
    Some((Call::with_two_ids(kind, r, e), rest))
}

// A call with three ids.
#[inline]
fn take_three(kind: CallKind, text: &[u8]) -> Option<(Call, &[u8])>
    requires { shape_of kind ≡ Shape.ThreeIds }
    ensures { (w : worlds.World) → IfSome result (λ p. TakesCall w kind text.now (call_of p.0) p.1.now) }
{
    let (r, rest) = own_id(text)?;
    let (e, rest) = own_id(rest)?;
    let (s, rest) = own_id(rest)?;
    Some((Call::with_three_ids(kind, r, e, s), rest))
}

// A call with a filter.
fn take_filter(kind: CallKind, text: &[u8]) -> Option<(Call, &[u8])>
    requires { shape_of kind ≡ Shape.ManyKinds }
    ensures { (w : worlds.World) → IfSome result (λ p. TakesCall w kind text.now (call_of p.0) p.1.now) }
{
    let filter = named_filter(text);
    let rest = after_kinds(text, filter)?;
    Some((Call::with_filter(kind, filter), rest))
}

// A call with three sets.
fn take_sets(kind: CallKind, text: &[u8]) -> Option<(Call, &[u8])>
    requires { shape_of kind ≡ Shape.ThreeSets }
    ensures { (w : worlds.World) → IfSome result (λ p. TakesCall w kind text.now (call_of p.0) p.1.now) }
{
    let (eff, rest) = own_set(text)?;
    let (prm, rest) = own_set(rest)?;
    let (inh, rest) = own_set(rest)?;
    let eff = CapWord::from_bits(eff);
    let prm = CapWord::from_bits(prm);
    let inh = CapWord::from_bits(inh);
    Some((Call::with_sets(kind, eff, prm, inh), rest))
}

// A call with a user namespace and a word.
fn take_word_call<'a>(kind: CallKind, text: &'a [u8], w: &World) -> Option<(Call, &'a [u8])>
    requires { shape_of kind ≡ Shape.SpaceAndWord }
    ensures { IfSome result (λ p. TakesCall (world_of w.now) kind text.now (call_of p.0) p.1.now) }
{
    let (space, rest) = own_space(text, w)?;
    let (deny, rest) = own_word(rest)?;
    Some((Call::with_word(kind, space, deny), rest))
}

// A call with a user namespace and extents.
fn take_map<'a>(
    alloc: Global,
    kind: CallKind,
    text: &'a [u8],
    w: &World,
) -> Option<(Call, &'a [u8])>
    requires { shape_of kind ≡ Shape.SpaceAndMap }
    ensures { IfSome result (λ p. TakesCall (world_of w.now) kind text.now (call_of p.0) p.1.now) }
{
    let (space, rest) = own_space(text, w)?;
    let (extents, rest) = own_extents(alloc, rest)?;
    let list = Extents::from_vec(extents);
    Some((Call::with_map(kind, space, list), rest))
}
