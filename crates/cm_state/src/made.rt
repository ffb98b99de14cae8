// Calls by their kinds and their arguments: one function for each shape that a kind can have.
ghost use Rattle.std.specs.Prelude.{◌≡◌, ◌∷◌, [], flat_map, map};
ghost use Rattle.cm_filter.specs.Shapes.{shape_of};
ghost use Rattle.cm_state.specs.Call.{call_of};
ghost use Rattle.model_cred.specs.Arguments as argument;
ghost use Rattle.model_cred.specs.Arguments.{arguments_of};
ghost use Rattle.model_cred.specs.Call.{kind_of};
ghost use Rattle.model_cred.specs.Call as model;

use crate::{Call, Extents, Ids};
use cm_base::{CapWord, FileRef, SpaceId};
use cm_filter::{CallKind, Filter, Shape};

impl Call {
    /// The call of that kind without arguments.
    pub fn bare(kind: CallKind) -> Call
        requires { shape_of kind ≡ Shape.Bare }
        ensures kind { kind_of (call_of result) ≡ kind }
        ensures arguments { arguments_of (call_of result) ≡ [] }
    {
        match kind {
            CallKind::AmbClear => Call::AmbClear,
            CallKind::Fork => Call::Fork,
            CallKind::CloneUser => Call::CloneUser,
            CallKind::Unshare => Call::Unshare,
            _ => Call::Exit,
        }
    }

    /// The call of that kind with an id.
    pub fn with_id(kind: CallKind, id: u32) -> Call
        requires { shape_of kind ≡ Shape.OneId }
        ensures kind { kind_of (call_of result) ≡ kind }
        ensures arguments { arguments_of (call_of result) ≡ argument.Id id ∷ [] }
    {
        match kind {
            CallKind::SetUid => Call::SetUid(id),
            CallKind::SetFsUid => Call::SetFsUid(id),
            CallKind::SetGid => Call::SetGid(id),
            _ => Call::SetFsGid(id),
        }
    }

    /// The call of that kind with a real and an effective id.
    pub fn with_two_ids(kind: CallKind, r: u32, e: u32) -> Call
        requires { shape_of kind ≡ Shape.TwoIds }
        ensures kind { kind_of (call_of result) ≡ kind }
        ensures arguments { arguments_of (call_of result) ≡ argument.Id r ∷ argument.Id e ∷ [] }
    {
        match kind {
            CallKind::SetReUid => Call::SetReUid(r, e),
            _ => Call::SetReGid(r, e),
        }
    }

    /// The call of that kind with a real, an effective and a saved id.
    pub fn with_three_ids(kind: CallKind, r: u32, e: u32, s: u32) -> Call
        requires { shape_of kind ≡ Shape.ThreeIds }
        ensures kind { kind_of (call_of result) ≡ kind }
        ensures arguments { arguments_of (call_of result) ≡ argument.Id r ∷ argument.Id e ∷ argument.Id s ∷ [] }
    {
        match kind {
            CallKind::SetResUid => Call::SetResUid(r, e, s),
            _ => Call::SetResGid(r, e, s),
        }
    }

    /// The call of that kind with a list of ids.
    pub fn with_ids(kind: CallKind, ids: Ids) -> Call
        requires { shape_of kind ≡ Shape.ManyIds }
        ensures kind { kind_of (call_of result) ≡ kind }
        ensures arguments { arguments_of (call_of result) ≡ map argument.Id ids }
    {
        Call::SetGroups(ids)
    }

    /// The call of that kind with a capability.
    pub fn with_cap(kind: CallKind, cap: u32) -> Call
        requires { shape_of kind ≡ Shape.OneCap }
        ensures kind { kind_of (call_of result) ≡ kind }
        ensures arguments { arguments_of (call_of result) ≡ argument.Cap cap ∷ [] }
    {
        match kind {
            CallKind::BsetDrop => Call::BsetDrop(cap),
            CallKind::AmbRaise => Call::AmbRaise(cap),
            _ => Call::AmbLower(cap),
        }
    }

    /// The call of that kind with a number.
    pub fn with_number(kind: CallKind, n: u32) -> Call
        requires { shape_of kind ≡ Shape.OneNumber }
        ensures kind { kind_of (call_of result) ≡ kind }
        ensures arguments { arguments_of (call_of result) ≡ argument.Number n ∷ [] }
    {
        match kind {
            CallKind::SecureBits => Call::SecureBits(n),
            CallKind::KeepCaps => Call::KeepCaps(n),
            _ => Call::NoNewPrivs(n),
        }
    }

    /// The call of that kind with an effective, a permitted and an inheritable set.
    pub fn with_sets(kind: CallKind, eff: CapWord, prm: CapWord, inh: CapWord) -> Call
        requires { shape_of kind ≡ Shape.ThreeSets }
        ensures kind { kind_of (call_of result) ≡ kind }
        ensures arguments { arguments_of (call_of result) ≡ argument.Set eff ∷ argument.Set prm ∷ argument.Set inh ∷ [] }
    {
        Call::CapSet { eff, prm, inh }
    }

    /// The call of that kind with a user namespace.
    pub fn with_space(kind: CallKind, space: SpaceId) -> Call
        requires { shape_of kind ≡ Shape.OneSpace }
        ensures kind { kind_of (call_of result) ≡ kind }
        ensures arguments { arguments_of (call_of result) ≡ argument.Space space.0 ∷ [] }
    {
        Call::SetNs(space)
    }

    /// The call of that kind with a user namespace and a word: whether it is "deny".
    pub fn with_word(kind: CallKind, space: SpaceId, deny: bool) -> Call
        requires { shape_of kind ≡ Shape.SpaceAndWord }
        ensures kind { kind_of (call_of result) ≡ kind }
        ensures arguments { arguments_of (call_of result) ≡ argument.Space space.0 ∷ argument.Word deny ∷ [] }
    {
        Call::WriteSetgroups { space, deny }
    }

    /// The call of that kind with a user namespace and the extents of a map.
    pub fn with_map(kind: CallKind, space: SpaceId, list: Extents) -> Call
        requires { shape_of kind ≡ Shape.SpaceAndMap }
        ensures kind { kind_of (call_of result) ≡ kind }
        ensures arguments { arguments_of (call_of result) ≡ argument.Space space.0 ∷ flat_map argument.triple_of list }
    {
        match kind {
            CallKind::WriteUidMap => Call::WriteUidMap(space, list),
            _ => Call::WriteGidMap(space, list),
        }
    }

    /// The call of that kind with a file.
    pub fn with_file(kind: CallKind, file: FileRef) -> Call
        requires { shape_of kind ≡ Shape.OneFile }
        ensures kind { kind_of (call_of result) ≡ kind }
        ensures arguments { arguments_of (call_of result) ≡ argument.File file ∷ [] }
    {
        Call::Exec(file)
    }

    /// The call of that kind with a filter.
    pub fn with_filter(kind: CallKind, filter: Filter) -> Call
        requires { shape_of kind ≡ Shape.ManyKinds }
        ensures kind { kind_of (call_of result) ≡ kind }
        ensures call { call_of result ≡ model.Install filter }
    {
        Call::Install(filter)
    }
}
