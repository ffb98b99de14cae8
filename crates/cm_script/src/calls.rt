// The call that the arguments of a line tell: how many a call of each shape has, and what it makes of them.
ghost use Rattle.std.specs.Prelude.{◌≡◌, ◌<◌, true, length};
ghost use Rattle.cm_base.specs.declared.faults.LineFault.TheVariants.{Count};
ghost use Rattle.cm_filter.specs.Shapes.{arguments_by, shape_of};
ghost use Rattle.cm_script.specs.Lines.{IsTold};
ghost use Rattle.cm_script.specs.Steps.{arguments_in, read_in};
ghost use Rattle.cm_state.specs.Call.{call_of};
ghost use Rattle.cm_declared.specs.World.{world_of};
ghost use Rattle.model_cred.specs.World as worlds;
ghost use Rattle.model_text.specs.Arguments.{pattern_of, takes};
ghost use Rattle.model_text.specs.Line.{call_told};

use crate::arguments::{all_three, argument, both, first, only};
use crate::error::LineError;
use crate::files::read_file;
use crate::lists::{read_extents, read_ids, read_kinds};
use cm_base::LineFault;
use cm_declared::World;
use cm_filter::{CallKind, Shape};
use cm_state::{Call, Extents, Ids};
use cm_tokens::{read_cap, read_cap_text, read_id, read_number, read_word};
use std::alloc::Global;

// A call of that shape may have so many arguments.
fn takes(shape: Shape, count: u32) -> bool
    ensures { result ≡ takes (arguments_by shape) count }
{
    match shape {
        Shape::ManyIds | Shape::ManyKinds => true,
        Shape::SpaceAndMap => count % 3 == 1,
        Shape::ThreeIds | Shape::ThreeSets => count == 3,
        Shape::TwoIds | Shape::SpaceAndWord => count == 2,
        Shape::Bare => count == 0,
        _ => count == 1,
    }
}

/// The call of that kind that the arguments in a text tell, as many as are counted. `Count` where a call of the kind has
/// another number of them; `Argument` with the number of the first that isn't of its kind.
#[tactic(auto, using(crate::proofs::Telling::told_counted, crate::proofs::Telling::told_miscounted))]
pub(crate) fn read_call(
    alloc: Global,
    kind: CallKind,
    count: u32,
    text: &[u8],
    w: &World,
) -> Result<Call, LineError>
    requires count { count ≡ length (arguments_in text.now) }
    requires short { length text.now < 4294967292 }
    ensures { IsTold call_of result (call_told (world_of w.now) kind (arguments_in text.now)) }
{
    if !takes(kind.shape(), count) {
        return Err(LineError::Bad(LineFault::Count));
    }
    read_counted(alloc, kind, text, w)
}

// The call of that kind, where the text has as many arguments as such a call may have.
fn read_counted(alloc: Global, kind: CallKind, text: &[u8], w: &World) -> Result<Call, LineError>
    requires counted { takes (pattern_of kind) (length (arguments_in text.now)) ≡ true }
    requires short { length text.now < 4294967292 }
    ensures { IsTold call_of result (read_in (world_of w.now) kind (arguments_in text.now)) }
{
    match kind.shape() {
        Shape::Bare => Ok(Call::bare(kind)),
        Shape::OneId => Ok(Call::with_id(kind, argument(1, read_id(only(text)))?)),
        Shape::TwoIds => read_two(kind, text),
        Shape::ThreeIds => read_three(kind, text),
        Shape::ManyIds => Ok(Call::with_ids(kind, Ids::from_vec(read_ids(alloc, text)?))),
        Shape::ManyKinds => Ok(Call::with_filter(kind, read_kinds(text)?)),
        Shape::ThreeSets => read_sets(kind, text),
        Shape::OneCap => Ok(Call::with_cap(kind, argument(1, read_cap(only(text)))?)),
        Shape::OneNumber => Ok(Call::with_number(kind, argument(1, read_number(only(text)))?)),
        Shape::OneSpace => Ok(Call::with_space(kind, argument(1, w.names.space(only(text)))?)),
        Shape::SpaceAndWord => read_word_call(kind, text, w),
        Shape::SpaceAndMap => read_map(alloc, kind, text, w),
        Shape::OneFile => Ok(Call::with_file(kind, argument(1, read_file(only(text), &w.files))?)),
    }
}

// A call with two ids.
fn read_two(kind: CallKind, text: &[u8]) -> Result<Call, LineError>
    requires shape { shape_of kind ≡ Shape.TwoIds }
    requires count { length (arguments_in text.now) ≡ 2 }
    ensures { (w : worlds.World) → IsTold call_of result (read_in w kind (arguments_in text.now)) }
{
    let (real, effective) = both(text);
    let r = argument(1, read_id(real))?;
    let e = argument(2, read_id(effective))?;
    Ok(Call::with_two_ids(kind, r, e))
}

// A call with three ids.
fn read_three(kind: CallKind, text: &[u8]) -> Result<Call, LineError>
    requires shape { shape_of kind ≡ Shape.ThreeIds }
    requires count { length (arguments_in text.now) ≡ 3 }
    ensures { (w : worlds.World) → IsTold call_of result (read_in w kind (arguments_in text.now)) }
{
    let (real, effective, saved) = all_three(text);
    let r = argument(1, read_id(real))?;
    let e = argument(2, read_id(effective))?;
    let s = argument(3, read_id(saved))?;
    Ok(Call::with_three_ids(kind, r, e, s))
}

// A call with three sets.
fn read_sets(kind: CallKind, text: &[u8]) -> Result<Call, LineError>
    requires shape { shape_of kind ≡ Shape.ThreeSets }
    requires count { length (arguments_in text.now) ≡ 3 }
    ensures { (w : worlds.World) → IsTold call_of result (read_in w kind (arguments_in text.now)) }
{
    let (effective, permitted, inheritable) = all_three(text);
    let eff = argument(1, read_cap_text(effective))?;
    let prm = argument(2, read_cap_text(permitted))?;
    let inh = argument(3, read_cap_text(inheritable))?;
    Ok(Call::with_sets(kind, eff, prm, inh))
}

// A call with a user namespace and a word.
fn read_word_call(kind: CallKind, text: &[u8], w: &World) -> Result<Call, LineError>
    requires shape { shape_of kind ≡ Shape.SpaceAndWord }
    requires count { length (arguments_in text.now) ≡ 2 }
    ensures { IsTold call_of result (read_in (world_of w.now) kind (arguments_in text.now)) }
{
    let (target, word) = both(text);
    let space = argument(1, w.names.space(target))?;
    let deny = argument(2, read_word(word))?;
    Ok(Call::with_word(kind, space, deny))
}

// A call with a user namespace and extents.
fn read_map(alloc: Global, kind: CallKind, text: &[u8], w: &World) -> Result<Call, LineError>
    requires shape { shape_of kind ≡ Shape.SpaceAndMap }
    requires counted { takes (pattern_of kind) (length (arguments_in text.now)) ≡ true }
    requires short { length text.now < 4294967292 }
    ensures { IsTold call_of result (read_in (world_of w.now) kind (arguments_in text.now)) }
{
    let (target, rest) = first(text);
    let space = argument(1, w.names.space(target))?;
    let list = Extents::from_vec(read_extents(alloc, rest)?);
    Ok(Call::with_map(kind, space, list))
}
