// A process comes into a space: one that stands (setns(2)), or one that it makes (unshare(2) with CLONE_NEWUSER).
// Whether it may has been asked before.
ghost use Rattle.std.specs.Prelude.{◌≡◌, ◌∷◌, ◌<◌, length};
ghost use Rattle.cm_base.specs.Limits.{greatest_number};
ghost use Rattle.cm_base.specs.Outcome.{OrNoMemory, UnchangedOnErr};
ghost use Rattle.cm_machine.specs.Asking.{OfCaller, entered, inside, joined};
ghost use Rattle.model_rules.specs.Namespaces.{created_by as model_created_by};

use cm_base::{NoMemory, SpaceId};
use cm_nscalls::{come_in, created_by};
use cm_state::{Proc, Spaces, State};

/// The process at this place comes into the space.
pub(crate) fn join(state: &mut State, at: usize, n: SpaceId)
    requires here { at < length state.old.processes }
    requires stands { n.0 < length state.old.spaces }
    ensures { OfCaller state.old at (λ p. state.new ≡ joined state.old p n.0) }
{
    let procs = &mut state.procs;
    let p = &mut procs.list[at];
    come_into(p, n);
}

/// The process at this place makes a space and comes into it.
pub(crate) fn enter_new(state: &mut State, at: usize) -> Result<(), NoMemory>
    requires here { at < length state.old.processes }
    requires room { length state.old.spaces < greatest_number }
    ensures entered { OrNoMemory result (λ _. OfCaller state.old at (λ p. state.new ≡ entered state.old p)) }
    ensures unchanged { UnchangedOnErr result state.new state.old }
{
    let procs = &mut state.procs;
    let p = &mut procs.list[at];
    make_and_enter(p, &mut state.spaces)
}

// The process makes a space, the newest one, and comes into it.
fn make_and_enter(p: &mut Proc, spaces: &mut Spaces) -> Result<(), NoMemory>
    requires stands { p.old.space < length spaces.old }
    requires room { length spaces.old < greatest_number }
    ensures inside { OrNoMemory result (λ _. p.new ≡ inside p.old (length spaces.old)) }
    ensures made { OrNoMemory result (λ _. spaces.new ≡ model_created_by spaces.old p.old.space p.old.cred ∷ spaces.old) }
    ensures unchanged { UnchangedOnErr result p.new p.old }
    ensures same_spaces { UnchangedOnErr result spaces.new spaces.old }
{
    let made = created_by(spaces, p.space, &*p.cred);
    let n = spaces.add(made)?;
    come_into(p, n);
    Ok(())
}

/// The process comes into the space, with all capabilities there.
pub(crate) fn come_into(p: &mut Proc, n: SpaceId)
    ensures { p.new ≡ inside p.old n.0 }
{
    come_in(&mut *p.cred);
    p.space = n;
}
