// The sets of a program: those of its file, and what the process gets of them (capabilities(7), "Transformation of
// capabilities during execve()").
ghost use Rattle.std.specs.Prelude.{◌≡◌, ℕ, true};
ghost use Rattle.cm_base.specs.CapSet.{is_within};
ghost use Rattle.cm_exec.specs.Counts.{AreCounts};
ghost use Rattle.model_cred.specs.Credential.{Credential};
ghost use Rattle.model_cred.specs.Space.{Spaces as ModelSpaces, space_of};
ghost use Rattle.model_rules.specs.FileView.{FileView};
ghost use Rattle.model_rules.specs.Exec as model;

use crate::counts::FilePrivilege;
use cm_base::{CapWord, SecBits};
use cm_files::FileView;
use cm_state::{Cred, FourIds, Space};
use std::marker::Model;

/// The sets of a file, and its effective bit.
#[derive(Clone, Copy)]
pub(crate) struct FileSets {
    pub permitted: CapWord,
    pub inheritable: CapWord,
    pub effective: bool,
}

impl Model for FileSets {
    ghost use Rattle.model_rules.specs.Exec as model;

    ghost Value = { model.FileSets };

    ghost view = { λ s. record { permitted = s.permitted; inheritable = s.inheritable; effective = s.effective } };

    ghost inverse = { λ s. record { permitted = s.permitted; inheritable = s.inheritable; effective = s.effective } };
}

// The file's own sets: those of its attribute where that takes effect, else none.
pub(crate) fn own_sets(file: &FileView, counts: FilePrivilege) -> FileSets
    ensures { (spaces : ModelSpaces) (at : ℕ) (c : Credential) → AreCounts spaces at c file.now counts → result ≡ model.own_sets spaces at c file.now }
{
    match file.caps {
        Some(caps) if counts.attribute => FileSets {
            permitted: caps.permitted,
            inheritable: caps.inheritable,
            effective: caps.effective,
        },
        _ => FileSets {
            permitted: CapWord::empty(),
            inheritable: CapWord::empty(),
            effective: false,
        },
    }
}

// The program would lack what its file permits: its effective bit is set, and its permitted set isn't within what the
// caller gets of it.
pub(crate) fn would_lack(c: &Cred, sets: FileSets) -> bool
    ensures { result ≡ model.would_lack c.now sets }
{
    let gets = sets
        .permitted
        .meet(c.bnd)
        .union(sets.inheritable.meet(c.inh));
    sets.effective && !sets.permitted.within(gets)
}

// The file's sets that count, by the user ids after their change: its own under SECBIT_NOROOT or by the exception, else
// those that root gets.
pub(crate) fn sets_for(
    s: &Space,
    c: &Cred,
    ids: FourIds,
    own: FileSets,
    counts: FilePrivilege,
) -> FileSets
    ensures { (spaces : ModelSpaces) (at : ℕ) (file : FileView) → s.now ≡ space_of spaces at → AreCounts spaces at c.now file counts
        → ids ≡ model.uids_after spaces at c.now file → own ≡ model.own_sets spaces at c.now file → result ≡ model.sets_for spaces at c.now file }
{
    if c.sec.has(SecBits::NOROOT) || is_excepted(s, ids, counts.attribute) {
        own
    } else {
        raised_sets(s, ids, own)
    }
}

// The file's own sets count also for root: its attribute takes effect, the real user id isn't inside 0, and the effective
// one is.
fn is_excepted(s: &Space, ids: FourIds, attribute: bool) -> bool
    ensures { result ≡ model.is_excepted s.now ids attribute }
{
    attribute && !s.is_zero(ids.real) && s.is_zero(ids.effective)
}

// The sets of a file that root runs: all where the real or the effective user id is inside 0, and the effective bit where
// the effective one is.
fn raised_sets(s: &Space, ids: FourIds, sets: FileSets) -> FileSets
    ensures { result ≡ model.raised_sets s.now ids sets }
{
    if s.is_zero(ids.effective) {
        FileSets {
            permitted: CapWord::full(),
            inheritable: CapWord::full(),
            effective: true,
        }
    } else if s.is_zero(ids.real) {
        FileSets {
            permitted: CapWord::full(),
            inheritable: CapWord::full(),
            effective: sets.effective,
        }
    } else {
        sets
    }
}

// The three sets of the process after execve; the inheritable and the bounding one stay.
pub(crate) fn put_sets(c: &mut Cred, sets: FileSets, privileged: bool)
    ensures { c.new ≡ model.with_sets c.old sets (model.ambient_after c.old privileged) }
{
    let ambient = ambient_after(c, privileged);
    let permitted = permitted_after(c, sets, ambient);
    c.prm = permitted;
    c.eff = if sets.effective { permitted } else { ambient };
    c.amb = ambient;
}

// The ambient set after execve: none for a privileged file.
fn ambient_after(c: &Cred, privileged: bool) -> CapWord
    ensures value { result ≡ model.ambient_after c.now privileged }
    ensures permitted { is_within result c.now.permitted ≡ true }
    ensures inheritable { is_within result c.now.inheritable ≡ true }
{
    if privileged { CapWord::empty() } else { c.amb }
}

// The permitted set after execve: under no_new_privs no more than before (choice).
fn permitted_after(c: &Cred, sets: FileSets, ambient: CapWord) -> CapWord
    requires { is_within ambient c.now.permitted ≡ true }
    ensures value { result ≡ model.permitted_after c.now sets ambient }
    ensures ambient { is_within ambient result ≡ true }
{
    let gained = c
        .inh
        .meet(sets.inheritable)
        .union(sets.permitted.meet(c.bnd))
        .union(ambient);
    if c.nnp { gained.meet(c.prm) } else { gained }
}
