// What a change of user ids does to the sets (capabilities(7), "Effect of user ID changes on capabilities"), unless
// SECBIT_NO_SETUID_FIXUP is set. Root is here the id that the space's map of user ids gives to inside 0.
ghost use Rattle.std.specs.Prelude.{◌≡◌, Some};
ghost use Rattle.model_cred.specs.Space as model;
ghost use Rattle.model_rules.specs.Caps.{fs_caps};
ghost use Rattle.model_rules.specs.Fixups.{without_root, fixed_up, following_fs, fs_fixed_up};
ghost use Rattle.model_rules.specs.Zero.{zero_of};

use cm_base::{CapWord, SecBits};
use cm_state::{Cred, FourIds, Space};

// CAP_CHOWN, CAP_DAC_OVERRIDE, CAP_DAC_READ_SEARCH, CAP_FOWNER, CAP_FSETID, CAP_LINUX_IMMUTABLE, CAP_MKNOD and
// CAP_MAC_OVERRIDE, which follow the fs user id.
const FS_CAPS: u64 = 0x1_0800_021f;

// The fixups of setresuid(2), setreuid(2) and setuid(2), from the old user ids to those that the credential has now. Where
// one of the real, effective and saved id was root's and none is now, sets are cleared. And where the effective id went
// from root's to another the effective set is cleared; the other way it becomes the permitted set.
pub(crate) fn fix_up(c: &mut Cred, s: &Space, old: FourIds)
    ensures { c.new ≡ fixed_up s.now old c.old }
{
    if c.sec.has(SecBits::NO_SETUID_FIXUP) {
        return;
    }
    let Some(root) = s.zero() else {
        return;
    };
    let now = c.user_ids();
    if old.has(root) && !now.has(root) {
        clear(c);
    }
    let was = old.effective == root;
    let is = now.effective == root;
    if was && !is {
        c.eff = CapWord::empty();
    } else if !was && is {
        c.eff = c.prm;
    }
}

// Under SECBIT_KEEP_CAPS the permitted and effective sets stay.
fn clear(c: &mut Cred)
    ensures { c.new ≡ without_root c.old }
{
    if !c.sec.has(SecBits::KEEP_CAPS) {
        c.prm = CapWord::empty();
        c.eff = CapWord::empty();
    }
    c.amb = CapWord::empty();
}

// The fixup of setfsuid(2), from the old fs user id to the one that the credential has now.
pub(crate) fn fix_up_fs(c: &mut Cred, s: &Space, old: u32)
    ensures { c.new ≡ fs_fixed_up s.now old c.old }
{
    if c.sec.has(SecBits::NO_SETUID_FIXUP) {
        return;
    }
    let Some(root) = s.zero() else {
        return;
    };
    follow_fs(c, root, old);
}

// Where the fs id went from root's to another, the capabilities that follow it leave the effective set; the other way
// those of them that are permitted come in.
fn follow_fs(c: &mut Cred, root: u32, old: u32)
    ensures { (s : model.Space) → zero_of s ≡ Some root → c.new ≡ following_fs s old c.old }
{
    let was = old == root;
    let is = c.fsuid.number() == root;
    if was && !is {
        c.eff = c.eff.minus(followers());
    } else if !was && is {
        c.eff = c.eff.union(c.prm.meet(followers()));
    }
}

// The capabilities that follow the fs user id.
#[inline]
fn followers() -> CapWord
    ensures { result ≡ fs_caps }
{
    CapWord::from_bits(FS_CAPS)
}
