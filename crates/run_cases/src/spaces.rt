// Long logs of the calls that make user namespaces, called spaces here, and that write to their files
// (user_namespaces(7)). The ends of their reports are written by hand from the manual page.
use crate::case::{answer, shelf, strings};
use cm_cli::Status;
use std::alloc::{AllocError, Global};
use std::test::Fail;

// So many spaces within one another, each with its maps before the next is made, and then one too many.
fn deep_log(alloc: Global) -> Result<Vec<u8>, AllocError> {
    let mut log = Vec::new(alloc);
    for n in 1..=32 {
        let lines = format!(in alloc;
            "100 unshare = 0\n100 write_uid_map #{n} 0 0 1 = 0\n100 write_setgroups #{n} deny = 0\n100 write_gid_map #{n} 0 0 1 = 0\n"
        )?;
        log.extend_from_slice(lines.as_bytes())?;
    }
    log.extend_from_slice(b"100 unshare = ENOSPC\n100 clone_user = ENOSPC\n")?;
    Ok(log)
}

#[test]
fn spaces_have_32_levels(rt: HostRuntime) -> Result<(), Fail> {
    let alloc = rt.alloc();
    let world = b"log = \"script\"\n[[process]]\npid = 100\n";
    let words = strings(alloc, &["replay", "world", "log"])?;
    let mut shelf = shelf(&rt, alloc, world, &deep_log(alloc)?, &[])?;
    let (status, text) = answer(alloc, &words, &mut shelf, &[])?;
    assert_eq!(rt; status, Status::Accepted);
    assert!(rt; text.ends_with(b"\nend 130\n"));
    Ok(())
}

// A write of so many extents of one id each to the uid map of space 2.
fn long_write(alloc: Global, count: u32, res: &str) -> Result<Vec<u8>, AllocError> {
    let mut line = b"1 write_uid_map #2".to_vec(alloc)?;
    for id in 0..count {
        let extent = format!(in alloc; " {id} {id} 1")?;
        line.extend_from_slice(extent.as_bytes())?;
    }
    let end = format!(in alloc; " = {res}\n")?;
    line.extend_from_slice(end.as_bytes())?;
    Ok(line)
}

// The maps of the parent have two extents, and the last of the 340 ids lies in the second one.
#[test]
fn a_map_has_340_extents_through_several_of_its_parent(rt: HostRuntime) -> Result<(), Fail> {
    let alloc = rt.alloc();
    let map = "[[0, 100000, 170], [170, 200000, 170]]";
    let world = format!(in alloc;
        "log = 'script'\nspace = [{{ name = 'box', parent = 'init', owner = 0, uid_map = {map}, gid_map = {map} }}]\n\
         process = [{{ pid = 1, space = 'box', uid = 100000, gid = 100000, permitted = 'all', effective = 'all' }}]\n"
    )?;
    let mut log = b"1 clone_user = 2\n".to_vec(alloc)?;
    log.extend_from_slice(&long_write(alloc, 341, "EINVAL")?)?;
    log.extend_from_slice(&long_write(alloc, 340, "0")?)?;
    log.extend_from_slice(b"2 setuid 340 = EINVAL\n2 setuid 339 = 0\n")?;
    let words = strings(alloc, &["replay", "world", "log"])?;
    let mut shelf = shelf(&rt, alloc, world.as_bytes(), &log, &[])?;
    let (status, text) = answer(alloc, &words, &mut shelf, &[])?;
    assert_eq!(rt; status, Status::Accepted);
    assert!(rt;
        text.ends_with(
            b"\n> 2 #2 uid=200169,200169,200169,200169 gid=100000,100000,100000,100000 groups=- \
              inh=0000000000000000 prm=0000000000000000 eff=0000000000000000 bnd=000001ffffffffff amb=0000000000000000 sec=00 nnp=0\nend 5\n"
        )
    );
    Ok(())
}
