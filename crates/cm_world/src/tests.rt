// The reader of a world once, on its happy path. The rows that are refused are cases of the whole program (report_cases).
use crate::{LogForm, read_world};
use cm_base::SpaceId;
use std::test::Fail;

const TEXT: &[u8] = b"log = 'strace'
space = [{ name = 'a', parent = 'init', owner = 0 }]
file = [{ path = '/x', uid = 0, gid = 0, mode = '755' }]
process = [{ pid = 7, space = 'a' }]
";

#[test]
fn a_world_is_read(rt: HostRuntime) -> Result<(), Fail> {
    let w = read_world(rt.alloc(), TEXT).expect(&rt, "a world");
    assert!(rt; w.form == LogForm::Strace);
    assert!(rt; w.names.space(b"a") == Some(SpaceId(1)));
    assert!(rt; w.names.name(SpaceId(1)) == Some("a"));
    assert!(rt; w.files.rows().len() == 1 && w.start.procs.items().len() == 1);
    Ok(())
}
