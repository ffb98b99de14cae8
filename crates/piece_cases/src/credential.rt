// Credential lines of the processes of a world.
use case_lines::{Stop, number};
use cm_base::{Pid, SpaceId};
use cm_credentials::credentials;
use cm_declared::World;
use std::alloc::Global;

// The answer to `credentials PID SPACE`: the credential line of that process, as in the space of that number.
pub(crate) fn credential_line(alloc: Global, rest: &str, w: &World) -> Result<Vec<u8>, Stop> {
    let (pid, space) = rest.split_once(' ').ok_or(Stop::Bad)?;
    let pid = Pid::new(number(pid)?).ok_or(Stop::Bad)?;
    let space = SpaceId(number(space)?);
    for p in w.start.procs.items() {
        if p.pid == pid {
            return Ok(credentials(alloc, &p.cred, pid, space, w)?);
        }
    }
    Err(Stop::Bad)
}
