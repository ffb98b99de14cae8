// Values as the lines of cases write them. What is none is bad.
use case_lines::{Stop, number};
use cm_base::{Cap, Kgid, Kuid, Pid};
use cm_declared::Names;
use cm_script::read_pid;
use cm_state::Right;

pub(crate) fn pid(word: &str) -> Result<Pid, Stop> {
    read_pid(word.as_bytes()).ok_or(Stop::Bad)
}

// A right: `uid K`, `gid K`, or `NAME SPACE`, the capability over the space.
pub(crate) fn right(words: &[&str], names: &Names) -> Result<Right, Stop> {
    let [name, value] = words else {
        return Err(Stop::Bad);
    };
    let right = match *name {
        "uid" => Kuid::new(number(value)?).map(Right::Uid),
        "gid" => Kgid::new(number(value)?).map(Right::Gid),
        _ => over(name, value, names),
    };
    right.ok_or(Stop::Bad)
}

fn over(name: &str, space: &str, names: &Names) -> Option<Right> {
    let cap = Cap::from_name(name.as_bytes())?;
    let space = names.space(space.as_bytes())?;
    Some(Right::Cap(cap, space))
}
