// Filters by the names of the calls that they permit, or exclude.
use case_lines::Stop;
use cm_filter::{CallKind, Filter};
use std::alloc::Global;

// The names of all calls.
const CALLS: [&str; 27] = [
    "setuid",
    "setreuid",
    "setresuid",
    "setfsuid",
    "setgid",
    "setregid",
    "setresgid",
    "setfsgid",
    "setgroups",
    "capset",
    "bset_drop",
    "amb_raise",
    "amb_lower",
    "amb_clear",
    "securebits",
    "keepcaps",
    "no_new_privs",
    "fork",
    "clone_user",
    "unshare",
    "setns",
    "write_uid_map",
    "write_gid_map",
    "write_setgroups",
    "execve",
    "exit",
    "install",
];

// The filter that excludes these calls. Bad where one is none.
pub(crate) fn excluding(alloc: Global, calls: &[&str]) -> Result<Filter, Stop> {
    let mut names = Vec::new(alloc);
    for call in calls {
        names.push(String::from_str(alloc, call)?)?;
    }
    Filter::read(&names).map_err(|_| Stop::Bad)
}

// The filter that permits these calls alone. Bad where one is none.
pub(crate) fn permitting(alloc: Global, calls: &[&str]) -> Result<Filter, Stop> {
    for call in calls {
        if CallKind::from_name(call.as_bytes()).is_none() {
            return Err(Stop::Bad);
        }
    }
    let mut others = Vec::new(alloc);
    for call in CALLS {
        if !calls.contains(&call) {
            others.push(call)?;
        }
    }
    excluding(alloc, &others)
}
