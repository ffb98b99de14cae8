// Machines: what their steps, own steps and families are, and what a step leaves.
use case_lines::{Stop, number, pid};
use cm_base::{Errno, Res};
use cm_declared::World;
use cm_machine::Machine;
use cm_script::{LineError, read_line};
use cm_state::{Event, Proc};
use std::alloc::{AllocError, Global};
use std::fmt::Debug;

// The answer to a line on a machine.
pub(crate) fn machine_answer(
    alloc: Global,
    w: &World,
    m: &mut Machine,
    line: &str,
) -> Result<String, Stop> {
    let (asked, rest) = line.split_once(' ').unwrap_or((line, ""));
    match asked {
        "step" => step(alloc, w, m, rest),
        "answer" => own_step(alloc, w, m, rest),
        "family" => family(alloc, m, rest),
        "processes" => processes(alloc, m),
        _ => Err(Stop::Bad),
    }
}

// Makes the step of a call with the result that is told after `/`.
fn step(alloc: Global, w: &World, m: &mut Machine, text: &str) -> Result<String, Stop> {
    let (call, told) = text.split_once('/').ok_or(Stop::Bad)?;
    let mut event = event_of(alloc, call, w)?;
    event.res = told_result(alloc, told)?;
    if m.state.spaces.count() >= 256 {
        return Err(Stop::Bad);
    }
    match m.step(alloc, w, &event) {
        Ok(()) => Ok(String::from_str(alloc, "done\n")?),
        Err(why) => Ok(named(alloc, &why)?),
    }
}

// Makes a call as the rules give it.
fn own_step(alloc: Global, w: &World, m: &mut Machine, text: &str) -> Result<String, Stop> {
    let event = event_of(alloc, text, w)?;
    if m.state.spaces.count() >= 256 {
        return Err(Stop::Bad);
    }
    match m.answer(alloc, w, event.pid, &event.call) {
        Ok(res) => Ok(named(alloc, &res)?),
        Err(why) => Ok(named(alloc, &why)?),
    }
}

// The event of a script line without its result. Each call may answer 0, or else EPERM.
fn event_of(alloc: Global, call: &str, w: &World) -> Result<Event, Stop> {
    match event_with(alloc, call, "0", w) {
        Err(Stop::Bad) => event_with(alloc, call, "EPERM", w),
        other => other,
    }
}

fn event_with(alloc: Global, call: &str, told: &str, w: &World) -> Result<Event, Stop> {
    let whole = format!(in alloc; "{call} = {told}")?;
    if whole.len() > u32::MAX as usize {
        return Err(Stop::Bad);
    }
    match read_line(alloc, whole.as_bytes(), w) {
        Ok(Some(event)) => Ok(event),
        Err(LineError::NoMemory) => Err(Stop::NoMemory),
        _ => Err(Stop::Bad),
    }
}

// A result: `done`, `id N`, `child PID`, or the name of an error.
fn told_result(alloc: Global, text: &str) -> Result<Res, Stop> {
    let words: Vec<&str> = text.split_whitespace().collect(alloc)?;
    match words.as_slice() {
        ["done"] => Ok(Res::Done),
        ["id", n] => Ok(Res::Id(number(n)?)),
        ["child", n] => Ok(Res::Child(pid(n)?)),
        [name] => {
            let error = Errno::from_name(name.as_bytes()).ok_or(Stop::Bad)?;
            Ok(Res::Err(error))
        }
        _ => Err(Stop::Bad),
    }
}

// The pids of the family, `none` where there is none.
fn family(alloc: Global, m: &Machine, root: &str) -> Result<String, Stop> {
    let pids = m.family(alloc, pid(root)?)?;
    if pids.is_empty() {
        return Ok(String::from_str(alloc, "none\n")?);
    }
    let mut text = String::new(alloc);
    for pid in &pids {
        let mark = if text.as_str().is_empty() { "" } else { " " };
        let shown = format!(in alloc; "{mark}{}", pid.number())?;
        text.push_str(shown.as_str())?;
    }
    text.push_str("\n")?;
    Ok(text)
}

// Each process in a line: its pid, after `<` its forebear if it has one, its four user ids, its permitted, effective,
// inheritable and ambient set and its securebits in base 16, and after `+` each of its groups.
fn processes(alloc: Global, m: &Machine) -> Result<String, Stop> {
    let mut text = String::new(alloc);
    for p in m.state.procs.items() {
        put_family(alloc, &mut text, p)?;
        put_user_ids(alloc, &mut text, p)?;
        put_sets(alloc, &mut text, p)?;
        put_groups(alloc, &mut text, p)?;
    }
    Ok(text)
}

fn put_family(alloc: Global, text: &mut String, p: &Proc) -> Result<(), Stop> {
    let pid = format!(in alloc; "{}", p.pid.number())?;
    text.push_str(pid.as_str())?;
    if let Some(forebear) = p.forebear {
        let forebear = format!(in alloc; "<{}", forebear.number())?;
        text.push_str(forebear.as_str())?;
    }
    Ok(())
}

fn put_user_ids(alloc: Global, text: &mut String, p: &Proc) -> Result<(), Stop> {
    let c = &p.cred;
    let (real, effective) = (c.ruid.number(), c.euid.number());
    let (saved, fs) = (c.suid.number(), c.fsuid.number());
    let ids = format!(in alloc; " {real},{effective},{saved},{fs}")?;
    text.push_str(ids.as_str())?;
    Ok(())
}

fn put_sets(alloc: Global, text: &mut String, p: &Proc) -> Result<(), Stop> {
    let c = &p.cred;
    for bits in [c.prm.bits(), c.eff.bits(), c.inh.bits(), c.amb.bits()] {
        let set = format!(in alloc; " {bits:x}")?;
        text.push_str(set.as_str())?;
    }
    let bits = format!(in alloc; " {:x}", c.sec.bits())?;
    text.push_str(bits.as_str())?;
    Ok(())
}

fn put_groups(alloc: Global, text: &mut String, p: &Proc) -> Result<(), Stop> {
    for id in p.cred.groups.items() {
        let group = format!(in alloc; " +{}", id.number())?;
        text.push_str(group.as_str())?;
    }
    text.push_str("\n")?;
    Ok(())
}

// A value by the names of its variants and fields.
fn named<T: Debug>(alloc: Global, value: &T) -> Result<String, AllocError> {
    format!(in alloc; "{value:?}\n")
}
