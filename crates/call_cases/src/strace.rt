// What lines of strace(1) tell, as text.
use case_lines::Stop;
use cm_base::Pid;
use cm_declared::World;
use cm_strace_calls::{Told, read_call};
use cm_strace_text::next_argument;
use std::alloc::Global;

// What a line of a process tells, without its pid.
pub(crate) fn what_is_told(alloc: Global, w: &World, pid: Pid, line: &str) -> Result<String, Stop> {
    let told = read_call(alloc, w, pid, line.as_bytes())?;
    shown(alloc, &told)
}

// What is told: what stands in the line by its letters, all else as it is derived.
fn shown(alloc: Global, told: &Told<'_>) -> Result<String, Stop> {
    let text = match told {
        Told::Joins(number, flags, outcome) => {
            format!(in alloc; "Joins({number:?}, {}, {outcome:?})", letters(flags)?)?
        }
        Told::Opens(opening, number) => {
            let path = letters(opening.path)?;
            let writes = opening.writes();
            let until_exec = opening.until_exec();
            format!(in alloc; "Opens({path}, {writes}, {until_exec}, {number})")?
        }
        Told::Writes(number, left, outcome) => {
            let text = match next_argument(*left) {
                Some((text, _)) => letters(text)?,
                None => "None",
            };
            format!(in alloc; "Writes({number}, {text}, {outcome:?})")?
        }
        other => format!(in alloc; "{other:?}")?,
    };
    Ok(text)
}

fn letters(text: &[u8]) -> Result<&str, Stop> {
    std::str::from_utf8(text).map_err(|_| Stop::Bad)
}
