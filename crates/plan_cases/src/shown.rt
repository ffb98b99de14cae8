// Runs as text: each a line, its events as a log writes them, parted by `; `.
use case_lines::Stop;
use cm_declared::World;
use cm_script::write_line;
use cm_state::Event;
use std::alloc::Global;

// Puts the line of a run at the end: `-` for one without events.
pub(crate) fn put_run(
    alloc: Global,
    text: &mut String,
    w: &World,
    run: &[Event],
) -> Result<(), Stop> {
    if run.is_empty() {
        text.push_str("-")?;
    }
    for (k, event) in run.iter().enumerate() {
        if k > 0 {
            text.push_str("; ")?;
        }
        let line = write_line(alloc, event, w)?;
        let line = str::from_utf8(&line).map_err(|_| Stop::Bad)?;
        text.push_str(line)?;
    }
    text.push_str("\n")?;
    Ok(())
}
