// Values as the lines of cases write them. What is none is bad.
use case_lines::Stop;
use cm_sets::CapSet;
use cm_tokens::read_cap_text;

// A set of capabilities as worlds write it, none where there is no word.
pub(crate) fn caps(words: &[&str]) -> Result<CapSet, Stop> {
    let text = match words {
        [] => "none",
        [text] => text,
        _ => return Err(Stop::Bad),
    };
    let set = read_cap_text(text.as_bytes()).ok_or(Stop::Bad)?;
    Ok(CapSet(set))
}

// A flag: `yes`, or no word where it is lowered.
pub(crate) fn flag(words: &[&str]) -> Result<bool, Stop> {
    match words {
        [] => Ok(false),
        ["yes"] => Ok(true),
        _ => Err(Stop::Bad),
    }
}
