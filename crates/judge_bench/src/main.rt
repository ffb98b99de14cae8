//! Runs `closed` and `check` again and again on the least closed bounds of a world's processes, so that their time can be
//! taken, and what they allocate counted. The world's text is standard input. The words are two counts: how often `closed`
//! runs, and how often `check`, which is asked of the user id 4294967294.
//!
//! It prints a line on the bounds, then one after all runs of `closed`, and one after all of `check`.
//!
//! With the word `least` or `rounds`, and a count, it prints `world` once the world is read, and the line on the bounds
//! once they were found so many times more than once, by changed rows or by rounds.
//!
//! With the word `json`, or the word `certificate` and a number of spaces, standard input is a certificate's text, which
//! is read by serde_json alone, or as bounds; it prints whether it is.
#![tactic(auto)]

mod finding;
mod passes;
mod setup;
mod stop;
mod sums;
mod texts;

use crate::finding::{Way, found};
use crate::passes::{times_closed, times_judged};
use crate::setup::start;
use crate::stop::Stop;
use crate::sums::sums_of;
use crate::texts::{Text, as_bounds, as_value};
use cm_maker::least;
use std::alloc::Global;
use std::{env, io};

fn main(rt: HostRuntime) -> Result<(), Stop> {
    let alloc = rt.alloc();
    let mut words = env::args(&rt)?.skip(1);
    let first = words.next();
    let second = words.next();
    let text = io::read_to_string(alloc, rt.stdin())?;
    if let Some(read) = read_as(alloc, &first, &second, text.as_bytes())? {
        println!(rt; "{:?}", read)?;
        return Ok(());
    }
    let s = start(alloc, text.as_bytes())?;
    if let Some(way) = way_of(&first) {
        println!(rt; "world")?;
        let b = found(alloc, &s, way, number_of(&second))?;
        println!(rt; "least {}", sums_of(&b))?;
        return Ok(());
    }
    let b = least(alloc, &s.m.state, &s.w.files, s.w.filter, &s.members)?;
    println!(rt; "least {}", sums_of(&b))?;
    println!(rt; "closed {}", times_closed(&s, &b, number_of(&first)))?;
    let (holds, meets) = times_judged(&s, &b, number_of(&second));
    println!(rt; "check {holds} {meets}")?;
    Ok(())
}

// How the least bounds are to be found, where the word says so.
fn way_of(word: &Option<String>) -> Option<Way> {
    match word {
        Some(word) => Way::of_word(word.as_str()),
        None => None,
    }
}

// Whether the text is read, where the words ask for that.
fn read_as(
    alloc: Global,
    first: &Option<String>,
    second: &Option<String>,
    text: &[u8],
) -> Result<Option<Text>, Stop> {
    let Some(word) = first else {
        return Ok(None);
    };
    if word.as_str() == "json" {
        let read = as_value(alloc, text)?;
        return Ok(Some(read));
    }
    if word.as_str() == "certificate" {
        let read = as_bounds(alloc, text, number_of(second) % 65_536)?;
        return Ok(Some(read));
    }
    Ok(None)
}

// The number that a word writes, 0 where there is none.
fn number_of(word: &Option<String>) -> u32 {
    match word {
        Some(word) => word.parse::<u32>().unwrap_or(0),
        None => 0,
    }
}
