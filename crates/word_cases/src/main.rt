//! Tries set-once words: three words and one reader, then sixteen readers that poll on threads of their own while
//! 100,000 words are set. With a word of `Loads` it reads words in a loop instead, to be timed.
#![tactic(auto)]

mod datum_first;
mod free;
mod links;
mod loads;
mod polling;
mod three_words;
mod together;
mod words;

use crate::free::Free;
use crate::loads::{WORDS, follow, sum};
use crate::words::{InVector, read, set_in_a_circle};
use link_cells::{Layout, cells};
use std::alloc::{AllocError, Global};
use std::thread::Threads;
use std::{env, io};

fn main(rt: HostRuntime) -> io::Result<()> {
    let alloc = rt.alloc();
    let mode = match env::args(&rt)?.nth(1) {
        Some(mode) => mode,
        None => String::new(alloc),
    };
    match mode.as_str() {
        "follow-vector" => println!(rt; "{}", follow(&mut InVector::in_a_circle(alloc)?)),
        "sum-vector" => println!(rt; "{}", sum(&mut InVector::in_a_circle(alloc)?)),
        "follow-words" => println!(rt; "{}", of_cells(alloc, true)?),
        "sum-words" => println!(rt; "{}", of_cells(alloc, false)?),
        _ => {
            let found = three_words::three_words(alloc)?;
            println!(rt;
                "one reader found {}, {} and {}",
                found.first, found.second, found.shown
            )?;
            let missed = sixteen_readers(&rt, alloc)?;
            println!(rt; "sixteen readers missed {missed} words")
        }
    }
}

// What a loop over set-once words gives, which follows links or adds up.
fn of_cells(alloc: Global, follows: bool) -> Result<u64, AllocError> {
    let layout = Layout {
        first: 0,
        second: 0,
        third: 0,
    };
    let (cells, mut writer, mut passes) = cells::<Free>(alloc, WORDS, 1, layout)?;
    let Some(mut pass) = passes.pop() else {
        unreachable!()
    };
    set_in_a_circle(&cells, &mut writer);
    let mut words = read(&mut pass, &cells);
    Ok(if follows {
        follow(&mut words)
    } else {
        sum(&mut words)
    })
}

// How many words sixteen readers miss while 100,000 words are set.
fn sixteen_readers<R: Threads + Sync>(rt: &R, alloc: Global) -> Result<u64, AllocError> {
    let layout = Layout {
        first: 50_000,
        second: 0,
        third: 0,
    };
    let (cells, writer, passes) = cells(alloc, 100_000, 16, layout)?;
    Ok(together::together(rt, &cells, 50_000, writer, passes).1)
}
