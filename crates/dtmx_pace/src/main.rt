//! Transforms standard input while it is read into the files that the words `builtin=OUT` name; the exit status is the answer's.
#![tactic(auto)]

use driver::{pace, refuse_words, starve};
use edge::{FileDrawer, FileShelf, Reading, Writing};
use std::alloc::{AllocError, Global};
use std::env::Args;
use std::process::ExitCode;
use std::{env, io};

// The words after the program's name.
fn words(alloc: Global, args: Args) -> Result<Vec<String>, AllocError> {
    let mut words = Vec::new(alloc);
    for word in args.skip(1) {
        words.push(word)?;
    }
    Ok(words)
}

fn main(rt: HostRuntime) -> ExitCode {
    let alloc = rt.alloc();
    let mut console = Writing::new(io::writer(&rt));
    let words = match env::args(&rt) {
        Ok(args) => words(alloc, args),
        Err(error) => match error.kind() {
            io::ErrorKind::OutOfMemory => Err(AllocError),
            // a word isn't UTF-8
            _ => return ExitCode::from(refuse_words(&mut console).code),
        },
    };
    let Ok(words) = words else {
        return ExitCode::from(starve(&mut console).code);
    };
    let mut listeners = Vec::new(alloc);
    let status = pace(
        alloc,
        &words,
        &mut Reading::new(rt.reader()),
        &mut FileShelf::new(&rt),
        &mut FileDrawer::new(&rt),
        &mut console,
        &mut listeners,
    );
    ExitCode::from(status.code)
}
