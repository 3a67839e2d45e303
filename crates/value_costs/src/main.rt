//! Makes an input of a kind and a size, hands it to one call over texts, results or nodes, or evaluates an expression over
//! it, and prints the size of the answer, so that `bench/values.sh` can time the calls: `value_costs KIND SIZE`.
#![tactic(auto)]

mod copies;
mod expressions;
mod results;
mod texts;

use std::alloc::{AllocError, Global};
use std::{env, io};

fn main(rt: HostRuntime) -> io::Result<()> {
    let alloc = rt.alloc();
    let mut words = env::args(&rt)?;
    let (Some(kind), Some(size)) = (words.nth(1), words.next()) else {
        return println!(rt; "value_costs KIND SIZE");
    };
    match size.as_str().parse() {
        Ok(size) => println!(rt; "{}", answer_size(alloc, kind.as_str(), size)?),
        Err(_) => println!(rt; "value_costs KIND SIZE"),
    }
}

// The size of what the call of a kind answers, in bytes or items; 0 for a kind that is none.
fn answer_size(alloc: Global, kind: &str, size: u32) -> Result<usize, AllocError> {
    if let Some(source) = expressions::source_of(kind) {
        return expressions::evaluated(alloc, source, size);
    }
    match kind {
        "copies" => copies::copies(alloc, size),
        "attributes" => results::attributes(alloc, size),
        "clashes" => results::clashes(alloc, size),
        "children" => results::children(alloc, size),
        "texts" => results::texts(alloc, size),
        "order" => results::ordered(alloc, size),
        _ => texts::answer_size(alloc, kind, size).map_err(|_| AllocError),
    }
}
