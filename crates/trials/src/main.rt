// trials: reads a table of cases from standard input, and prints each with what comes of it.
//
// A line is a title, which begins with `#`; `capture WORDS..`, an input that may be a capture; `load NUMBERS..`, bytes loaded into a
// leftover layer; `tickets NUMBER NUMBER`, two bodies closed crosswise; or a case (cases.rt), with ` | READING` for each body that
// is read behind its first. The words are explained in words.rt.
#![tactic(auto)]

mod calling;
mod cases;
mod refusals;
mod running;
mod stacks;
mod told;
mod words;

use calling::tickets_record;
use refusals::{capture_record, load_record};
use running::record_of;
use std::alloc::Global;
use std::io::Read;

const LONGEST_TABLE: u64 = 1_000_000;

// What comes of a line of the table.
fn record_of_line(heap: Global, text: &str) -> anyhow::Result<String> {
    if text.is_empty() || text.starts_with('#') {
        return Ok(String::new(heap));
    }
    let (name, words) = text.split_once(' ').unwrap_or((text, ""));
    // each name is one call, and a table of functions would be longer
    match name {
        "capture" => capture_record(heap, words),
        "load" => load_record(heap, words),
        "tickets" => tickets_record(heap, words),
        _ => record_of(heap, text),
    }
}

// Prints the lines of a table, each with its record.
fn print_records(rt: &HostRuntime, table: &str) -> anyhow::Result<()> {
    for text in table.lines() {
        let record = record_of_line(rt.alloc(), text)?;
        print!(rt; "{text}\n{record}")?;
    }
    Ok(())
}

fn main(rt: HostRuntime) -> anyhow::Result<()> {
    let mut input = Vec::new(rt.alloc());
    rt.stdin().take(LONGEST_TABLE).read_to_end(&mut input)?;
    print_records(&rt, std::str::from_utf8(&input)?)
}
