// body_list: reads a captured connection from standard input, and lists what a receiver makes of its
// Play body, one line for each answer.
#![tactic(auto)]

use listing::{MOST_INPUT, list_capture};
use std::io;
use std::io::{Read, Write};

// One byte more than the longest input, so that a longer one is seen to be too long.
const READ_AT_MOST: u64 = MOST_INPUT as u64 + 1;

fn main(rt: HostRuntime) -> io::Result<()> {
    let heap = rt.alloc();
    let mut input = Vec::new(heap);
    rt.stdin().take(READ_AT_MOST).read_to_end(&mut input)?;
    let text = list_capture(heap, &input)?;
    rt.stdout().write_all(text.as_bytes())
}
