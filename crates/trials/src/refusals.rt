// What is refused before any body is read: inputs that are no capture, and bytes that are not loaded.
use super::calling::outcome_line;
use super::words::Given;
use carrier::{Carrier, Image};
use layers::Leftover;
use listing::list_capture;
use std::alloc::{AllocError, Global};

// The listing of an input that may be a capture.
pub fn capture_record(heap: Global, words: &str) -> anyhow::Result<String> {
    let given = Given::from_words(heap, words)?;
    Ok(list_capture(heap, &given.bytes)?)
}

// The line for loading so many bytes.
fn load_line<C: Carrier>(
    heap: Global,
    leftover: &mut Leftover<C>,
    count: u32,
) -> Result<String, AllocError> {
    let bytes = vec![in heap; 0; count as usize]?;
    outcome_line(
        heap,
        leftover.load(&bytes),
        |()| format!(in heap; "loaded {count}\n"),
    )
}

// The lines for loading bytes as the numbers say, where `take` takes one of them.
pub fn load_record(heap: Global, words: &str) -> anyhow::Result<String> {
    let mut leftover = Leftover::new(Image::new(&[]));
    let mut text = String::new(heap);
    for word in words.split_ascii_whitespace() {
        if word == "take" {
            let _ = leftover.pull(&mut [0]);
        } else {
            text.push_str(&load_line(heap, &mut leftover, word.parse::<u32>()?)?)?;
        }
    }
    Ok(text)
}
