// Sends the proof sheet of the machine on a machine sheet: reads the sheet on standard input and writes the proof sheet's bytes on standard
// output. A refusal goes to standard error as `refused` with its number. What is sent is what `report::send` leaves in its area.
#![tactic(auto)]

use report::send;
use std::fmt::Write;
use text::Stream;

fn main() {
    // One byte past the longest sheet, so that a longer one is seen. Nothing is on the heap: what was read is a part of an array.
    let mut bytes = [0u8; 1253];
    let size = io::read_full(0, &mut bytes);
    let mut sheet = areas::zeros::<9368>();
    match send::send(&bytes[..size], &mut sheet) {
        Ok(end) => {
            io::write_all(1, &sheet[..end]);
        }
        Err(refusal) => {
            let _ = writeln!(Stream(2), "refused {}", u8::from(refusal));
        }
    }
}
