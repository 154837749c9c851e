// Learns the machine on a machine sheet: reads the sheet on standard input and prints its smallest model, or one line with a refusal's
// number. What is printed is what `report` puts into its area; this program reads and writes, and does no more.
#![tactic(auto)]

fn main() {
    // One byte past the longest sheet, so that a longer one is seen. Nothing is on the heap: what was read is a part of an array.
    let mut bytes = [0u8; 1253];
    let size = io::read_full(0, &mut bytes);
    let mut text = areas::zeros::<16384>();
    let end = report::report(&bytes[..size], &mut text);
    io::write_all(1, &text[..end]);
}
