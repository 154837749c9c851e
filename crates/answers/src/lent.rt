// Areas full of noise, and words as bytes: two by two, low first. Nothing is on the heap: an array has room for the most, and a part is used.
ghost use Rattle.std.specs.Prelude.{◌*◌, ◌<◌, ◌≤◌, length};

use crate::{Stop, write};

// The number of two bytes.
pub(crate) fn number(bytes: [u8; 2]) -> usize
    ensures { result < 65536 }
{
    usize::from(u16::from_le_bytes(bytes))
}

// The lowest two bytes of a number: `as` of a remainder that fits, since no `From` makes a number narrower.
pub(crate) fn low_high(x: usize) -> [u8; 2] {
    ((x % 65536) as u16).to_le_bytes()
}

// Byte i of an area before the call: (7·i + 13·area + seed) mod 256, which fits a byte.
fn noise(i: usize, area: u8, seed: u8) -> u8 {
    ((7 * (i % 256) + 13 * usize::from(area) + usize::from(seed)) % 256) as u8
}

// Fills an area of bytes. By index: what is written through `iter_mut` with an adapter is not known afterwards.
pub(crate) fn fill(bytes: &mut [u8], area: u8, seed: u8) {
    for i in 0..bytes.len() {
        bytes[i] = noise(i, area, seed);
    }
}

// Takes words from their bytes.
pub(crate) fn take_words(words: &mut [u16], bytes: &[u8])
    requires { length words.old * 2 ≤ length bytes.now }
{
    for i in 0..words.len() {
        words[i] = u16::from_le_bytes([bytes[i * 2], bytes[i * 2 + 1]]);
    }
}

// Fills an area of words.
pub(crate) fn fill_words(words: &mut [u16], area: u8, seed: u8)
    requires { length words.old ≤ 600 }
{
    let mut bytes = [0u8; 1200];
    fill(&mut bytes, area, seed);
    take_words(words, &bytes);
}

// Writes the bytes of words, at once.
pub(crate) fn write_words(words: &[u16]) -> Result<(), Stop>
    requires { length words.now ≤ 600 }
{
    let mut bytes = [0u8; 1200];
    for (i, word) in words.iter().enumerate() {
        let [output, next] = word.to_le_bytes();
        bytes[i * 2] = output;
        bytes[i * 2 + 1] = next;
    }
    let end = words.len() * 2;
    write(&bytes[..end])
}
