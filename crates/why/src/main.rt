// Says why two states of a machine are apart: `why S T`, with the machine sheet on standard input. It prints one line: `word` with the letters
// of the least word that the two answer differently, and its last output from each; `none`; or `refused` with its number. What the line says
// is the answer of `report::why`; this program reads the sheet and prints it.
#![tactic(auto)]

ghost use Rattle.std.specs.Prelude.{◌≤◌, IfSome};

use apart::Told;
use report::why;
use std::env::{Env, FillError};
use std::fmt;
use std::fmt::Write;
use text::Stream;

fn print_word(out: &mut Stream, w: &[u8], told: Told) -> fmt::Result {
    write!(out, "word")?;
    for letter in w {
        write!(out, " {letter}")?;
    }
    writeln!(out, ": {} {}", told.first, told.second)
}

// The value of a digit.
fn digit(byte: u8) -> Option<usize>
    ensures { IfSome result (λ x. x ≤ 9) }
{
    if byte.is_ascii_digit() {
        Some(usize::from(byte - 48))
    } else {
        None
    }
}

// The number that one digit or two spell. `parse` takes a sign and more digits too, and the program's answers may not change.
fn number(text: &[u8]) -> Option<usize> {
    if text.len() == 1 {
        return digit(text[0]);
    }
    if text.len() == 2 {
        return Some(10 * digit(text[0])? + digit(text[1])?);
    }
    None
}

// The state that an argument names; 48, which is no state of any machine, for a text that names none, so that the sheet's own refusals come
// first.
fn state(rt: &HostRuntime, i: usize) -> usize {
    let mut text = io::buffer();
    let size = rt.arg(i, &mut text).unwrap_or(0);
    number(&text[..size]).unwrap_or(48)
}

// Whether there is an argument at that place, as in `accept`.
fn given(rt: &HostRuntime, i: usize) -> bool {
    let mut text = [0u8; 1];
    !matches!(rt.arg(i, &mut text), Err(FillError::NotPresent))
}

fn main(rt: HostRuntime) {
    if !given(&rt, 2) || given(&rt, 3) {
        let _ = writeln!(Stream(2), "usage: why S T <MACHINE-SHEET");
        return;
    }
    let s = state(&rt, 1);
    let t = state(&rt, 2);
    // One byte past the longest sheet, so that a longer one is seen. Nothing is on the heap: what was read or found is a part of an array.
    let mut sheet = [0u8; 1253];
    let size = io::read_full(0, &mut sheet);
    let mut area = [0u8; 47];
    let mut out = Stream(1);
    let _ = match why::why_on(&sheet[..size], s, t, &mut area) {
        Ok(None) => writeln!(out, "none"),
        Ok(Some(told)) => print_word(&mut out, &area[..told.length], told),
        Err(refusal) => writeln!(out, "refused {}", u8::from(refusal)),
    };
}
