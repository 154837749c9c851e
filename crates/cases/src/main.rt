// Every case of document 01, marked P or Run, answered by the proved operations: a line for each, to be held against the paper.
#![tactic(auto)]

use learning::{Counts, Learnt};
use machine::Refusal;
use machines::Size;
use sheets::{checker, machines};
use std::fmt::{Result, Write};
use text::Stream;

fn say_refused(out: &mut Stream, name: &str, refusal: Refusal) -> Result {
    writeln!(out, "{name}: refused {}", u8::from(refusal))
}

// The bytes, in hexadecimal.
fn say_bytes(out: &mut Stream, bytes: &[u8]) -> Result {
    for byte in bytes {
        write!(out, " {byte:02x}")?;
    }
    writeln!(out, "")
}

// States, rounds, cells and bytes, and then the bytes themselves.
fn say_learnt(out: &mut Stream, name: &str, kind: &str, c: Counts, sheet: &[u8]) -> Result {
    writeln!(
        out,
        "{name}: {kind} {} {} {} {}",
        c.states, c.rounds, c.cells, c.bytes
    )?;
    if c.bytes <= sheet.len() {
        say_bytes(out, &sheet[..c.bytes])?;
    }
    Ok(())
}

fn reads(out: &mut Stream, name: &str, sheet: &[u8]) -> Result {
    let mut words = [0u16; 576];
    match machines::read(sheet, &mut words) {
        Ok(Size { n, k }) => writeln!(out, "{name}: read {n} {k}"),
        Err(refusal) => say_refused(out, name, refusal),
    }
}

// Learning into a table area that is lent whole, and a sheet area of the size that it asks. The parameters are those of the operation.
fn learns_in(
    out: &mut Stream,
    name: &str,
    words: &[u16],
    n: usize,
    k: usize,
    limit: usize,
    most: usize,
    table: &mut [u8],
) -> Result {
    let mut sheet = [0u8; 9368];
    match learning::learn(words, n, k, limit, most, table, &mut sheet) {
        Ok(Learnt::Done(counts)) => say_learnt(out, name, "done", counts, &sheet),
        Ok(Learnt::Open(counts)) => say_learnt(out, name, "open", counts, &sheet),
        Err(refusal) => say_refused(out, name, refusal),
    }
}

fn learns(
    out: &mut Stream,
    name: &str,
    words: &[u16],
    n: usize,
    k: usize,
    limit: usize,
    most: usize,
) -> Result {
    let mut table = [0u8; 34043];
    learns_in(out, name, words, n, k, limit, most, &mut table)
}

fn checks(out: &mut Stream, name: &str, words: &[u16], sheet: &[u8]) -> Result {
    match checker::check(words, 4, 2, sheet) {
        Ok(()) => writeln!(out, "{name}: accepted"),
        Err(refusal) => say_refused(out, name, refusal),
    }
}

fn learner_cases(out: &mut Stream, m1: &[u16]) -> Result {
    learns(out, "P M1, L = 48, R = 47", m1, 4, 2, 48, 47)?;
    learns(out, "P M1, L = 1, R = 0", m1, 4, 2, 1, 0)?;
    learns(out, "P M1, L = 2, R = 47", m1, 4, 2, 2, 47)?;
    learns(out, "P M1, L = 3, R = 47", m1, 4, 2, 3, 47)?;
    learns(out, "P MH 01 01 MR 07 00", &[7], 1, 1, 48, 47)?;
    learns(out, "Run L = 0", m1, 4, 2, 0, 47)?;
    learns(out, "Run L = 49", m1, 4, 2, 49, 47)?;
    learns(out, "Run R = 48", m1, 4, 2, 48, 48)?;
    // One array lends both areas: two would lie on the stack at once.
    let mut table = [0u8; 34043];
    let small = &mut table[..34042];
    learns_in(out, "Run table area 34042", m1, 4, 2, 48, 47, small)?;
    learns_in(out, "Run table area 34043", m1, 4, 2, 48, 47, &mut table)?;
    Ok(())
}

fn reader_cases(out: &mut Stream) -> Result {
    reads(out, "P empty sheet", b"")?;
    reads(out, "P MH 00 01", b"MH\x00\x01")?;
    reads(out, "P MH 31 01", b"MH\x31\x01")?;
    reads(out, "P MH 30 01 alone", b"MH\x30\x01")?;
    reads(
        out,
        "M1",
        b"MH\x04\x02MR\x00\x01\x00\x00MR\x00\x02\x00\x01MR\x01\x00\x00\x02MR\x01\x03\x00\x00",
    )?;
    reads(
        out,
        "P M1 with its last byte 04",
        b"MH\x04\x02MR\x00\x01\x00\x00MR\x00\x02\x00\x01MR\x01\x00\x00\x02MR\x01\x03\x00\x04",
    )?;
    reads(
        out,
        "P M1 with a byte more",
        b"MH\x04\x02MR\x00\x01\x00\x00MR\x00\x02\x00\x01MR\x01\x00\x00\x02MR\x01\x03\x00\x00\x00",
    )?;
    Ok(())
}

fn checker_cases(out: &mut Stream, m1: &[u16]) -> Result {
    checks(
        out,
        "P M1 proof sheet",
        m1,
        b"PH\x03\x02\x04\x03MR\x00\x01\x00\x00MR\x00\x02\x00\x01MR\x01\x00\x00\x02AW\x00AW\x01\x00AW\x02\x00\x00CW\x01\x00CW\x01\x01CW\x02\x00\x00SM\x00\x01\x02\xFF",
    )?;
    checks(
        out,
        "P without the CW for letter 1",
        m1,
        b"PH\x03\x02\x04\x02MR\x00\x01\x00\x00MR\x00\x02\x00\x01MR\x01\x00\x00\x02AW\x00AW\x01\x00AW\x02\x00\x00CW\x01\x00CW\x02\x00\x00SM\x00\x01\x02\xFF",
    )?;
    checks(
        out,
        "P without the CW of two letters",
        m1,
        b"PH\x03\x02\x04\x02MR\x00\x01\x00\x00MR\x00\x02\x00\x01MR\x01\x00\x00\x02AW\x00AW\x01\x00AW\x02\x00\x00CW\x01\x00CW\x01\x01SM\x00\x01\x02\xFF",
    )?;
    checks(
        out,
        "P with AW 01 00 for state 2",
        m1,
        b"PH\x03\x02\x04\x03MR\x00\x01\x00\x00MR\x00\x02\x00\x01MR\x01\x00\x00\x02AW\x00AW\x01\x00AW\x01\x00CW\x01\x00CW\x01\x01CW\x02\x00\x00SM\x00\x01\x02\xFF",
    )?;
    checks(
        out,
        "P with SM 00 01 02 02",
        m1,
        b"PH\x03\x02\x04\x03MR\x00\x01\x00\x00MR\x00\x02\x00\x01MR\x01\x00\x00\x02AW\x00AW\x01\x00AW\x02\x00\x00CW\x01\x00CW\x01\x01CW\x02\x00\x00SM\x00\x01\x02\x02",
    )?;
    Ok(())
}

fn cases(out: &mut Stream) -> Result {
    // M1, by hand: a word is 256·next + output.
    let m1: [u16; 8] = [256, 0, 512, 256, 1, 512, 769, 0];
    learner_cases(out, &m1)?;
    reader_cases(out)?;
    checker_cases(out, &m1)
}

fn main() {
    let _ = cases(&mut Stream(1));
}
