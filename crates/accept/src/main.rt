// Holds a proof sheet against a machine sheet: `accept MACHINE-SHEET PROOF-SHEET`, two files by name. It prints one line, `accepted` with the
// size of the smallest model that the proof sheet has, or a refusal with its number and which sheet it is of. What the line says is the
// verdict of `report::verdict`; this program reads the files and prints it.
#![tactic(auto)]

use report::verdict;
use std::env::{Env, FillError};
use std::fmt::Write;
use std::fs::File;
use std::io::Read;
use std::os::fd::AsRawFd;
use text::Stream;

// Opens the file that an argument names. Where it cannot, it says so on standard error and answers nothing. A name that is no UTF-8 names no
// file that this program can open.
fn open(rt: &HostRuntime, i: usize) -> Option<File> {
    let mut name = io::buffer();
    let size = rt.arg(i, &mut name).unwrap_or(0);
    if let Ok(text) = str::from_utf8(&name[..size]) {
        if let Ok(mut file) = File::open(rt, text) {
            // To read nothing fails from a folder.
            let mut nothing = [0u8; 1];
            if file.read(&mut nothing[..0]).is_ok() {
                return Some(file);
            }
        }
    }
    // In three pieces: the name may be no text.
    io::write_all(2, b"accept: cannot read ");
    io::write_all(2, &name[..size]);
    io::write_all(2, b"\n");
    None
}

// Whether there is an argument at that place. `why` has the same two lines: a public function for both would have to have a clause and an edit
// that it refuses, and no clause can say what an argument is.
fn given(rt: &HostRuntime, i: usize) -> bool {
    let mut name = [0u8; 1];
    !matches!(rt.arg(i, &mut name), Err(FillError::NotPresent))
}

// Of each sheet one byte more than the longest has, so that a longer one is seen. Nothing is on the heap: an array has the room, and what was
// read is a part of it.
fn main(rt: HostRuntime) {
    if !given(&rt, 2) || given(&rt, 3) {
        let _ = writeln!(Stream(2), "usage: accept MACHINE-SHEET PROOF-SHEET");
        return;
    }
    let Some(machine) = open(&rt, 1) else {
        return;
    };
    let Some(proof) = open(&rt, 2) else {
        return;
    };
    let mut machine_sheet = [0u8; 1253];
    let mut proof_sheet = [0u8; 9369];
    let size = io::read_full(machine.as_raw_fd(), &mut machine_sheet);
    let end = io::read_full(proof.as_raw_fd(), &mut proof_sheet);
    let _ = match verdict::verdict_on(&machine_sheet[..size], &proof_sheet[..end]) {
        Ok(states) => writeln!(Stream(1), "accepted {states}"),
        Err(rejection) => writeln!(Stream(1), "{rejection}"),
    };
}
