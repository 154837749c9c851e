// Every public operation for C: include/trachuliem.h has the other side. No enum and no part of a slice goes over to C, so that an answer is
// a struct of its numbers, and the AW record is its place and length. What each function promises is the operation's own definition, with
// the answer put into the struct by `Handheld`.
#![tactic(auto)]

ghost use Rattle.std.specs.Prelude.{◌≡◌, length};
ghost use Rattle.machine.specs.Answers.{answered};
ghost use Rattle.machine.specs.Lent.{lent_check};
ghost use Rattle.machine.specs.Lent as lents;
ghost use Rattle.learning.specs.Answers.{learnt};
ghost use Rattle.learning.specs.Learner as learner;
ghost use Rattle.sheets.specs.MachineAnswers.{read_of};
ghost use Rattle.sheets.specs.Machines.{read_machine, write_machine};
ghost use Rattle.sheets.specs.ProofAnswers as proofAnswers;
ghost use Rattle.sheets.specs.Proofs.{read_proof, aw_record};
ghost use Rattle.sheets.specs.ProofParts.{aw_place};
ghost use Rattle.sheets.specs.Checker as checker;
ghost use Rattle.apart.specs.Answers.{why_of};
ghost use Rattle.apart.specs.Apart as states;
ghost use Rattle.handheld.specs.Handheld.{refusal_of, output_of, size_of, length_of, outcome_of, counts_of, apart_of};

use apart::Told;
use learning::Learnt;
use machine::Refusal;
use sheets::{checker, machines, proofs};

// In each of these `refusal` is the paper's number, 0 for none; at a refusal the other numbers are 0.
#[repr(C)]
#[derive(Clone, Copy)]
pub struct Output {
    pub refusal: u8,
    pub output: u8,
}

#[repr(C)]
#[derive(Clone, Copy)]
pub struct Size {
    pub refusal: u8,
    pub n: usize,
    pub k: usize,
}

#[repr(C)]
#[derive(Clone, Copy)]
pub struct Length {
    pub refusal: u8,
    pub length: usize,
}

// `kind` is 0 for a refusal, 1 for Done and 2 for Open.
#[repr(C)]
#[derive(Clone, Copy)]
pub struct Outcome {
    pub kind: u8,
    pub refusal: u8,
    pub states: usize,
    pub rounds: usize,
    pub cells: usize,
    pub bytes: usize,
}

#[repr(C)]
#[derive(Clone, Copy)]
pub struct Counts {
    pub refusal: u8,
    pub m: usize,
    pub k: usize,
    pub n: usize,
    pub c: usize,
}

// `kind` is 0 for a refusal, 1 where a word tells the two states apart and 2 for none.
#[repr(C)]
#[derive(Clone, Copy)]
pub struct Apart {
    pub kind: u8,
    pub refusal: u8,
    pub length: usize,
    pub first: u8,
    pub second: u8,
}

// A part of a lent sheet. The empty part is at 0.
#[repr(C)]
#[derive(Clone, Copy)]
pub struct Part {
    pub place: usize,
    pub length: usize,
}

// The numbers of each answer; a check has the refusal alone, and no `From`, since neither type is this crate's.
fn number_of(c: Result<(), Refusal>) -> u8
    ensures { result ≡ refusal_of (answered c) }
{
    match c {
        Ok(()) => 0,
        Err(r) => u8::from(r),
    }
}

impl From<Result<u8, Refusal>> for Output {
    ghost from_gives = { λ a o. o ≡ output_of (answered a) };

    fn from(a: Result<u8, Refusal>) -> Output {
        match a {
            Ok(output) => Output { refusal: 0, output },
            Err(r) => Output {
                refusal: u8::from(r),
                output: 0,
            },
        }
    }
}

impl From<Result<machines::Size, Refusal>> for Size {
    ghost from_gives = { λ a s. s ≡ size_of (read_of a) };

    fn from(a: Result<machines::Size, Refusal>) -> Size {
        match a {
            Ok(size) => Size {
                refusal: 0,
                n: size.n,
                k: size.k,
            },
            Err(r) => Size {
                refusal: u8::from(r),
                n: 0,
                k: 0,
            },
        }
    }
}

impl From<Result<usize, Refusal>> for Length {
    ghost from_gives = { λ a l. l ≡ length_of (answered a) };

    fn from(a: Result<usize, Refusal>) -> Length {
        match a {
            Ok(length) => Length { refusal: 0, length },
            Err(r) => Length {
                refusal: u8::from(r),
                length: 0,
            },
        }
    }
}

impl From<Result<Learnt, Refusal>> for Outcome {
    ghost from_gives = { λ a o. o ≡ outcome_of (learnt a) };

    fn from(a: Result<Learnt, Refusal>) -> Outcome {
        let (kind, counts) = match a {
            Ok(Learnt::Done(counts)) => (1, counts),
            Ok(Learnt::Open(counts)) => (2, counts),
            Err(r) => {
                return Outcome {
                    kind: 0,
                    refusal: u8::from(r),
                    states: 0,
                    rounds: 0,
                    cells: 0,
                    bytes: 0,
                };
            }
        };
        Outcome {
            kind,
            refusal: 0,
            states: counts.states,
            rounds: counts.rounds,
            cells: counts.cells,
            bytes: counts.bytes,
        }
    }
}

impl From<Result<proofs::Counts, Refusal>> for Counts {
    ghost from_gives = { λ a c. c ≡ counts_of (proofAnswers.read_of a) };

    fn from(a: Result<proofs::Counts, Refusal>) -> Counts {
        match a {
            Ok(counts) => Counts {
                refusal: 0,
                m: counts.m,
                k: counts.k,
                n: counts.n,
                c: counts.c,
            },
            Err(r) => Counts {
                refusal: u8::from(r),
                m: 0,
                k: 0,
                n: 0,
                c: 0,
            },
        }
    }
}

impl From<Result<Option<Told>, Refusal>> for Apart {
    ghost from_gives = { λ a t. t ≡ apart_of (why_of a) };

    fn from(a: Result<Option<Told>, Refusal>) -> Apart {
        match a {
            Ok(Some(told)) => Apart {
                kind: 1,
                refusal: 0,
                length: told.length,
                first: told.first,
                second: told.second,
            },
            Ok(None) => Apart {
                kind: 2,
                refusal: 0,
                length: 0,
                first: 0,
                second: 0,
            },
            Err(r) => Apart {
                kind: 0,
                refusal: u8::from(r),
                length: 0,
                first: 0,
                second: 0,
            },
        }
    }
}

#[unsafe(no_mangle)]
pub extern "C" fn trachuliem_check_machine(words: &[u16], n: usize, k: usize) -> u8
    ensures { result ≡ refusal_of (lent_check n k words.now) }
{
    number_of(machine::check(words, n, k))
}

#[unsafe(no_mangle)]
pub extern "C" fn trachuliem_question(words: &[u16], n: usize, k: usize, word: &[u8]) -> Output
    ensures { result ≡ output_of (lents.question n k words.now word.now) }
{
    Output::from(machine::question(words, n, k, word))
}

#[unsafe(no_mangle)]
pub extern "C" fn trachuliem_learn(
    words: &[u16],
    n: usize,
    k: usize,
    limit: usize,
    most: usize,
    table: &mut [u8],
    sheet: &mut [u8],
) -> Outcome
    ensures value { result ≡ outcome_of (learner.learn n k words.now limit most table.old sheet.old).answer }
    ensures table_after { table.new ≡ (learner.learn n k words.now limit most table.old sheet.old).table }
    ensures sheet_after { sheet.new ≡ (learner.learn n k words.now limit most table.old sheet.old).sheet }
{
    Outcome::from(learning::learn(words, n, k, limit, most, table, sheet))
}

#[unsafe(no_mangle)]
pub extern "C" fn trachuliem_read_machine(sheet: &[u8], area: &mut [u16]) -> Size
    ensures value { result ≡ size_of (read_machine sheet.now area.old).answer }
    ensures area_after { area.new ≡ (read_machine sheet.now area.old).area }
{
    Size::from(machines::read(sheet, area))
}

#[unsafe(no_mangle)]
pub extern "C" fn trachuliem_write_machine(
    words: &[u16],
    n: usize,
    k: usize,
    area: &mut [u8],
) -> Length
    ensures value { result ≡ length_of (write_machine n k words.now area.old).answer }
    ensures area_after { area.new ≡ (write_machine n k words.now area.old).area }
{
    Length::from(machines::write(words, n, k, area))
}

#[unsafe(no_mangle)]
pub extern "C" fn trachuliem_read_proof(sheet: &[u8]) -> Counts
    ensures { result ≡ counts_of (read_proof sheet.now) }
{
    Counts::from(proofs::read(sheet))
}

// A part's place cannot be read off it in Rattle: the place is found again.
#[unsafe(no_mangle)]
pub extern "C" fn trachuliem_aw_record(sheet: &[u8], state: usize) -> Part
    ensures { (result.place ≡ aw_place sheet.now state) × (result.length ≡ length (aw_record sheet.now state)) }
{
    // The first record's place is written out here: `Counts::reaching`, which has it, is of its crate alone, and a public one would be a
    // function more for this one line.
    let length = proofs::aw_record(sheet, state).len();
    let place = match proofs::read(sheet) {
        Ok(proofs::Counts { m, k, .. }) if state < m => {
            proofs::record_place(sheet, 6 + m * (2 + 2 * k), state)
        }
        _ => 0,
    };
    Part { place, length }
}

#[unsafe(no_mangle)]
pub extern "C" fn trachuliem_check_proof(words: &[u16], n: usize, k: usize, sheet: &[u8]) -> u8
    ensures { result ≡ refusal_of (checker.check n k words.now sheet.now) }
{
    number_of(checker::check(words, n, k, sheet))
}

#[unsafe(no_mangle)]
pub extern "C" fn trachuliem_why_apart(
    words: &[u16],
    n: usize,
    k: usize,
    s: usize,
    t: usize,
    area: &mut [u8],
) -> Apart
    ensures value { result ≡ apart_of (states.apart n k words.now s t area.old).answer }
    ensures area_after { area.new ≡ (states.apart n k words.now s t area.old).area }
{
    Apart::from(apart::why_apart(words, n, k, s, t, area))
}
