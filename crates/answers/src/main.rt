// Answers cases: reads them on standard input, one after the other, has each answered by the proved operation that it names, and writes
// on standard output what was answered and what each lent area holds afterwards. So another program, on any machine, can hold every answer
// and every lent byte against its own.
//
// A number is two bytes, low first. A case is
//     the operation     1 byte
//     the seed          1 byte
//     its numbers       4 numbers
//     its areas         2 numbers: the length of each lent area, in bytes or in words as the operation takes it
//     its inputs        2 numbers: the length of each input, in bytes
//     the inputs        the bytes of both, one after the other
// and what an operation does not use is 0. Before the call, byte i of area a (0 or 1) is (7·i + 13·a + seed) mod 256. A word area or a
// word input is taken from its bytes two by two, low first.
//
//     operation           numbers   areas              inputs               answers
//     1 reads a machine   -         words, up to 600   the sheet            n, k
//     2 writes one        n, k      bytes, up to 2000  words, up to 600     the sheet's length
//     3 reads a proof     -         -                  the sheet            m, k, n, c
//     4 AW record         state     -                  the sheet            the part's length
//     5 question          n, k      -                  words, and the word  the output
//     6 learns            n, k,     bytes, up to       words, up to 600     states, rounds, cells, bytes written
//                         L, R      36000 and 10000
//     7 checks            n, k      -                  words, and a sheet   -
//     8 why apart         n, k,     bytes, up to 100   words, up to 600     the word's length, both last outputs
//                         s, t
//
// An answer is
//     its kind          1 byte: 0 refused, 1 answered; from the learner 1 for Done and 2 for Open; 2 where no word tells two states apart
//     its numbers       4 numbers: the refusal's number alone, or the values; what is not used is 0
//     the areas         the bytes of each lent area, whole
//     the part          the bytes of the part handed back, for the AW record alone
//
// The program ends with its input, at a case that does not fit its buffers, and at an operation that it does not know: whoever counts the
// answers sees that.
#![tactic(auto)]

mod lent;

use apart::Told;
use learning::{Counts, Learnt};
use lent::number;
use machine::Refusal;
use machines::Size;
use sheets::{checker, machines, proofs};

// Why no more cases are answered.
#[derive(Clone, Copy)]
enum Stop {
    // the input ends, or the output does
    Closed,
    // a case does not fit the buffers
    Room,
    // there is no such operation
    Operation,
}

#[derive(Clone, Copy)]
enum Operation {
    ReadMachine,
    WriteMachine,
    ReadProof,
    AwRecord,
    Question,
    Learn,
    Check,
    Why,
}

impl TryFrom<u8> for Operation {
    type Error = Stop;

    fn try_from(code: u8) -> Result<Operation, Stop> {
        match code {
            1 => Ok(Operation::ReadMachine),
            2 => Ok(Operation::WriteMachine),
            3 => Ok(Operation::ReadProof),
            4 => Ok(Operation::AwRecord),
            5 => Ok(Operation::Question),
            6 => Ok(Operation::Learn),
            7 => Ok(Operation::Check),
            8 => Ok(Operation::Why),
            _ => Err(Stop::Operation),
        }
    }
}

// The head of a case: all that comes before its inputs. The operation stays the byte that was read: one that is none is told only when the
// inputs are read too, as before.
#[derive(Clone, Copy)]
struct Case {
    operation: u8,
    seed: u8,
    numbers: [usize; 4],
    areas: [usize; 2],
    inputs: [u16; 2],
}

impl From<[u8; 18]> for Case {
    fn from(head: [u8; 18]) -> Case {
        Case {
            operation: head[0],
            seed: head[1],
            numbers: [
                number([head[2], head[3]]),
                number([head[4], head[5]]),
                number([head[6], head[7]]),
                number([head[8], head[9]]),
            ],
            areas: [number([head[10], head[11]]), number([head[12], head[13]])],
            inputs: [
                u16::from_le_bytes([head[14], head[15]]),
                u16::from_le_bytes([head[16], head[17]]),
            ],
        }
    }
}

fn write(bytes: &[u8]) -> Result<(), Stop> {
    if io::write_all(1, bytes) {
        Ok(())
    } else {
        Err(Stop::Closed)
    }
}

// Writes an answer: its kind, the byte that the head of this file has for it, and its four numbers.
fn say(kind: u8, numbers: [usize; 4]) -> Result<(), Stop> {
    let mut answer = [kind; 9];
    for (i, x) in numbers.iter().enumerate() {
        let [low, high] = lent::low_high(*x);
        answer[1 + 2 * i] = low;
        answer[2 + 2 * i] = high;
    }
    write(&answer)
}

fn say_refused(refusal: Refusal) -> Result<(), Stop> {
    say(0, [usize::from(u8::from(refusal)), 0, 0, 0])
}

// Reading a machine sheet.
fn read_machine(case: &Case, sheet: &[u8]) -> Result<(), Stop> {
    let size = case.areas[0];
    if 600 < size {
        return Err(Stop::Room);
    }
    let mut room = [0u16; 600];
    let words = &mut room[..size];
    lent::fill_words(words, 0, case.seed);
    match machines::read(sheet, words) {
        Ok(Size { n, k }) => say(1, [n, k, 0, 0])?,
        Err(refusal) => say_refused(refusal)?,
    }
    lent::write_words(words)
}

// Writing a machine sheet.
fn write_machine(case: &Case, words: &[u16]) -> Result<(), Stop> {
    let size = case.areas[0];
    if 2000 < size {
        return Err(Stop::Room);
    }
    let mut room = [0u8; 2000];
    let sheet = &mut room[..size];
    lent::fill(sheet, 0, case.seed);
    let [n, k, _, _] = case.numbers;
    match machines::write(words, n, k, sheet) {
        Ok(length) => say(1, [length, 0, 0, 0])?,
        Err(refusal) => say_refused(refusal)?,
    }
    write(sheet)
}

fn read_proof(sheet: &[u8]) -> Result<(), Stop> {
    match proofs::read(sheet) {
        Ok(counts) => say(1, [counts.m, counts.k, counts.n, counts.c]),
        Err(refusal) => say_refused(refusal),
    }
}

fn aw_record(case: &Case, sheet: &[u8]) -> Result<(), Stop> {
    let part = proofs::aw_record(sheet, case.numbers[0]);
    say(1, [part.len(), 0, 0, 0])?;
    write(part)
}

fn question(case: &Case, words: &[u16], word: &[u8]) -> Result<(), Stop> {
    let [n, k, _, _] = case.numbers;
    match machine::question(words, n, k, word) {
        Ok(output) => say(1, [usize::from(output), 0, 0, 0]),
        Err(refusal) => say_refused(refusal),
    }
}

fn check(case: &Case, words: &[u16], sheet: &[u8]) -> Result<(), Stop> {
    let [n, k, _, _] = case.numbers;
    match checker::check(words, n, k, sheet) {
        Ok(()) => say(1, [0; 4]),
        Err(refusal) => say_refused(refusal),
    }
}

fn say_learnt(kind: u8, c: Counts) -> Result<(), Stop> {
    say(kind, [c.states, c.rounds, c.cells, c.bytes])
}

fn learn(case: &Case, words: &[u16]) -> Result<(), Stop> {
    let [size, length] = case.areas;
    if 36000 < size || 10000 < length {
        return Err(Stop::Room);
    }
    let mut table_room = areas::zeros::<36000>();
    let mut sheet_room = areas::zeros::<10000>();
    let table = &mut table_room[..size];
    let sheet = &mut sheet_room[..length];
    lent::fill(table, 0, case.seed);
    lent::fill(sheet, 1, case.seed);
    let [n, k, limit, most] = case.numbers;
    match learning::learn(words, n, k, limit, most, table, sheet) {
        Ok(Learnt::Done(counts)) => say_learnt(1, counts)?,
        Ok(Learnt::Open(counts)) => say_learnt(2, counts)?,
        Err(refusal) => say_refused(refusal)?,
    }
    write(table)?;
    write(sheet)
}

// Why two states are apart.
fn why(case: &Case, words: &[u16]) -> Result<(), Stop> {
    let size = case.areas[0];
    if 100 < size {
        return Err(Stop::Room);
    }
    let mut room = [0u8; 100];
    let area = &mut room[..size];
    lent::fill(area, 0, case.seed);
    let [n, k, s, t] = case.numbers;
    match apart::why_apart(words, n, k, s, t, area) {
        Ok(
            Some(
                Told {
                    length,
                    first,
                    second,
                },
            ),
        ) => say(1, [length, usize::from(first), usize::from(second), 0])?,
        Ok(None) => say(2, [0; 4])?,
        Err(refusal) => say_refused(refusal)?,
    }
    write(area)
}

// Has a case answered that lends a machine: its words are taken from the first input.
fn answer_words(
    case: &Case,
    operation: Operation,
    first: &[u8],
    second: &[u8],
) -> Result<(), Stop> {
    let count = first.len() / 2;
    if 600 < count {
        return Err(Stop::Room);
    }
    let mut room = [0u16; 600];
    let words = &mut room[..count];
    lent::take_words(words, first);
    match operation {
        Operation::WriteMachine => write_machine(case, words),
        Operation::Question => question(case, words, second),
        Operation::Learn => learn(case, words),
        Operation::Check => check(case, words, second),
        Operation::Why => why(case, words),
        // The three that lend no machine: `answer` has them.
        _ => Err(Stop::Operation),
    }
}

// Has a case answered.
fn answer(case: &Case, first: &[u8], second: &[u8]) -> Result<(), Stop> {
    match Operation::try_from(case.operation)? {
        Operation::ReadMachine => read_machine(case, first),
        Operation::ReadProof => read_proof(first),
        Operation::AwRecord => aw_record(case, first),
        operation => answer_words(case, operation, first, second),
    }
}

// Reads a case and has it answered.
fn answer_case() -> Result<(), Stop> {
    let mut head = [0u8; 18];
    if io::read_full(0, &mut head) < 18 {
        return Err(Stop::Closed);
    }
    let case = Case::from(head);
    let first = usize::from(case.inputs[0]);
    let size = first + usize::from(case.inputs[1]);
    if 16384 < size {
        return Err(Stop::Room);
    }
    let mut room = areas::zeros::<16384>();
    if io::read_full(0, &mut room[..size]) < size {
        return Err(Stop::Closed);
    }
    let inputs = &room[..size];
    answer(&case, &inputs[..first], &inputs[first..])
}

fn main() {
    // A proved loop has to end, and nothing says that the input does. So the turns are counted, to a number that no run comes to.
    for _ in 0..u64::MAX {
        if answer_case().is_err() {
            break;
        }
    }
}
