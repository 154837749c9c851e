// What the desk programs say. Here it is the text of `learn`, the model's lines or a refusal's one line, put into a lent area; `send` has what
// `proof` sends, `verdict` what `accept` says, and `why` what `why` does. Area and place stay two parameters, as `areas::records` says. The text
// is put by functions with clauses, and not by `Display`, which writes to a stream: `report` promises each byte of its area.
//
// Each of the four reads the machine sheet for itself, in three lines: the words lie in its own array, since nothing is on the heap, and a
// function of their own would have to be handed what is to be done with them.
#![tactic(auto)]

ghost use Rattle.std.specs.Prelude.{◌≡◌, ◌+◌, ◌*◌, ◌<◌, ◌≤◌, length};
ghost use Rattle.text.specs.Putting.{Put};
ghost use Rattle.learning.specs.Answers.{learnt, counted};
ghost use Rattle.machine.specs.Refusals as refusals;
ghost use Rattle.report.specs.Report.{line, refusal, pair_line, pair_lines, model, told};
ghost use Rattle.report.specs.Report as said;
ghost use Rattle.report.specs.ReportLaws.{SmallIfDone};

pub mod send;
pub mod verdict;
pub mod why;

use areas::store;
use learning::{Counts, Learnt};
use machine::Refusal;
use sheets::machines;
use sheets::machines::Size;

// A number, and the byte after it. Answers where it ends.
fn put_number(area: &mut [u8], at: usize, x: usize, end: u8) -> usize
    requires { (at + 6 ≤ length area.old) × (x < 100000) }
    ensures { Put at (said.number x end) area.old result area.new }
{
    let place = text::put_decimal(area, at, x);
    area[place] = end;
    place + 1
}

// Four numbers on a line, in this order: the counts' line has k among them, so that no struct has just these. Answers where it ends.
fn put_line(area: &mut [u8], at: usize, a: usize, b: usize, c: usize, d: usize) -> usize
    requires at_in_bounds { at + 24 ≤ length area.old }
    requires a_bound { (a < 100000) × (b < 100000) × (c < 100000) × (d < 100000) }
    ensures { Put at (line a b c d) area.old result area.new × (result ≤ at + 24) }
{
    let second = put_number(area, at, a, 32);
    let third = put_number(area, second, b, 32);
    let fourth = put_number(area, third, c, 32);
    put_number(area, fourth, d, 10)
}

// The line of a pair of a proof sheet's model. Answers where it ends.
fn put_pair(area: &mut [u8], at: usize, sheet: &[u8], k: usize, i: usize) -> usize
    requires { (at + 24 ≤ length area.old) × (1 ≤ k) × (k ≤ 12) × (i < 576) × (10 + 4 * i ≤ length sheet.now) }
    ensures { Put at (pair_line k sheet.now i) area.old result area.new × (result ≤ at + 24) }
{
    let state = i / k;
    let letter = i % k;
    let place = 6 + (state * (2 + 2 * k) + (2 + 2 * letter));
    put_line(
        area,
        at,
        state,
        letter,
        usize::from(sheet[place]),
        usize::from(sheet[place + 1]),
    )
}

// The lines of the first `count` pairs. Answers where they end.
fn put_pairs(area: &mut [u8], at: usize, sheet: &[u8], k: usize, count: usize) -> usize
    requires { (at + 24 * count ≤ length area.old) × (1 ≤ k) × (k ≤ 12) × (count ≤ 576) × (10 + 4 * count ≤ length sheet.now) }
    ensures { Put at (pair_lines k sheet.now count) area.old result area.new × (result ≤ at + 24 * count) }
{
    let mut place = at;
    for i in 0..count {
        place = put_pair(area, place, sheet, k, i);
    }
    place
}

// A refusal's one line. Answers its length.
fn put_refusal(area: &mut [u8], r: Refusal) -> usize
    requires { 24 ≤ length area.old }
    ensures { Put 0 (refusal (refusals.number r)) area.old result area.new × (result ≤ 16384) }
{
    store::put_letters(area, 0, b"refused ");
    put_number(area, 8, usize::from(u8::from(r)), 10)
}

// The first line and the model's lines. Answers their length.
fn put_model(area: &mut [u8], sheet: &[u8], k: usize, counts: Counts) -> usize
    requires { (16384 ≤ length area.old) × (9368 ≤ length sheet.now) × (1 ≤ k) × (k ≤ 12) × (counts.states ≤ 48) × (counts.rounds ≤ 47) × (counts.cells ≤ 34043) }
    ensures { Put 0 (model k (counted counts) sheet.now) area.old result area.new × (result ≤ 16384) }
{
    store::put_letters(area, 0, b"model ");
    let place = put_line(area, 6, counts.states, k, counts.rounds, counts.cells);
    put_pairs(area, place, sheet, k, counts.states * k)
}

// What the learner answered, with the sheet that it left. Answers its length.
fn put_learnt(area: &mut [u8], answer: Learnt, k: usize, sheet: &[u8]) -> usize
    requires { (16384 ≤ length area.old) × (9368 ≤ length sheet.now) × (1 ≤ k) × (k ≤ 12) × SmallIfDone (learnt (Ok answer)) }
    ensures { Put 0 (told k (learnt (Ok answer)) sheet.now) area.old result area.new × (result ≤ 16384) }
{
    // With these limits no machine is left open: nothing is said, as the definition has it.
    let Learnt::Done(counts) = answer else {
        return 0;
    };
    put_model(area, sheet, k, counts)
}

// What `learn` prints for the bytes that it reads. Answers its length.
pub fn report(bytes: &[u8], area: &mut [u8]) -> usize
    requires { 16384 ≤ length area.old }
    ensures { Put 0 (said.report bytes.now) area.old result area.new × (result ≤ 16384) }
{
    let mut words = [0u16; 576];
    let Size { n, k } = match machines::read(bytes, &mut words) {
        Ok(size) => size,
        Err(r) => return put_refusal(area, r),
    };
    let size = n * k;
    let mut table = [0u8; 34043];
    let mut sheet = [0u8; 9368];
    match learning::learn(&words[..size], n, k, 48, 47, &mut table, &mut sheet) {
        Ok(learnt) => put_learnt(area, learnt, k, &sheet),
        Err(r) => put_refusal(area, r),
    }
}
