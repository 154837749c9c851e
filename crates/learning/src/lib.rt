// The learning part: the learner of document 01's rules 1 to 6.
//
// `learn` takes every input and refuses by the paper's numbers. The rules stand in modules of their own: `table` and `closing` (1 to 4),
// `rounds` (6), and `finish` for the proof sheet; rule 5 is the search's, which is a crate of its own, since it reads the machine's words.
#![tactic(auto)]

ghost use Rattle.std.specs.Prelude.{◌≡◌, ◌≤◌, length, take, IfOk};
ghost use Rattle.rules.specs.Areas.{over, zeros};
ghost use Rattle.rules.specs.Sheets.{CX, word_bytes};
ghost use Rattle.machine.specs.Answers.{answer};
ghost use Rattle.machine.specs.Lent.{Sound};
ghost use Rattle.machine.specs.Linked.{linked};
ghost use Rattle.learning.specs.Learner.{learn_check, stop_leaves};
ghost use Rattle.learning.specs.Learner as learner;
ghost use Rattle.learning.specs.Answers.{learnt};
ghost use Rattle.learning.specs.Desks.{stop_at, Turning};
ghost use Rattle.learning.specs.Leaving.{left_by};

mod closing;
mod rounds;
mod table;

use areas::store::Store;
use areas::{records, store};
use machine::{Lent, Refusal};
use rounds::Stop;
use table::Desk;

// What is counted: the words in S, the rounds past, the cells, and the bytes written to the sheet area.
#[derive(Clone, Copy, Debug, PartialEq, Eq)]
pub struct Counts {
    pub states: usize,
    pub rounds: usize,
    pub cells: usize,
    pub bytes: usize,
}

// How learning ends: the model is done, or a counterexample is left.
#[derive(Clone, Copy, Debug, PartialEq, Eq)]
pub enum Learnt {
    Done(Counts),
    Open(Counts),
}

// The first `count` bytes are set to zero.
fn zero(area: &mut [u8], count: usize)
    requires { count ≤ length area.old }
    ensures { area.new ≡ over (zeros count) area.old }
{
    area[..count].fill(0);
}

// The refusals that come before learning: 7, machine, 8, 9. Its parameters are the operation's, in the paper's order.
fn learn_check<'a>(
    words: &'a [u16],
    n: usize,
    k: usize,
    limit: usize,
    most: usize,
    table: &[u8],
    sheet: &[u8],
) -> Result<Lent<'a>, Refusal>
    ensures refusal { answer (λ _. tt) result ≡ learn_check n k words.now limit most table.now sheet.now }
    ensures machine { IfOk result (λ m. (m.words.now ≡ words.now) × (m.n ≡ n) × (m.k ≡ k) × Sound m.n m.k m.words.now) }
{
    if !machine::within(1, 48, limit) || 47 < most {
        return Err(Refusal::BadLimit);
    }
    let machine = Lent::new(words, n, k)?;
    if table.len() < 34043 {
        return Err(Refusal::SmallArea);
    }
    if sheet.len() < 9368 {
        return Err(Refusal::SmallSheet);
    }
    Ok(machine)
}

// Open's record: CX, the length and the letters of the counterexample. The length fits a byte, by the first clause; no `From` makes a number
// narrower.
fn put_counterexample(sheet: &mut [u8], w: &[u8])
    requires { (length w.now ≤ 94) × (9368 ≤ length sheet.old) }
    ensures { sheet.new ≡ over (word_bytes CX w.now) sheet.old }
{
    records::put_mark(sheet, 0, b"CX");
    sheet[2] = w.len() as u8;
    store::put_letters(sheet, 3, w);
}

// What is left where the rounds stopped: 10 if there are more words than the limit, the counterexample if one is left, and else the proof
// sheet. Seven parameters: no struct may hold the areas that are written and keep a fact of them, and conjecture and counterexample lie in
// arrays of `learn`, since nothing is on the heap.
fn leave(
    desk: &Desk,
    limit: usize,
    stop: Stop,
    model: &[u16],
    found: &[u8],
    table: &mut [u8],
    sheet: &mut [u8],
) -> Result<Learnt, Refusal>
    requires turn { Turning desk.now stop.past table.old model.now found.now stop.left }
    requires room { 9368 ≤ length sheet.old }
    ensures { let m = desk.now.machine in
        left_by (learnt result) table.new sheet.new
        ≡ stop_leaves m.k (linked m) limit (stop_at desk.now stop.past) table.old sheet.old }
{
    let states = desk.s.len();
    if limit < states {
        zero(table, 34043);
        return Err(Refusal::OverLimit);
    }
    let rounds = stop.past;
    let cells = (1 + states * desk.machine.k) * desk.columns.len();
    if let Some(length) = stop.left {
        put_counterexample(sheet, &found[..length]);
        return Ok(Learnt::Open(Counts {
            states,
            rounds,
            cells,
            bytes: 3 + length,
        }));
    }
    let model = Lent {
        words: model,
        n: states,
        k: desk.machine.k,
    };
    let bytes = finish::finish(&desk.machine, &model, &desk.columns, sheet);
    Ok(Learnt::Done(Counts {
        states,
        rounds,
        cells,
        bytes,
    }))
}

// Learns the machine's smallest model within `limit` states and `most` rounds. It is lent words, n and k as C has them, and writes nothing
// before the checks are passed.
pub fn learn(
    words: &[u16],
    n: usize,
    k: usize,
    limit: usize,
    most: usize,
    table: &mut [u8],
    sheet: &mut [u8],
) -> Result<Learnt, Refusal>
    ensures { left_by (learnt result) table.new sheet.new ≡ learner.learn n k words.now limit most table.old sheet.old }
{
    let machine = learn_check(words, n, k, limit, most, table, sheet)?;
    zero(table, 34043);
    let mut desk = Desk {
        machine,
        s: Store::new(),
        rows: [0; 48],
        columns: Store::new(),
    };
    let mut model = [0u16; 576];
    let mut found = [0u8; 96];
    let stop = desk.rounds(most, &mut table[..34043], &mut model, &mut found);
    leave(&desk, limit, stop, &model, &found, table, sheet)
}
