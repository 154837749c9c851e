// The finished proof sheet: the model numbered by least words, the columns in table order, the state map. Sheet and place stay two
// parameters, as `areas::records` says.
#![tactic(auto)]

mod numbered;

ghost use Rattle.std.specs.Prelude.{◌≡◌, ◌++◌, ◌∷◌, [], map, ◌+◌, ◌*◌, ◌<◌, ◌≤◌, length};
ghost use Rattle.rules.specs.Areas.{put};
ghost use Rattle.rules.specs.Sheets.{PH, SM, word_bytes, words_bytes, proof_bytes};
ghost use Rattle.rules.specs.Numbering.{state_map};
ghost use Rattle.machine.specs.Linked.{linked};
ghost use Rattle.search.specs.Pairs.{Beside};
ghost use Rattle.finish.specs.Sheet.{mark_of, numbered_sheet};

use areas::records;
use areas::store::{self, Store};
use machine::Lent;
use numbered::Numbered;
use search::Numbering;

// The record of a word: its mark, its length and its letters. Answers where it ends.
fn put_record(sheet: &mut [u8], at: usize, mark: &[u8; 2], w: &[u8]) -> usize
    requires short { length w.now < 256 }
    requires room { at + (3 + length w.now) ≤ length sheet.old }
    ensures value { result ≡ at + (3 + length w.now) }
    ensures sheet_after { sheet.new ≡ put at (word_bytes (mark_of mark.now) w.now) sheet.old }
{
    records::put_mark(sheet, at, mark);
    // The length fits a byte, by its clause; no `From` makes a number narrower.
    sheet[at + 2] = w.len() as u8;
    store::put_letters(sheet, at + 3, w);
    at + 3 + w.len()
}

// The records of the words, one after the other. Answers where they end.
fn put_records<const WIDTH: usize, const ROOM: usize>(
    sheet: &mut [u8],
    at: usize,
    mark: &[u8; 2],
    words: &Store<WIDTH, ROOM>,
) -> usize
    requires width { WIDTH ≤ 256 }
    requires room { at + length words.now * (WIDTH + 2) ≤ length sheet.old }
    ensures value { result ≡ at + length (words_bytes (mark_of mark.now) words.now) }
    ensures few { length (words_bytes (mark_of mark.now) words.now) ≤ length words.now * (WIDTH + 2) }
    ensures sheet_after { sheet.new ≡ put at (words_bytes (mark_of mark.now) words.now) sheet.old }
{
    let mut end = at;
    for j in 0..words.len() {
        end = put_record(sheet, end, mark, words.word(j));
    }
    end
}

// The record of the state map: SM with a byte for each state of the machine. Answers where it ends.
fn put_state_map(sheet: &mut [u8], at: usize, machine: &Lent, model: &Numbered) -> usize
    requires beside { Beside machine.now model.now.machine }
    requires room { at + (2 + machine.now.n) ≤ length sheet.old }
    ensures value { result ≡ at + (2 + machine.now.n) }
    ensures sheet_after { sheet.new ≡ put at (SM ++ state_map machine.now.k (linked machine.now) (linked model.now.machine)) sheet.old }
{
    let mut numbering = Numbering::new();
    numbering.number(machine);
    let numbered = Numbered {
        machine: *machine,
        numbering: &numbering,
    };
    records::put_mark(sheet, at, b"SM");
    model.put_map(sheet, at + 2, &numbered);
    at + 2 + machine.n
}

// The head: PH, m, k, n and c, each under its name. Each fits a byte, by the clause `low`; no `From` makes a number narrower.
fn put_head(sheet: &mut [u8], m: usize, k: usize, n: usize, c: usize)
    requires low { (m < 256) × (k < 256) × (n < 256) × (c < 256) }
    requires room { 6 ≤ length sheet.old }
    ensures { sheet.new ≡ put 0 (PH ++ (m ∷ k ∷ n ∷ c ∷ [])) sheet.old }
{
    records::put_mark(sheet, 0, b"PH");
    sheet[2] = m as u8;
    sheet[3] = k as u8;
    sheet[4] = n as u8;
    sheet[5] = c as u8;
}

// The whole sheet, from the machine, the conjecture and the columns. Answers its length.
pub fn finish<const ROOM: usize>(
    machine: &Lent,
    model: &Lent,
    columns: &Store<94, ROOM>,
    sheet: &mut [u8],
) -> usize
    requires beside { Beside machine.now model.now }
    requires room { (length columns.now ≤ 59) × (9368 ≤ length sheet.old) }
    ensures value { result ≡ length (proof_bytes (numbered_sheet machine.now.k (linked machine.now) (linked model.now) columns.now)) }
    ensures sheet_after { sheet.new ≡ put 0 (proof_bytes (numbered_sheet machine.now.k (linked machine.now) (linked model.now) columns.now)) sheet.old }
{
    let mut numbering = Numbering::new();
    numbering.number(model);
    let numbered = Numbered {
        machine: *model,
        numbering: &numbering,
    };
    put_head(sheet, numbering.len(), machine.k, machine.n, columns.len());
    let rows_end = numbered.put_rows(sheet, 6);
    let words_end = put_records(sheet, rows_end, b"AW", numbering.words());
    let columns_end = put_records(sheet, words_end, b"CW", columns);
    put_state_map(sheet, columns_end, machine, &numbered)
}
