// The learner's desk, and the observation table in the lent area: cell (row, column) lies at row·59 + column. S is kept by its rows too:
// the cells of a word of S stand in the table at the row it was taken from.
ghost use Rattle.std.specs.Prelude.{◌≡◌, true, ◌++◌, [], ◌+◌, ◌*◌, ◌<◌, ◌≤◌, length, get_or, take, drop};
ghost use Rattle.rules.specs.Areas.{put};
ghost use Rattle.rules.specs.Table.{row, cells};
ghost use Rattle.rules.specs.Tests.{eqs};
ghost use Rattle.machine.specs.Lent.{letters_below};
ghost use Rattle.learning.specs.Grid.{row_cells, Filled, Place};
ghost use Rattle.learning.specs.Laid.{Laid};

use areas::store;
use areas::store::Store;
use machine::Lent;

// The machine that is learnt, the words of S with the row that each was taken from, and the columns. Fixed memory: a slot of a store has
// letters alone, so that the rows stand beside the words, and a word that is asked has its length beside its array. The table's area is
// lent beside the desk: a struct with a `&mut` could keep no fact in a ghost field.
#[derive(Drop)]
pub(crate) struct Desk<'a> {
    pub(crate) machine: Lent<'a>,
    pub(crate) s: Store<48, 2304>,
    pub(crate) rows: [usize; 48],
    pub(crate) columns: Store<94, 5546>,
    pub(crate) ghost laid: { Laid machine.n machine.k machine.words.now s rows columns },
}

// Whether two rows have the same cells in the first `c` columns.
fn same_cells(table: &[u8], r: usize, q: usize, c: usize) -> bool
    requires { (r * 59 + c ≤ length table.now) × (q * 59 + c ≤ length table.now) }
    ensures { result ≡ eqs (row_cells 59 table.now c r) (row_cells 59 table.now c q) }
{
    let a = r * 59;
    let b = q * 59;
    check::same(&table[a..a + c], &table[b..b + c])
}

impl<'a> Desk<'a> {
    ghost use Rattle.learning.specs.Desks.{asked, row_count, cell, state_at, open_at};

    // The word of row `r` is put to the start of `word`: empty for row 0, and else a word of S and a letter. Answers its length.
    pub(crate) fn row_word(&self, r: usize, word: &mut [u8]) -> usize
        requires r_bound { r < row_count self.now }
        requires room { 48 ≤ length word.old }
        ensures value { result ≡ length (row self.now.machine.k self.now.s r) }
        ensures word_after { word.new ≡ put 0 (row self.now.machine.k self.now.s r) word.old }
    {
        if r == 0 {
            return 0;
        }
        let k = self.machine.k;
        let end = self.s.copy_word((r - 1) / k, word, 0);
        // A letter fits a byte: k is at most 12, by the desk's `laid`.
        word[end] = ((r - 1) % k) as u8;
        end + 1
    }

    // The answer to the first `len` letters of `word` followed by the column `c`. These letters stay; the column is put behind them, so that
    // the word is lent whole and its length beside it.
    fn ask_column(&self, c: usize, word: &mut [u8], len: usize) -> u8
        requires there { c < length self.now.columns }
        requires room { (len ≤ 48) × (141 ≤ length word.old) }
        requires letters { letters_below self.now.machine.k (take len word.old) ≡ true }
        ensures value { result ≡ asked self.now (take len word.old ++ get_or self.now.columns c []) }
        ensures stays { take len word.new ≡ take len word.old }
    {
        let column = self.columns.word(c);
        let end = len + column.len();
        store::put_letters(word, len, column);
        self.machine.last_output(&word[..end])
    }

    // The cells of one row, of the columns from `from` on. It knows no row number.
    fn fill_row(&self, row: &mut [u8], word: &mut [u8], len: usize, from: usize)
        requires from_in { (from ≤ length self.now.columns) × (length self.now.columns ≤ length row.old) }
        requires room { (len ≤ 48) × (141 ≤ length word.old) }
        requires letters { letters_below self.now.machine.k (take len word.old) ≡ true }
        ensures { row.new ≡ put from (cells (asked self.now) (drop from self.now.columns) (take len word.old)) row.old }
    {
        for c in from..self.columns.len() {
            row[c] = self.ask_column(c, word, len);
        }
    }

    // The cells of the rows `first` up to `last`, of the columns from `from` on: one row after the other is lent on from its place.
    pub(crate) fn fill_rows(&self, table: &mut [u8], first: usize, last: usize, from: usize)
        requires rows_in { (first ≤ last) × (last ≤ row_count self.now) × (last * 59 ≤ length table.old) }
        requires from_in { from ≤ length self.now.columns }
        ensures { Filled 59 (cell self.now) first last from (length self.now.columns) table.old table.new }
    {
        let mut word = [0u8; 141];
        for r in first..last {
            let len = self.row_word(r, &mut word);
            let at = r * 59;
            self.fill_row(&mut table[at..at + 59], &mut word, len, from);
        }
    }

    // The place in S of the word with the cells of row `r`.
    pub(crate) fn state_of(&self, table: &[u8], r: usize) -> Option<usize>
        requires { (r < row_count self.now) × (34043 ≤ length table.now) }
        ensures { Place result (state_at self.now table.now r) (length self.now.s) }
    {
        for j in 0..self.s.len() {
            if same_cells(table, self.rows[j], r, self.columns.len()) {
                return Some(j);
            }
        }
        None
    }

    // The first of the rows from `from` on whose cells are those of no word in S.
    pub(crate) fn open_row(&self, table: &[u8], from: usize) -> Option<usize>
        requires { (from ≤ row_count self.now) × (34043 ≤ length table.now) }
        ensures { Place result (open_at self.now table.now from) (row_count self.now) }
    {
        for r in from..1 + self.s.len() * self.machine.k {
            if self.state_of(table, r).is_none() {
                return Some(r);
            }
        }
        None
    }
}
