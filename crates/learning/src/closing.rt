// Rules 3 and 4: closing, and the conjecture as lent words. Nothing is on the heap: a word in an array has its length beside it. The model is
// written by index: what goes through `iter_mut` with an adapter is not known afterwards.
ghost use Rattle.std.specs.Prelude.{◌≡◌, ◌++◌, ◌∷◌, [], ◌+◌, ◌*◌, ◌<◌, ◌≤◌, length};
ghost use Rattle.rules.specs.Areas.{put};
ghost use Rattle.rules.specs.Sheets.{words_of};
ghost use Rattle.rules.specs.Table as rules;
ghost use Rattle.rules.specs.Table.{row};
ghost use Rattle.rules.specs.Closing.{Told, Shut, Columns};

use crate::table::Desk;

impl<'a> Desk<'a> {
    ghost use Rattle.learning.specs.Desks.{asked, row_count, Holding};

    // The word of row `r` is added to S, and the rows of its letters are filled.
    fn append_row(&mut self, table: &mut [u8], r: usize)
        requires held { Holding self.old table.old }
        requires there { (r < row_count self.old) × (length self.old.s < self.old.machine.n) }
        ensures held_after { Holding self.new table.new }
        ensures same { (self.new.machine ≡ self.old.machine) × (self.new.columns ≡ self.old.columns) }
        ensures words { self.new.s ≡ self.old.s ++ (row self.old.machine.k self.old.s r ∷ []) }
    {
        let mut word = [0u8; 48];
        let len = self.row_word(r, &mut word);
        let m = self.s.len();
        let k = self.machine.k;
        self.rows[m] = r;
        self.s.push(&word[..len]);
        self.fill_rows(table, 1 + m * k, 1 + (m + 1) * k, 0);
    }

    // Rule 3: the words of open rows are added to S until there is none. A row that has its word in S keeps it, so each search goes on from
    // the row found last.
    pub(crate) fn close(&mut self, table: &mut [u8])
        requires held { Holding self.old table.old }
        requires told { Told (asked self.old) self.old.columns self.old.s }
        requires columns { Columns 1 self.old.columns }
        ensures held_after { Holding self.new table.new }
        ensures same { (self.new.machine ≡ self.old.machine) × (self.new.columns ≡ self.old.columns) }
        ensures words { self.new.s ≡ rules.close (asked self.old) self.old.machine.k self.old.machine.n self.old.columns self.old.s }
    {
        let mut from = 1;
        while let Some(r) = self.open_row(table, from) {
            self.append_row(table, r);
            from = r;
        }
    }

    // Rule 4: the conjecture of a closed table as lent words, in S's order, is put to the start of `model`.
    pub(crate) fn conjecture(&self, table: &[u8], model: &mut [u16])
        requires held { Holding self.now table.now }
        requires shut { Shut (asked self.now) self.now.machine.k self.now.columns self.now.s }
        requires room { 576 ≤ length model.old }
        ensures { model.new ≡ put 0 (words_of 256 self.now.machine.k (rules.conjecture (asked self.now) self.now.columns self.now.s)) model.old }
    {
        let k = self.machine.k;
        for i in 0..self.s.len() * k {
            let next = self.state_of(table, 1 + i).unwrap();
            model[i] = machine::word(next, table[self.rows[i / k] * 59 + i % k]);
        }
    }
}
