// Rules 5 and 6: the rounds, and where they stop.
ghost use Rattle.std.specs.Prelude.{◌≡◌, true, ◌++◌, ◌∷◌, [], ℕ, ◌+◌, ◌<◌, ◌≤◌, length, get_or, drop};
ghost use Rattle.rules.specs.Table as rules;
ghost use Rattle.rules.specs.Table.{one_letter};
ghost use Rattle.rules.specs.Closing.{Shut};
ghost use Rattle.rules.specs.Rounds.{more};
ghost use Rattle.machine.specs.Lent.{letters_below};
ghost use Rattle.machine.specs.Linked.{linked};
ghost use Rattle.search.specs.Pairs.{found_length, found_put};
ghost use Rattle.learning.specs.Cut.{cut_in};

use crate::table::Desk;
use areas::store;
use areas::store::Store;
use machine::Lent;

// Where the rounds stop: the rounds past, and how many letters the counterexample has that is left. They stand at the start of `found`, which
// each round lends again. Nothing is on the heap, so that a word in an array has its length beside it.
#[derive(Clone, Copy)]
pub(crate) struct Stop {
    pub(crate) past: usize,
    pub(crate) left: Option<usize>,
}

// Rule 1: the columns are at first the one-letter words, in order. A letter fits a byte, since k is at most 12.
fn one_letter(columns: &mut Store<94, 5546>, k: usize)
    requires { (columns.old ≡ []) × (k ≤ 12) }
    ensures { columns.new ≡ one_letter k }
{
    for a in 0..k {
        columns.push(&[a as u8]);
    }
}

impl<'a> Desk<'a> {
    ghost use Rattle.learning.specs.Desks.{asked, left_over, stop_at, Holding, Modelling, Differing, Turning};

    // The first table, closed: S is the empty word, and the area's table is all zero before.
    fn begin(&mut self, table: &mut [u8])
        requires empty { (self.old.s ≡ []) × (self.old.columns ≡ []) }
        requires blank { (34043 ≤ length table.old) × ((i : ℕ) → i < 34043 → get_or table.old i 0 ≡ 0) }
        ensures held { Holding self.new table.new }
        ensures machine { self.new.machine ≡ self.old.machine }
        ensures columns { self.new.columns ≡ one_letter self.old.machine.k }
        ensures words { let m = self.old.machine in self.new.s ≡ rules.close (asked self.old) m.k m.n (one_letter m.k) ([] ∷ []) }
    {
        let k = self.machine.k;
        one_letter(&mut self.columns, k);
        self.rows[0] = 0;
        self.s.push(&[]);
        self.fill_rows(table, 0, 1 + k, 0);
        self.close(table);
    }

    // The answer to `w` with its first `i` letters replaced by the word of S for `state`.
    fn swapped(&self, state: usize, w: &[u8], i: usize) -> u8
        requires there { (state < length self.now.s) × (i ≤ length w.now) × (length w.now ≤ 94) }
        requires letters { letters_below self.now.machine.k w.now ≡ true }
        ensures { result ≡ asked self.now (get_or self.now.s state [] ++ drop i w.now) }
    {
        let mut word = [0u8; 141];
        let from = self.s.copy_word(state, &mut word, 0);
        store::put_letters(&mut word, from, &w[i..]);
        self.machine.last_output(&word[..from + (w.len() - i)])
    }

    // Rule 6: the least i for which the answers at i and i + 1 differ.
    fn cut(&self, model: &Lent, w: &[u8]) -> usize
        requires model { (model.now.n ≡ length self.now.s) × (model.now.k ≡ self.now.machine.k) }
        requires letters { (1 ≤ length w.now) × (length w.now ≤ 94) × (letters_below self.now.machine.k w.now ≡ true) }
        ensures { result ≡ cut_in (asked self.now) self.now.s (linked model.now).next w.now }
    {
        let last = w.len() - 1;
        let mut state = 0;
        let mut here = self.swapped(0, w, 0);
        for i in 0..last {
            state = model.next(state, usize::from(w[i]));
            let there = self.swapped(state, w, i + 1);
            if here != there {
                return i;
            }
            here = there;
        }
        last
    }

    // One round with the counterexample `w`: its suffix is added as the last column, and the table is closed.
    fn round(&mut self, table: &mut [u8], model: &Lent, w: &[u8])
        requires held { Holding self.old table.old }
        requires ready { Differing self.old model.now w.now }
        requires room { length self.old.columns < 59 }
        ensures held_after { Holding self.new table.new }
        ensures machine { self.new.machine ≡ self.old.machine }
        ensures columns { self.new.columns ≡ more (asked self.old) 1 self.old.columns self.old.s w.now }
        ensures words { self.new.s ≡ rules.close (asked self.old) self.old.machine.k self.old.machine.n self.new.columns self.old.s }
    {
        let from = self.cut(model, w) + 1;
        let rows = 1 + self.s.len() * self.machine.k;
        let new = self.columns.len();
        self.columns.push(&w[from..]);
        self.fill_rows(table, 0, rows, new);
        self.close(table);
    }

    // Rules 4 and 5 at a closed table: the conjecture is put to the start of `model`, and the counterexample to the start of `found`. Answers
    // its length, and none where there is no counterexample.
    fn conclude(&self, table: &[u8], model: &mut [u16], found: &mut [u8]) -> Option<usize>
        requires held { Holding self.now table.now }
        requires shut { Shut (asked self.now) self.now.machine.k self.now.columns self.now.s }
        requires room { (576 ≤ length model.old) × (96 ≤ length found.old) }
        ensures modelled { Modelling self.now model.new }
        ensures value { result ≡ found_length (left_over self.now) }
        ensures found_after { found.new ≡ found_put (left_over self.now) found.old }
    {
        self.conjecture(table, model);
        let conjecture = Lent {
            words: model,
            n: self.s.len(),
            k: self.machine.k,
        };
        search::difference(&self.machine, &conjecture, found)
    }

    // Rounds until no counterexample exists or `most` are past. The area's table is all zero at first.
    pub(crate) fn rounds(
        &mut self,
        most: usize,
        table: &mut [u8],
        model: &mut [u16],
        found: &mut [u8],
    ) -> Stop
        requires empty { (self.old.s ≡ []) × (self.old.columns ≡ []) }
        requires blank { (34043 ≤ length table.old) × ((i : ℕ) → i < 34043 → get_or table.old i 0 ≡ 0) }
        requires room { (576 ≤ length model.old) × (96 ≤ length found.old) }
        ensures turn { Turning self.new result.past table.new model.new found.new result.left }
        ensures machine { self.new.machine ≡ self.old.machine }
        ensures stop { stop_at self.old most ≡ stop_at self.old result.past }
    {
        self.begin(table);
        for past in 0..most {
            let Some(length) = self.conclude(table, model, found) else {
                return Stop { past, left: None };
            };
            let conjecture = Lent {
                words: model,
                n: self.s.len(),
                k: self.machine.k,
            };
            self.round(table, &conjecture, &found[..length]);
        }
        let left = self.conclude(table, model, found);
        Stop { past: most, left }
    }
}
