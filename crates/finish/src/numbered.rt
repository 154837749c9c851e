// A lent machine with the numbering of its states by least words: the rows of the model numbered so, and the map to it. Nothing is on the
// heap: an array has room for the most rows, and a part is used; an area is written by index, since what goes through `iter_mut` with an
// adapter is not known afterwards.
ghost use Rattle.std.specs.Prelude.{◌≡◌, ◌+◌, ◌*◌, ◌<◌, ◌≤◌, length, map};
ghost use Rattle.rules.specs.Areas.{put};
ghost use Rattle.rules.specs.Table.{from};
ghost use Rattle.rules.specs.Sheets.{words_of};
ghost use Rattle.rules.specs.Numbering.{order, renumbered, model_state};
ghost use Rattle.rules.specs.Numbering as numbering;
ghost use Rattle.machine.specs.Linked.{linked};
ghost use Rattle.search.specs.Listing.{numbered};
ghost use Rattle.finish.specs.Sheet.{word_of, model_bytes};

use areas::records;
use machine::Lent;
use search::Numbering;

#[derive(Clone, Copy)]
pub struct Numbered<'a> {
    pub machine: Lent<'a>,
    pub numbering: &'a Numbering,
    pub ghost sizes: { (machine.n ≤ 48) × (1 ≤ machine.k) × (machine.k ≤ 12) },
    pub ghost listed: { numbering.now ≡ numbered machine.k (linked machine) },
}

impl<'a> Numbered<'a> {
    // The number of a state that words reach.
    fn place(&self, state: usize) -> usize
        requires { numbering.place (order self.now.machine.k (linked self.now.machine)) state < length (order self.now.machine.k (linked self.now.machine)) }
        ensures value { result ≡ numbering.place (order self.now.machine.k (linked self.now.machine)) state }
        ensures low { result < 48 }
    {
        self.numbering.place(state).unwrap()
    }

    // The numbered machine's word of state i / k and letter i % k.
    fn word(&self, i: usize) -> u16
        requires { i < length (order self.now.machine.k (linked self.now.machine)) * self.now.machine.k }
        ensures { result ≡ word_of self.now.machine.k (renumbered self.now.machine.k (linked self.now.machine)) i }
    {
        let k = self.machine.k;
        let state = self.numbering.state(i / k);
        let next = self.machine.next(state, i % k);
        machine::word(self.place(next), self.machine.output(state, i % k))
    }

    // The rows of the numbered machine. Answers where they end.
    pub fn put_rows(&self, sheet: &mut [u8], at: usize) -> usize
        requires { at + 48 * (2 + 2 * self.now.machine.k) ≤ length sheet.old }
        ensures value { result ≡ at + length (model_bytes self.now.machine.k (linked self.now.machine)) }
        ensures few { length (model_bytes self.now.machine.k (linked self.now.machine)) ≤ 1248 }
        ensures sheet_after { sheet.new ≡ put at (model_bytes self.now.machine.k (linked self.now.machine)) sheet.old }
    {
        let k = self.machine.k;
        let count = self.numbering.len();
        let mut words = [0; 576];
        let size = count * k;
        for i in 0..size {
            words[i] = self.word(i);
        }
        records::put_rows(sheet, at, &words[..size], k, count);
        at + count * (2 + 2 * k)
    }

    // The number of the state that the least word of a state of `other` leads to; 255, which the sheet's format has for it, where no word
    // reaches that state.
    fn map_state(&self, other: &Numbered, state: usize) -> u8
        requires { other.now.machine.k ≡ self.now.machine.k }
        ensures { result ≡ model_state other.now.machine.k (linked other.now.machine) (linked self.now.machine) state }
    {
        match other.numbering.place(state) {
            Some(place) => {
                let reached = self.machine.state_after(other.numbering.word(place));
                // Below 48, by the clause `low`.
                self.place(reached) as u8
            }
            None => 255,
        }
    }

    // The number for each state of `other`, from `at` on.
    pub fn put_map(&self, sheet: &mut [u8], at: usize, other: &Numbered)
        requires same { other.now.machine.k ≡ self.now.machine.k }
        requires room { at + other.now.machine.n ≤ length sheet.old }
        ensures { sheet.new ≡ put at (map (model_state other.now.machine.k (linked other.now.machine) (linked self.now.machine)) (from 0 other.now.machine.n)) sheet.old }
    {
        for state in 0..other.machine.n {
            sheet[at + state] = self.map_state(other, state);
        }
    }
}
