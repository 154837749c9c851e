// The checker: a proof sheet is held against a machine, by the four questions of document 01 in their order. `check` takes every input and
// writes nothing. The sheet's model is put into words of its own, so that it is read as the machine is; the words and the map are read
// where they lie.
ghost use Rattle.std.specs.Prelude.{◌≡◌, true, ◌<◌, ◌≢◌, length, get_or};
ghost use Rattle.rules.specs.Answer.{gives};
ghost use Rattle.machine.specs.Answers.{answered};
ghost use Rattle.machine.specs.Lent.{letters_below, Sound};
ghost use Rattle.machine.specs.Linked.{linked};
ghost use Rattle.sheets.specs.Proofs.{proof_sheet, read_proof};
ghost use Rattle.sheets.specs.ProofAnswers.{numbers_of};
ghost use Rattle.sheets.specs.Checker as checker;
ghost use Rattle.sheets.specs.Checker.{reaches_all, told_apart, all_apart, step_agrees, map_holds};
ghost use Rattle.sheets.specs.Held.{said, Held, Columns};
ghost use Rattle.sheets.specs.CheckerSteps.{tells, apart_before, Mapping, state_agrees};

use crate::proofs::Counts;
use crate::{machines, proofs};
use machine::{Lent, Refusal};

// A proof sheet that was read, its model as a machine, and the place where the records of its columns begin.
#[derive(Clone, Copy)]
struct Sheet<'s, 'm> {
    bytes: &'s [u8],
    counts: Counts,
    model: Lent<'m>,
    columns: usize,
    ghost read: { read_proof bytes.now ≡ gives (numbers_of counts) },
    ghost held: { Held bytes.now model.words.now model.n model.k },
    ghost at: { Columns bytes.now columns counts.c },
}

impl<'s, 'm> Sheet<'s, 'm> {
    // 12: each AW word leads the model from 0 to its state.
    fn reaches_all(&self) -> bool
        ensures { result ≡ reaches_all (linked self.now.model) (said self.now.bytes.now) }
    {
        // By places: the words of a sheet lie one behind the other, and nothing is on the heap to list them.
        let mut place = self.counts.reaching();
        for state in 0..self.model.n {
            let w = proofs::word_at(self.bytes, place);
            if self.model.state_after(w) != state {
                return false;
            }
            place += 3 + w.len();
        }
        true
    }

    // Whether the states `i` and `j` answer a column differently.
    fn column_tells(&self, i: usize, j: usize, column: &[u8]) -> bool
        requires { (i < self.now.model.n) × (j < self.now.model.n) × (letters_below self.now.model.k column.now ≡ true) }
        ensures { result ≡ tells (linked self.now.model) i j column.now }
    {
        self.model.last_from(i, column) != self.model.last_from(j, column)
    }

    // Whether they answer some column differently.
    fn told_apart(&self, i: usize, j: usize) -> bool
        requires { (i < self.now.model.n) × (j < self.now.model.n) }
        ensures { result ≡ told_apart (linked self.now.model) (said self.now.bytes.now) i j }
    {
        // By places, as above.
        let mut place = self.columns;
        for _ in 0..self.counts.c {
            let column = proofs::word_at(self.bytes, place);
            if self.column_tells(i, j, column) {
                return true;
            }
            place += 3 + column.len();
        }
        false
    }

    // Whether the state `i` and each state before it are told apart.
    fn apart_from_earlier(&self, i: usize) -> bool
        requires { i < self.now.model.n }
        ensures { result ≡ apart_before (linked self.now.model) (said self.now.bytes.now) i }
    {
        (0..i).all(|j| self.told_apart(i, j))
    }

    // 13: any two model states answer some column differently. Each pair is asked once.
    fn all_apart(&self) -> bool
        ensures { result ≡ all_apart (linked self.now.model) (said self.now.bytes.now) }
    {
        (0..self.model.n).all(|i| self.apart_from_earlier(i))
    }
}

// A machine, a model, and the map that gives a machine state's model state.
#[derive(Clone, Copy)]
struct Mapped<'a> {
    machine: Lent<'a>,
    model: Lent<'a>,
    map: &'a [u8],
    ghost mapping: { Mapping machine.n machine.k machine.words.now model.n model.words.now map.now },
    ghost letters: { model.k ≡ machine.k },
}

impl<'a> Mapped<'a> {
    ghost use Rattle.sheets.specs.CheckerParts.{mapped_by};

    // At a machine state that has a model state, and at a letter: the outputs agree, and the next state's model state is the model's next.
    fn step_agrees(&self, s: usize, a: usize) -> bool
        requires { (s < self.now.machine.n) × (a < self.now.machine.k) × (get_or self.now.map.now s 0 < self.now.model.n) }
        ensures { result ≡ step_agrees (linked self.now.machine) (mapped_by self.now) s a }
    {
        let state = usize::from(self.map[s]);
        self.machine.output(s, a) == self.model.output(state, a)
            && usize::from(self.map[self.machine.next(s, a)]) == self.model.next(state, a)
    }

    // At each letter, if the machine state has a model state. A state marked 255, which the sheet's format has
    // for none, is asked nothing itself.
    fn state_agrees(&self, s: usize) -> bool
        requires { s < self.now.machine.n }
        ensures { result ≡ state_agrees (linked self.now.machine) (mapped_by self.now) s }
    {
        self.map[s] == 255 || (0..self.machine.k).all(|a| self.step_agrees(s, a))
    }

    // 14: machine state 0 has model state 0, and each machine state agrees with its model state.
    fn holds(&self) -> bool
        ensures { result ≡ map_holds (linked self.now.machine) (mapped_by self.now) }
    {
        self.map[0] == 0 && (0..self.machine.n).all(|s| self.state_agrees(s))
    }
}

// 12 to 14, in order, of a sheet whose n and k are the machine's.
fn questions(machine: &Lent, sheet: &Sheet) -> Result<(), Refusal>
    requires sound { Sound machine.now.n machine.now.k machine.now.words.now }
    requires same { (sheet.now.counts.n ≡ machine.now.n) × (sheet.now.counts.k ≡ machine.now.k) }
    ensures { answered result ≡ checker.judge machine.now.n machine.now.k (linked machine.now) (said sheet.now.bytes.now) }
{
    if !sheet.reaches_all() {
        return Err(Refusal::NotReached);
    }
    if !sheet.all_apart() {
        return Err(Refusal::NotApart);
    }
    let machine = *machine;
    let model = sheet.model;
    let mapped = Mapped {
        machine,
        model,
        map: &sheet.bytes[sheet.bytes.len() - machine.n..],
    };
    if !mapped.holds() {
        return Err(Refusal::WrongMap);
    }
    Ok(())
}

// The sheet's n and k are the machine's (11); then its model is put into words, and asked.
fn judge(machine: &Lent, bytes: &[u8], counts: Counts) -> Result<(), Refusal>
    requires sound { Sound machine.now.n machine.now.k machine.now.words.now }
    requires read { read_proof bytes.now ≡ gives (numbers_of counts) }
    ensures { answered result ≡ checker.judge_sheet machine.now.n machine.now.k (linked machine.now) (proof_sheet bytes.now) }
{
    if counts.n != machine.n || counts.k != machine.k {
        return Err(Refusal::OtherSize);
    }
    let Counts { m, k, .. } = counts;
    let mut words = [0u16; 576];
    machines::set_rows(&mut words, &bytes[6..], k, m);
    let model = Lent {
        words: &words[..m * k],
        n: m,
        k,
    };
    let columns = proofs::record_place(bytes, counts.reaching(), m);
    let sheet = Sheet {
        bytes,
        counts,
        model,
        columns,
    };
    questions(machine, &sheet)
}

// Checker, lent words, n and k as C has them: machine, sheet, 11 to 14. It writes nothing.
pub fn check(words: &[u16], n: usize, k: usize, sheet: &[u8]) -> Result<(), Refusal>
    ensures { answered result ≡ checker.check n k words.now sheet.now }
{
    let machine = Lent::new(words, n, k)?;
    let counts = proofs::read(sheet)?;
    judge(&machine, sheet, counts)
}
