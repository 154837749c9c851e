// A machine as it is lent: n·k words, state by state and letter by letter; a word is 256·next + output. `Lent::new` asks
// `machine::check`, the check at the door; behind it each next state is there, and questions may be put.
ghost use Rattle.std.specs.Prelude.{◌≡◌, true, ℕ, ◌+◌, ◌*◌, ◌/◌, ◌%◌, ◌<◌, ◌≤◌, length, get_or, IfOk};
ghost use Rattle.machine.specs.Lent.{Steps};

use crate::refusal::Refusal;

// Its fact is no more than that each next state is there: the paper's limits are a clause where they are needed, since the words of a
// conjecture may be part of a longer array, and `state_after` never asked for limits.
#[derive(Clone, Copy)]
pub struct Lent<'a> {
    pub words: &'a [u16],
    pub n: usize,
    pub k: usize,
    pub ghost steps: { Steps n k words.now },
}

impl<'a> Lent<'a> {
    ghost use Rattle.rules.specs.Search.{walk};
    ghost use Rattle.rules.specs.Machine.{last_from, ask};
    ghost use Rattle.machine.specs.Lent.{letters_below, lent_check, Sound};
    ghost use Rattle.machine.specs.Answers.{answer};
    ghost use Rattle.machine.specs.Linked.{linked};

    // The machine that the check at the door lets pass.
    pub fn new(words: &'a [u16], n: usize, k: usize) -> Result<Lent<'a>, Refusal>
        ensures refusal { answer (λ _. tt) result ≡ lent_check n k words.now }
        ensures machine { IfOk result (λ m. (m.words.now ≡ words.now) × (m.n ≡ n) × (m.k ≡ k) × Sound m.n m.k m.words.now) }
    {
        crate::check(words, n, k)?;
        Ok(Lent { words, n, k })
    }

    // The next state from `state` by the letter `a`.
    pub fn next(&self, state: usize, a: usize) -> usize
        requires { (state < self.now.n) × (a < self.now.k) }
        ensures value { result ≡ (linked self.now).next state a }
        ensures there { result < self.now.n }
    {
        crate::next(self.words, self.k, state, a)
    }

    // The output in `state` at the letter `a`.
    pub fn output(&self, state: usize, a: usize) -> u8
        requires { (state < self.now.n) × (a < self.now.k) }
        ensures { result ≡ (linked self.now).out state a }
    {
        crate::output(self.words, self.k, state, a)
    }

    // The state that a word leads to from the start.
    pub fn state_after(&self, w: &[u8]) -> usize
        requires { letters_below self.now.k w.now ≡ true }
        ensures { result ≡ walk (linked self.now).next 0 w.now }
    {
        let mut state = 0;
        for a in w {
            state = self.next(state, usize::from(*a));
        }
        state
    }

    // The last output of a word that is run from `state`, 0 for the empty word.
    pub fn last_from(&self, state: usize, w: &[u8]) -> u8
        requires { (state < self.now.n) × (letters_below self.now.k w.now ≡ true) }
        ensures { result ≡ last_from (linked self.now) 0 state w.now }
    {
        let mut state = state;
        let mut output = 0;
        for a in w {
            output = self.output(state, usize::from(*a));
            state = self.next(state, usize::from(*a));
        }
        output
    }

    // The last output of a word that is run from the start.
    pub fn last_output(&self, w: &[u8]) -> u8
        requires { letters_below self.now.k w.now ≡ true }
        ensures { result ≡ ask (linked self.now) w.now }
    {
        self.last_from(0, w)
    }
}
