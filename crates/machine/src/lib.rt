// The machine layer: lent words, their check, and questions.
//
// A machine is lent as n·k words, state by state and letter by letter; a word is 256·next + output. `check` and `question` take every
// input and refuse by the paper's numbers: they are lent words, n and k and no `Lent`, since whoever calls them, C too, has nothing else.
// `Lent` and the other functions are for the layers above, which call them after the check at the door.
#![tactic(auto)]

ghost use Rattle.std.specs.Prelude.{◌≡◌, true, ◌&&◌, ℕ, ◌+◌, ◌*◌, ◌/◌, ◌%◌, ◌<◌, ◌≤◌, length, get_or};
ghost use Rattle.rules.specs.Answer as rules;
ghost use Rattle.machine.specs.Lent.{next_below, letters_below, lent_check};
ghost use Rattle.machine.specs.Lent as lents;
ghost use Rattle.machine.specs.Answers.{answered};

pub mod lent;
pub mod refusal;

pub use lent::Lent;
pub use refusal::Refusal;

// The next state of a word.
pub fn next_of(word: u16) -> usize
    ensures { result ≡ word / 256 }
{
    usize::from(word / 256)
}

// The output of a word.
pub fn output_of(word: u16) -> u8
    ensures { result ≡ word % 256 }
{
    // A remainder that fits; no `From` makes a number narrower.
    (word % 256) as u8
}

// The next state from `state` by the letter `a`. This and `output` ask only that the word is there, which is less than a `Lent` asks.
pub fn next(words: &[u16], k: usize, state: usize, a: usize) -> usize
    requires { state * k + a < length words.now }
    ensures { result ≡ get_or words.now (state * k + a) 0 / 256 }
{
    next_of(words[state * k + a])
}

// The output in `state` at the letter `a`.
pub fn output(words: &[u16], k: usize, state: usize, a: usize) -> u8
    requires { state * k + a < length words.now }
    ensures { result ≡ get_or words.now (state * k + a) 0 % 256 }
{
    output_of(words[state * k + a])
}

// The word for a next state and an output.
pub fn word(next: usize, output: u8) -> u16
    requires { next < 256 }
    ensures { result ≡ 256 * next + output }
{
    // It fits, by the clause; no `From` makes a number narrower.
    256 * (next as u16) + u16::from(output)
}

// Whether every word's next state is below `n`. It goes to the end whatever it finds, so that many are compared at once.
pub fn next_below(words: &[u16], n: usize) -> bool
    ensures { result ≡ next_below n words.now }
{
    let mut below = true;
    for word in words {
        below &= next_of(*word) < n;
    }
    below
}

// Whether every letter of `w` is below `k`.
pub fn letters_below(w: &[u8], k: usize) -> bool
    ensures { result ≡ letters_below k w.now }
{
    w.iter().all(|a| usize::from(*a) < k)
}

// Whether `x` is from `low` to `high`.
pub fn within(low: usize, high: usize, x: usize) -> bool
    ensures { result ≡ rules.within low high x }
{
    (low..=high).contains(&x)
}

// Whether `n` states and `k` letters are within the paper's limits.
pub fn sized(n: usize, k: usize) -> bool
    ensures { result ≡ rules.within 1 48 n && rules.within 1 12 k }
{
    within(1, 48, n) && within(1, 12, k)
}

// Lent words: 3, then 1 or 5, then 4. It is the check at every door: `Lent::new` asks it. One copy of it serves them all.
#[inline(never)]
pub fn check(words: &[u16], n: usize, k: usize) -> Result<(), Refusal>
    ensures { answered result ≡ lent_check n k words.now }
{
    if !sized(n, k) {
        return Err(Refusal::OutOfRange);
    }
    let size = n * k;
    if words.len() < size {
        return Err(Refusal::EndsEarly);
    }
    if size < words.len() {
        return Err(Refusal::LeftOver);
    }
    if !next_below(words, n) {
        return Err(Refusal::NoSuchState);
    }
    Ok(())
}

// A question: machine, then 6 for the empty word or a letter not below k. Its answer is the last output.
pub fn question(words: &[u16], n: usize, k: usize, w: &[u8]) -> Result<u8, Refusal>
    ensures { answered result ≡ lents.question n k words.now w.now }
{
    let machine = Lent::new(words, n, k)?;
    if w.is_empty() || !letters_below(w, k) {
        return Err(Refusal::BadWord);
    }
    Ok(machine.last_output(w))
}
