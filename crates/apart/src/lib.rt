// Why are these two apart? The least word that two states of a lent machine answer differently, unreachable states too.
#![tactic(auto)]

ghost use Rattle.std.specs.Prelude.{◌≡◌, ◌<◌, ◌≤◌, length};
ghost use Rattle.std.proofs.Math.Option.{some};
ghost use Rattle.rules.specs.Answer.{gives};
ghost use Rattle.rules.specs.Words.{Below};
ghost use Rattle.rules.specs.Difference as rule;
ghost use Rattle.machine.specs.Linked.{linked};
ghost use Rattle.search.specs.Pairs.{Beside};
ghost use Rattle.apart.specs.Apart.{tells};
ghost use Rattle.apart.specs.Apart as spec;
ghost use Rattle.apart.specs.Answers.{told_of, told_if, why_of};

use areas::store;
use machine::{Lent, Refusal};

// The word's length and its last output from each state.
#[derive(Clone, Copy, Debug, PartialEq, Eq)]
pub struct Told {
    pub length: usize,
    pub first: u8,
    pub second: u8,
}

// A word that was found is put to the start of `area`.
fn name(machine: &Lent, s: usize, t: usize, w: &[u8], area: &mut [u8]) -> Told
    requires { (s < machine.now.n) × (t < machine.now.n) × Below machine.now.k w.now × (length w.now ≤ length area.old) }
    ensures { record { answer = gives (some (told_of result)); area = area.new } ≡ tells (linked machine.now) s t (some w.now) area.old }
{
    store::put_letters(area, 0, w);
    Told {
        length: w.len(),
        first: machine.last_from(s, w),
        second: machine.last_from(t, w),
    }
}

// The word is found in an array with room for any that two machines of 48 states give, since nothing is on the heap; of one machine it has at
// most 47 letters. `Beside` is a clause, as `search` has it.
fn tell(machine: &Lent, s: usize, t: usize, area: &mut [u8]) -> Option<Told>
    requires beside { Beside machine.now machine.now }
    requires there { (s < machine.now.n) × (t < machine.now.n) × (47 ≤ length area.old) }
    ensures { record { answer = gives (told_if result); area = area.new } ≡ tells (linked machine.now) s t (rule.difference (linked machine.now) (linked machine.now) machine.now.k s t) area.old }
{
    let mut found = [0; 96];
    // The borrow checker does not cover a call that is lent the same machine twice.
    let other = *machine;
    let size = search::difference_from(machine, &other, s, t, &mut found)?;
    Some(name(machine, s, t, &found[..size], area))
}

// M-105, lent words, n and k as C has them. None where no word tells the two apart. Refusals: machine, then a state not below n 4, then an
// area under 47 bytes 9, with nothing written.
pub fn why_apart(
    words: &[u16],
    n: usize,
    k: usize,
    s: usize,
    t: usize,
    area: &mut [u8],
) -> Result<Option<Told>, Refusal>
    ensures { record { answer = why_of result; area = area.new } ≡ spec.apart n k words.now s t area.old }
{
    let machine = Lent::new(words, n, k)?;
    if n <= s || n <= t {
        return Err(Refusal::NoSuchState);
    }
    if area.len() < 47 {
        return Err(Refusal::SmallSheet);
    }
    Ok(tell(&machine, s, t, area))
}
