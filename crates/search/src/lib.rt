// Breadth first search over pairs of states of two lent machines: the least word that tells two states apart, and the numbering of a
// machine's states by the least words that reach them.
#![tactic(auto)]

mod pairs;
mod queue;

ghost use Rattle.std.specs.Prelude.{◌≡◌, ◌+◌, ◌<◌, ◌≤◌, length};
ghost use Rattle.rules.specs.Difference as rule;
ghost use Rattle.machine.specs.Linked.{linked};
ghost use Rattle.search.specs.Pairs.{Beside, found_length, found_put};

pub mod numbering;

use machine::Lent;
pub use numbering::Numbering;
use pairs::Pairs;
use queue::Queue;

// `Beside` stays a clause where two machines come from elsewhere. `Pairs`, which keeps it, is of this crate alone: a caller has the two machines
// for more than this, and would write the pair down at each call where now it writes the two.

// The least word that the state `s` of the first machine and `t` of the second answer differently is put to the start of `into`. Answers
// its length, and none where there is no such word.
pub fn difference_from(
    machine: &Lent,
    other: &Lent,
    s: usize,
    t: usize,
    into: &mut [u8],
) -> Option<usize>
    requires beside { Beside machine.now other.now }
    requires s_lt_n { (s < machine.now.n) × (t < other.now.n) × (machine.now.n + other.now.n ≤ length into.old) }
    ensures value { result ≡ found_length (rule.difference (linked machine.now) (linked other.now) machine.now.k s t) }
    ensures into_after { into.new ≡ found_put (rule.difference (linked machine.now) (linked other.now) machine.now.k s t) into.old }
{
    let pairs = Pairs {
        machine: *machine,
        other: *other,
    };
    let mut queue = Queue::new();
    pairs.explore(s * other.n + t, &mut queue);
    let (place, letter) = pairs.first_apart(&queue)?;
    let end = queue.spell(place, into, 0);
    // A letter fits a byte: k is at most 12, by `Beside`; no `From` makes a number narrower.
    into[end] = letter as u8;
    Some(end + 1)
}

// Rule 5: the least word on which two machines differ is put to the start of `into`. Answers its length, and none where they agree.
pub fn difference(machine: &Lent, other: &Lent, into: &mut [u8]) -> Option<usize>
    requires beside { Beside machine.now other.now }
    requires m_in_bounds { machine.now.n + other.now.n ≤ length into.old }
    ensures value { result ≡ found_length (rule.difference (linked machine.now) (linked other.now) machine.now.k 0 0) }
    ensures into_after { into.new ≡ found_put (rule.difference (linked machine.now) (linked other.now) machine.now.k 0 0) into.old }
{
    difference_from(machine, other, 0, 0, into)
}
