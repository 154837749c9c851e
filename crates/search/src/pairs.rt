// Two lent machines side by side, whose pairs of states are searched. The pair of s and t is s·m + t, m being the states of the second.
ghost use Rattle.std.specs.Prelude.{◌≡◌, [], ℕ, ◌*◌, ◌<◌, length, get_or, eqb, IfSome};
ghost use Rattle.rules.specs.Search.{starts, meet_all, explore};
ghost use Rattle.rules.specs.Difference.{pair_step, pair_apart};
ghost use Rattle.machine.specs.Linked.{linked};
ghost use Rattle.search.specs.Pairs.{Beside, Low, spelled, told};

use crate::queue::Queue;
use machine::Lent;

#[derive(Clone, Copy)]
pub struct Pairs<'a> {
    pub machine: Lent<'a>,
    pub other: Lent<'a>,
    pub ghost beside: { Beside machine other },
}

impl<'a> Pairs<'a> {
    // The pair that the letter `a` leads to from the pair `x`.
    fn next(&self, x: usize, a: usize) -> usize
        requires { (x < self.now.machine.n * self.now.other.n) × (a < self.now.machine.k) }
        ensures value { result ≡ pair_step (linked self.now.machine) (linked self.now.other) x a }
        ensures there { result < self.now.machine.n * self.now.other.n }
    {
        let m = self.other.n;
        self.machine.next(x / m, a) * m + self.other.next(x % m, a)
    }

    // Whether the outputs at the pair `x` and the letter `a` differ.
    fn apart(&self, x: usize, a: usize) -> bool
        requires { (x < self.now.machine.n * self.now.other.n) × (a < self.now.machine.k) }
        ensures { result ≡ pair_apart (linked self.now.machine) (linked self.now.other) x a }
    {
        let m = self.other.n;
        self.machine.output(x / m, a) != self.other.output(x % m, a)
    }

    // Every letter at the place `at`.
    fn meet_letters(&self, queue: &mut Queue, at: usize)
        requires { (at < length queue.old) × ((get_or queue.old at (starts 0)).node < self.now.machine.n * self.now.other.n) }
        ensures { (start : ℕ) → queue.new ≡ meet_all eqb (pair_step (linked self.now.machine) (linked self.now.other)) start (get_or queue.old at (starts start)) 0 self.now.machine.k queue.old }
    {
        let x = queue.node(at);
        for a in 0..self.machine.k {
            queue.meet(self.next(x, a), at, a);
        }
    }

    // All pairs that words reach from the pair `start`, in the order of the least words. The queue grows while it is gone through.
    pub fn explore(&self, start: usize, queue: &mut Queue)
        requires none { queue.old ≡ [] }
        requires start_bound { start < self.now.machine.n * self.now.other.n }
        ensures { queue.new ≡ explore eqb (pair_step (linked self.now.machine) (linked self.now.other)) start self.now.machine.k (self.now.machine.n * self.now.other.n) }
    {
        queue.meet(start, 0, 0);
        let mut at = 0;
        while at < queue.len() {
            self.meet_letters(queue, at);
            at += 1;
        }
    }

    // The first place and letter at which the outputs differ.
    pub fn first_apart(&self, queue: &Queue) -> Option<(usize, usize)>
        requires { Low (self.now.machine.n * self.now.other.n) queue.now }
        ensures there { IfSome result (λ r. (r.0 < length queue.now) × (r.1 < self.now.machine.k)) }
        ensures word { (start : ℕ) → told (linked self.now.machine) (linked self.now.other) self.now.machine.k start queue.now ≡ spelled queue.now result }
    {
        for place in 0..queue.len() {
            let x = queue.node(place);
            for letter in 0..self.machine.k {
                if self.apart(x, letter) {
                    return Some((place, letter));
                }
            }
        }
        None
    }
}
