// The queue of the search. Place p has its node, the place from which it was met, and the letter: these spell the least word that leads to
// it. In a contract a queue is the list of its nodes with their words.
ghost use Rattle.std.specs.Prelude.{◌≡◌, [], ◌++◌, ◌∷◌, ◌+◌, ◌-◌, ◌<◌, ◌≤◌, ℕ, length, get_or};
ghost use Rattle.rules.specs.Areas.{put};
ghost use Rattle.rules.specs.Search.{starts};
ghost use Rattle.search.specs.Queue.{joined, onward};

use std::marker::Model;

// Fixed memory: document 01 names queue and seen-marks as arrays of 2,304, and an array of places would take 2,304 bytes more of the stack.
#[derive(Drop)]
pub struct Queue {
    nodes: [u16; 2304],
    seen: [bool; 2304],
    parent: [u16; 2304],
    letter: [u8; 2304],
    count: usize,
}

impl Model for Queue {
    ghost use Rattle.std.specs.Prelude.{List, ℕ};
    ghost use Rattle.rules.specs.Search.{Entry};
    ghost use Rattle.search.specs.Queue.{entries, Holds};

    ghost Value = { List (Entry ℕ) };

    ghost view = { λ q. entries q.nodes q.parent q.letter q.count };

    ghost invariant = { λ q. Holds q.nodes q.seen q.parent q.letter q.count };
}

impl Queue {
    // No node.
    pub fn new() -> Self
        ensures { result ≡ [] }
    {
        Queue {
            nodes: [0; 2304],
            seen: [false; 2304],
            parent: [0; 2304],
            letter: [0; 2304],
            count: 0,
        }
    }

    // How many nodes there are.
    pub fn len(&self) -> usize
        ensures length { result ≡ length self.now }
        ensures few { length self.now ≤ 2304 }
        ensures short { (p : ℕ) → p < length self.now → length (get_or self.now p (starts 0)).word ≤ p }
    {
        self.count
    }

    // The node of place `p`.
    pub fn node(&self, p: usize) -> usize
        requires { p < length self.now }
        ensures { result ≡ (get_or self.now p (starts 0)).node }
    {
        let nodes = &self.nodes;
        usize::from(nodes[p])
    }

    // The node `x`, met from place `from` by the letter `a`, joins the end, unless it was met before. The first one is the start.
    pub fn meet(&mut self, x: usize, from: usize, a: usize)
        requires { (x < 2304) × (a < 256) × (from ≤ length self.old - 1) }
        ensures { self.new ≡ joined self.old x (onward (length self.old) (get_or self.old from (starts 0)).word a) }
    {
        if self.seen[x] {
            return;
        }
        let place = self.count;
        self.seen[x] = true;
        // They fit, by the clause; no `From` makes a number narrower.
        self.nodes[place] = x as u16;
        self.parent[place] = from as u16;
        self.letter[place] = a as u8;
        self.count = place + 1;
    }

    // How many letters the word of place `p` has: a walk back to the start, which is no range.
    fn depth(&self, p: usize) -> usize
        requires { p < length self.now }
        ensures { result ≡ length (get_or self.now p (starts 0)).word }
    {
        let mut at = p;
        let mut depth: usize = 0;
        while 0 < at {
            at = usize::from(self.parent[at]);
            depth += 1;
        }
        depth
    }

    // The word of place `p` is put into `into` from `at` on, from its last letter to its first, by the same walk. Answers where it ends.
    pub fn spell(&self, p: usize, into: &mut [u8], at: usize) -> usize
        requires there { p < length self.now }
        requires room { at + length (get_or self.now p (starts 0)).word ≤ length into.old }
        ensures value { result ≡ at + length (get_or self.now p (starts 0)).word }
        ensures into_after { into.new ≡ put at (get_or self.now p (starts 0)).word into.old }
    {
        let end = at + self.depth(p);
        let mut q = p;
        let mut i = end;
        while 0 < q {
            i -= 1;
            into[i] = self.letter[q];
            q = usize::from(self.parent[q]);
        }
        end
    }
}
