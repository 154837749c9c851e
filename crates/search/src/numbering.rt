// The states of a machine that words reach, numbered by their least words, and these words.
ghost use Rattle.std.specs.Prelude.{◌≡◌, [], ◌++◌, ◌∷◌, ◌<◌, ◌≤◌, length, get_or, eqb, position};
ghost use Rattle.rules.specs.Search.{starts};
ghost use Rattle.machine.specs.Linked.{linked};
ghost use Rattle.search.specs.Listing.{listed, numbered};

use crate::pairs::Pairs;
use crate::queue::Queue;
use areas::store::Store;
use machine::Lent;
use std::marker::Model;

// Fixed memory: two arrays, since a state's word is kept in a slot of a store.
#[derive(Drop)]
pub struct Numbering {
    states: [usize; 48],
    words: Store<48, 2304>,
}

impl Model for Numbering {
    ghost use Rattle.std.specs.Prelude.{◌≡◌, ◌≤◌, length, take};
    ghost use Rattle.search.specs.Listing.{Listing};

    ghost Value = { Listing };

    ghost view = { λ s. record { states = take (length s.words) s.states; words = s.words } };

    ghost invariant = { λ s. (length s.states ≡ 48) × (length s.words ≤ 48) };
}

impl Numbering {
    // No state.
    pub fn new() -> Self
        ensures { result ≡ record { states = []; words = [] } }
    {
        Numbering {
            states: [0; 48],
            words: Store::new(),
        }
    }

    // The states that words reach. The search runs over the pairs with a machine that stays in its single state: they are the states.
    pub fn number(&mut self, machine: &Lent)
        requires { (machine.now.n ≤ 48) × (1 ≤ machine.now.k) × (machine.now.k ≤ 12) }
        ensures { self.new ≡ numbered machine.now.k (linked machine.now) }
    {
        let alone = Lent {
            words: &[0; 12],
            n: 1,
            k: machine.k,
        };
        let mut queue = Queue::new();
        let pairs = Pairs {
            machine: *machine,
            other: alone,
        };
        pairs.explore(0, &mut queue);
        self.words = Store::new();
        self.list(&queue);
    }

    // The states of a queue, with their words.
    fn list(&mut self, queue: &Queue)
        requires none { self.old ≡ record { states = []; words = [] } }
        requires few { length queue.now ≤ 48 }
        ensures { self.new ≡ listed queue.now }
    {
        for place in 0..queue.len() {
            let mut word = [0; 48];
            let end = queue.spell(place, &mut word, 0);
            self.push(queue.node(place), &word[..end]);
        }
    }

    // One state more, and its word.
    fn push(&mut self, state: usize, word: &[u8])
        requires { (length self.old.words < 48) × (length word.now < 48) }
        ensures { self.new ≡ record { states = self.old.states ++ state ∷ []; words = self.old.words ++ word.now ∷ [] } }
    {
        self.states[self.words.len()] = state;
        self.words.push(word);
    }

    // How many states there are.
    pub fn len(&self) -> usize
        ensures states { result ≡ length self.now.states }
        ensures words { result ≡ length self.now.words }
        ensures few { result ≤ 48 }
    {
        self.words.len()
    }

    // The state number `j`.
    pub fn state(&self, j: usize) -> usize
        requires { j < length self.now.states }
        ensures { result ≡ get_or self.now.states j 0 }
    {
        let states = &self.states;
        states[j]
    }

    // The words, in the order of the states.
    pub fn words(&self) -> &Store<48, 2304>
        ensures { result.now ≡ self.now.words }
    {
        &self.words
    }

    // The least word that reaches the state number `j`.
    pub fn word(&self, j: usize) -> &[u8]
        requires { j < length self.now.words }
        ensures word { result.now ≡ get_or self.now.words j [] }
        ensures short { length result.now < 48 }
    {
        self.words.word(j)
    }

    // The number of a state, none where no word reaches it.
    pub fn place(&self, state: usize) -> Option<usize>
        ensures { result ≡ position (λ x. eqb x state) self.now.states }
    {
        self.states[..self.words.len()]
            .iter()
            .position(|s| *s == state)
    }
}
