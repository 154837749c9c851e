// Words kept one after the other in slots: slot j has WIDTH places, first the word's length and then its letters. In a contract a store is
// the list of its words. Area and place stay two parameters, as `records` says.
ghost use Rattle.std.specs.Prelude.{◌≡◌, List, [], ◌∷◌, ◌++◌, ℕ, ◌+◌, ◌*◌, ◌<◌, ◌≤◌, length, get_or};
ghost use Rattle.rules.specs.Areas.{put};
ghost use Rattle.areas.specs.Store.{slot, stored, Slots};

use std::marker::Model;

// The letters of `w` are put into `area` from `at` on.
pub fn put_letters(area: &mut [u8], at: usize, w: &[u8])
    requires { at + length w.now ≤ length area.old }
    ensures { area.new ≡ put at w.now area.old }
{
    area[at..at + w.len()].copy_from_slice(w);
}

// The word of slot `j`. It asks for that slot alone, as `copy_word` does, so that there is no `Store` to take.
fn slot(store: &[u8], width: usize, j: usize) -> &[u8]
    requires width_in_bounds { j * width + width ≤ length store.now }
    requires width_bound { get_or store.now (j * width) 0 < width }
    ensures word { result.now ≡ slot width store.now j }
    ensures short { length result.now < width }
{
    let place = j * width;
    let from = place + 1;
    let end = from + usize::from(store[place]);
    &store[from..end]
}

// The word `w` is put into slot `j`. It asks for that slot alone. The length fits a byte, by its clause; no `From` makes a number narrower.
pub fn store_word(store: &mut [u8], width: usize, j: usize, w: &[u8])
    requires width_in_bounds { j * width + width ≤ length store.old }
    requires w_len_bound { (length w.now < width) × (width ≤ 256) }
    ensures { store.new ≡ put (j * width) (length w.now ∷ w.now) store.old }
{
    let place = j * width;
    store[place] = w.len() as u8;
    put_letters(store, place + 1, w);
}

// The word of slot `j` is put into `area` from `at` on. Answers where it ends. It takes any lent bytes, of which it asks for that slot alone.
pub fn copy_word(store: &[u8], width: usize, j: usize, area: &mut [u8], at: usize) -> usize
    requires width_in_bounds { j * width + width ≤ length store.now }
    requires width_bound { get_or store.now (j * width) 0 < width }
    requires width_in_bounds_2 { at + width ≤ length area.old + 1 }
    ensures { (result ≡ at + length (slot width store.now j)) × (area.new ≡ put at (slot width store.now j) area.old) }
{
    let w = slot(store, width, j);
    put_letters(area, at, w);
    at + w.len()
}

// No heap: the slots are one array, and a word is the part of its slot that it fills.
#[derive(Drop)]
pub struct Store<const WIDTH: usize, const ROOM: usize> {
    slots: [u8; ROOM],
    count: usize,
}

impl<const WIDTH: usize, const ROOM: usize> Model for Store<WIDTH, ROOM> {
    ghost Value = { List (List ℕ) };

    ghost view = { λ s. stored WIDTH s.slots s.count };

    ghost invariant = { λ s. Slots WIDTH s.slots s.count };
}

impl<const WIDTH: usize, const ROOM: usize> Store<WIDTH, ROOM> {
    // No word.
    pub fn new() -> Self
        ensures { result ≡ [] }
    {
        Store {
            slots: [0; ROOM],
            count: 0,
        }
    }

    // How many words there are.
    pub fn len(&self) -> usize
        ensures { result ≡ length self.now }
    {
        self.count
    }

    // The word number `j`.
    pub fn word(&self, j: usize) -> &[u8]
        requires { j < length self.now }
        ensures word { result.now ≡ get_or self.now j [] }
        ensures short { length result.now < WIDTH }
    {
        slot(&self.slots[..], WIDTH, j)
    }

    // The word number `j` is put into `area` from `at` on. Answers where it ends.
    pub fn copy_word(&self, j: usize, area: &mut [u8], at: usize) -> usize
        requires there { j < length self.now }
        requires room { at + WIDTH ≤ length area.old + 1 }
        ensures value { result ≡ at + length (get_or self.now j []) }
        ensures area_after { area.new ≡ put at (get_or self.now j []) area.old }
    {
        copy_word(&self.slots[..], WIDTH, j, area, at)
    }

    // The word `w` is added at the end.
    pub fn push(&mut self, w: &[u8])
        requires room { length self.old * WIDTH + WIDTH ≤ ROOM }
        requires short { (length w.now < WIDTH) × (WIDTH ≤ 256) }
        ensures { self.new ≡ self.old ++ w.now ∷ [] }
    {
        store_word(&mut self.slots, WIDTH, self.count, w);
        self.count += 1;
    }
}
