// Reading a proof sheet, and the AW record of a state. Each step takes the bytes that are left, and gives those that follow it.
ghost use Rattle.std.specs.Prelude.{◌≡◌, ◌+◌, ◌*◌, ◌≤◌, length, get_or, take, drop};
ghost use Rattle.std.specs.List.{list_all};
ghost use Rattle.machine.specs.Answers.{answered};
ghost use Rattle.machine.specs.Lent.{letters_below};
ghost use Rattle.sheets.specs.Proofs.{map_byte, word_record, word_records, read_proof, aw_record};
ghost use Rattle.sheets.specs.Steps.{outcome};
ghost use Rattle.sheets.specs.ProofParts.{in_range, letters, header, map_record, body, given, record_place, aw_place};
ghost use Rattle.sheets.specs.Rests.{rest_of, follows};
ghost use Rattle.sheets.specs.ProofAnswers.{numbers_of, read_of};

use crate::reading;
use machine::Refusal;

// What reading a proof sheet gives: the model's states, the letters, the machine's states, and how many columns there are.
#[derive(Clone, Copy, Debug, PartialEq, Eq)]
pub struct Counts {
    pub m: usize,
    pub k: usize,
    pub n: usize,
    pub c: usize,
}

impl Counts {
    // Whether each number is in its range.
    fn in_range(&self) -> bool
        ensures { result ≡ in_range (numbers_of self.now) }
    {
        machine::sized(self.m, self.k) && machine::within(1, 48, self.n) && self.c <= 59
    }

    // Where the records of the reaching words begin.
    pub(crate) fn reaching(&self) -> usize
        requires { (self.now.m ≤ 48) × (self.now.k ≤ 12) }
        ensures { result ≡ 6 + self.now.m * (2 + 2 * self.now.k) }
    {
        6 + self.m * (2 + 2 * self.k)
    }
}

// Whether every letter of a record's word is below `k`. Where it has many, it goes to the end whatever it finds, so that they are compared many
// at once; for the few of most words that costs more than it saves.
fn letters_below(w: &[u8], k: usize) -> bool
    ensures { result ≡ letters_below k w.now }
{
    if w.len() < 16 {
        return machine::letters_below(w, k);
    }
    let mut below = true;
    for a in w {
        below &= usize::from(*a) < k;
    }
    below
}

// Records of words that are due: their mark, how few and how many letters a word may have, and how many letters there are.
#[derive(Clone, Copy)]
struct Due {
    mark: [u8; 2],
    low: usize,
    high: usize,
    k: usize,
}

impl Due {
    // A word's letters, once its length is known: bad length (6), absent letters (1), bad letter (6).
    fn letters<'a>(&self, bytes: &'a [u8], size: usize) -> Result<&'a [u8], Refusal>
        ensures { rest_of result ≡ follows (letters self.now.low self.now.high self.now.k size bytes.entry.now) }
    {
        if !machine::within(self.low, self.high, size) {
            return Err(Refusal::BadWord);
        }
        if bytes.len() < size {
            return Err(Refusal::EndsEarly);
        }
        if letters_below(&bytes[..size], self.k) {
            Ok(&bytes[size..])
        } else {
            Err(Refusal::BadWord)
        }
    }

    // One record of a word: its mark, its length (absent: 1), its letters.
    fn word<'a>(&self, bytes: &'a [u8]) -> Result<&'a [u8], Refusal>
        ensures { rest_of result ≡ follows (word_record self.now.mark self.now.low self.now.high self.now.k bytes.entry.now) }
    {
        let [size, letters @ ..] = reading::mark(bytes, &self.mark)? else {
            return Err(Refusal::EndsEarly);
        };
        self.letters(letters, usize::from(*size))
    }

    // `count` records of words, one after the other.
    fn words<'a>(&self, bytes: &'a [u8], count: usize) -> Result<&'a [u8], Refusal>
        ensures { rest_of result ≡ follows (word_records self.now.mark self.now.low self.now.high self.now.k count bytes.entry.now) }
    {
        let mut rest = bytes;
        for _ in 0..count {
            rest = self.word(rest)?;
        }
        Ok(rest)
    }
}

// Whether each byte of the state map is below `m`, or 255, which the sheet's format has for none.
fn map_bytes(map: &[u8], m: usize) -> bool
    ensures { result ≡ list_all (map_byte m) map.now }
{
    map.iter().all(|x| usize::from(*x) < m || *x == 255)
}

// The state map: its mark, then its `n` bytes present (1), then its bytes (4).
fn state_map<'a>(bytes: &'a [u8], m: usize, n: usize) -> Result<&'a [u8], Refusal>
    ensures { rest_of result ≡ follows (map_record m n bytes.entry.now) }
{
    let states = reading::mark(bytes, b"SM")?;
    if states.len() < n {
        return Err(Refusal::EndsEarly);
    }
    if !map_bytes(&states[..n], m) {
        return Err(Refusal::NoSuchState);
    }
    Ok(&states[n..])
}

// The header: its mark, then its four numbers present (1), then each in its range (3).
fn header(bytes: &[u8]) -> Result<Counts, Refusal>
    ensures { read_of result ≡ given (header bytes.now) }
{
    let [m, k, n, c, ..] = reading::mark(bytes, b"PH")? else {
        return Err(Refusal::EndsEarly);
    };
    let counts = Counts {
        m: usize::from(*m),
        k: usize::from(*k),
        n: usize::from(*n),
        c: usize::from(*c),
    };
    if !counts.in_range() {
        return Err(Refusal::OutOfRange);
    }
    Ok(counts)
}

// What follows the header: rows, reaching words, columns, the state map, and no byte left over (5).
fn body(bytes: &[u8], counts: &Counts) -> Result<(), Refusal>
    ensures { answered result ≡ outcome (body (numbers_of counts.now) bytes.now) }
{
    let Counts { m, k, n, c } = *counts;
    let reaching = Due {
        mark: *b"AW",
        low: 0,
        high: 47,
        k,
    };
    let column = Due {
        mark: *b"CW",
        low: 1,
        high: 93,
        k,
    };
    let words = reading::rows(bytes, m, k, m)?;
    let columns = reaching.words(words, m)?;
    let map = column.words(columns, c)?;
    let rest = state_map(map, m, n)?;
    if !rest.is_empty() {
        return Err(Refusal::LeftOver);
    }
    Ok(())
}

// Reading a proof sheet gives m, k, n and c, and writes nothing.
pub fn read(bytes: &[u8]) -> Result<Counts, Refusal>
    ensures { read_of result ≡ read_proof bytes.now }
{
    let counts = header(bytes)?;
    body(&bytes[6..], &counts)?;
    Ok(counts)
}

// The place of the record number `j` of words, counted from the record at `start`.
pub fn record_place(bytes: &[u8], start: usize, j: usize) -> usize
    requires { record_place bytes.now start j ≤ length bytes.now }
    ensures { result ≡ record_place bytes.now start j }
{
    // By places and not by what is left: the place of an AW record is what is promised.
    let mut place = start;
    for _ in 0..j {
        place += 3 + usize::from(bytes[place + 2]);
    }
    place
}

// The word of the record at a place.
pub(crate) fn word_at(sheet: &[u8], place: usize) -> &[u8]
    requires { place + (3 + get_or sheet.now (place + 2) 0) ≤ length sheet.now }
    ensures word { result.now ≡ take (get_or sheet.now (place + 2) 0) (drop (place + 3) sheet.now) }
    ensures size { length result.now ≡ get_or sheet.now (place + 2) 0 }
{
    let from = place + 3;
    let end = from + usize::from(sheet[place + 2]);
    &sheet[from..end]
}

// The AW record of a state, mark included: that part of the lent sheet itself. The empty part for a sheet that is refused when read, or a
// state not below m.
pub fn aw_record<'a>(sheet: &'a [u8], state: usize) -> &'a [u8]
    ensures result_value { result.now ≡ aw_record sheet.now state }
    ensures ref_ptr_value { (result.ref_ptr.0 ≡ sheet.entry.ref_ptr.0) × (result.ref_ptr.1 ≡ aw_place sheet.now state + sheet.entry.ref_ptr.1) }
{
    // The empty part is the paper's answer for a refusal.
    let Ok(counts) = read(sheet) else {
        return &sheet[0..0];
    };
    if counts.m <= state {
        return &sheet[0..0];
    }
    let at = record_place(sheet, counts.reaching(), state);
    let end = at + 3 + word_at(sheet, at).len();
    &sheet[at..end]
}
