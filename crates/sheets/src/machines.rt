// Machine sheets: reading one into a lent word area, and writing one from lent words. `read` and `write` take every input and refuse by the
// paper's numbers; a refusal changes no lent word or byte.
ghost use Rattle.std.specs.Prelude.{◌≡◌, ◌+◌, ◌*◌, ◌≤◌, length};
ghost use Rattle.rules.specs.Areas.{put};
ghost use Rattle.rules.specs.Sheets.{machine_bytes};
ghost use Rattle.machine.specs.Answers.{answered};
ghost use Rattle.machine.specs.Lent.{Sound};
ghost use Rattle.sheets.specs.Standing.{pair_words, row_words};
ghost use Rattle.sheets.specs.Steps.{outcome};
ghost use Rattle.sheets.specs.Machines.{machine_sheet, read_machine, write_machine};
ghost use Rattle.sheets.specs.MachineSteps.{sheet_body, size_in};
ghost use Rattle.sheets.specs.MachineAnswers.{read_of};

use crate::reading;
use areas::records;
use machine::{Lent, Refusal};

// What reading a machine sheet gives.
#[derive(Clone, Copy, Debug, PartialEq, Eq)]
pub struct Size {
    pub n: usize,
    pub k: usize,
}

// What stands after MH, n and k: n and k in their ranges (3), n rows, and no byte left over (5).
fn body(bytes: &[u8], size: Size) -> Result<(), Refusal>
    ensures { answered result ≡ outcome (sheet_body size.n size.k bytes.now) }
{
    if !machine::sized(size.n, size.k) {
        return Err(Refusal::OutOfRange);
    }
    let rest = reading::rows(bytes, size.n, size.k, size.n)?;
    if !rest.is_empty() {
        return Err(Refusal::LeftOver);
    }
    Ok(())
}

// A whole machine sheet, left to right, gives its n and k.
fn sheet(bytes: &[u8]) -> Result<Size, Refusal>
    ensures { read_of result ≡ size_in (machine_sheet bytes.now) }
{
    let [n, k, rows @ ..] = reading::mark(bytes, b"MH")? else {
        return Err(Refusal::EndsEarly);
    };
    let size = Size {
        n: usize::from(*n),
        k: usize::from(*k),
    };
    body(rows, size)?;
    Ok(size)
}

// The words of `k` pairs, from the word `from` on.
fn set_pairs(area: &mut [u16], from: usize, pairs: &[u8], k: usize)
    requires k_in_bounds { from + k ≤ length area.old }
    requires k_in_bounds_2 { 2 * k ≤ length pairs.now }
    ensures { area.new ≡ put from (pair_words k pairs.now) area.old }
{
    // By index: what is written through `iter_mut` with an adapter is not known afterwards, and two bytes are read for each word.
    for i in 0..k {
        area[from + i] = machine::word(usize::from(pairs[2 * i + 1]), pairs[2 * i]);
    }
}

// The words of `count` rows.
pub(crate) fn set_rows(area: &mut [u16], rows: &[u8], k: usize, count: usize)
    requires k_in_bounds { count * k ≤ length area.old }
    requires k_in_bounds_2 { count * (2 + 2 * k) ≤ length rows.now }
    ensures { area.new ≡ put 0 (row_words k count rows.now) area.old }
{
    for row in 0..count {
        let pairs = &rows[row * (2 + 2 * k) + 2..];
        set_pairs(area, row * k, pairs, k);
    }
}

// Reader: sheet, then 8. Sets the first n·k words only.
pub fn read(bytes: &[u8], area: &mut [u16]) -> Result<Size, Refusal>
    ensures { record { answer = read_of result; area = area.new } ≡ read_machine bytes.now area.old }
{
    let Size { n, k } = sheet(bytes)?;
    if area.len() < 576 {
        return Err(Refusal::SmallArea);
    }
    set_rows(area, &bytes[4..], k, n);
    Ok(Size { n, k })
}

// MH, n, k and the rows, at the start of the area.
fn put_sheet(area: &mut [u8], machine: &Lent)
    requires sound { Sound machine.now.n machine.now.k machine.now.words.now }
    requires in_bounds { 1252 ≤ length area.old }
    ensures { area.new ≡ put 0 (machine_bytes machine.now.n machine.now.k machine.now.words.now) area.old }
{
    records::put_mark(area, 0, b"MH");
    // Both fit a byte, by the clause `sound`; no `From` makes a number narrower.
    area[2] = machine.n as u8;
    area[3] = machine.k as u8;
    records::put_rows(area, 4, machine.words, machine.k, machine.n);
}

// Machine writer, lent words, n and k as C has them: words, then 9. Gives the sheet's length and sets that many bytes only.
pub fn write(words: &[u16], n: usize, k: usize, area: &mut [u8]) -> Result<usize, Refusal>
    ensures { record { answer = answered result; area = area.new } ≡ write_machine n k words.now area.old }
{
    let machine = Lent::new(words, n, k)?;
    if area.len() < 1252 {
        return Err(Refusal::SmallSheet);
    }
    put_sheet(area, &machine);
    Ok(4 + n * (2 + 2 * k))
}
