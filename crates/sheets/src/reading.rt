// Reading steps. Each takes the bytes that are left, and gives those that follow it, or the refusal that the paper's order gives first. The
// caller takes the values from the bytes that a sound step has passed. The limits n and k and the count r come as numbers: no machine is
// there yet.
ghost use Rattle.std.specs.Prelude.{◌≡◌, ◌*◌, ◌≤◌, length};
ghost use Rattle.sheets.specs.Reading.{mark, pairs, rows};
ghost use Rattle.sheets.specs.Steps.{row};
ghost use Rattle.sheets.specs.Rests.{rest_of, follows};

use machine::Refusal;

// Mark present (1), mark right (2).
pub(crate) fn mark<'a>(bytes: &'a [u8], due: &[u8; 2]) -> Result<&'a [u8], Refusal>
    ensures { rest_of result ≡ follows (mark due.now bytes.entry.now) }
{
    let [first, second, rest @ ..] = bytes else {
        return Err(Refusal::EndsEarly);
    };
    if [*first, *second] != *due {
        return Err(Refusal::WrongMark);
    }
    Ok(rest)
}

// `k` pairs that are present: each next state is below `n` (4).
fn pairs<'a>(bytes: &'a [u8], n: usize, k: usize) -> Result<&'a [u8], Refusal>
    requires { 2 * k ≤ length bytes.now }
    ensures { rest_of result ≡ follows (pairs n k bytes.entry.now) }
{
    for i in 0..k {
        if n <= usize::from(bytes[2 * i + 1]) {
            return Err(Refusal::NoSuchState);
        }
    }
    Ok(&bytes[2 * k..])
}

// One row: its mark, then its bytes present (1), then its pairs.
fn row<'a>(bytes: &'a [u8], n: usize, k: usize) -> Result<&'a [u8], Refusal>
    ensures { rest_of result ≡ follows (row n k bytes.entry.now) }
{
    let rest = mark(bytes, b"MR")?;
    // What is left is halved: `k` may be too large to be doubled.
    if rest.len() / 2 < k {
        return Err(Refusal::EndsEarly);
    }
    pairs(rest, n, k)
}

// `r` rows, one after the other.
pub(crate) fn rows<'a>(bytes: &'a [u8], n: usize, k: usize, r: usize) -> Result<&'a [u8], Refusal>
    ensures { rest_of result ≡ follows (rows n k r bytes.entry.now) }
{
    let mut rest = bytes;
    for _ in 0..r {
        rest = row(rest, n, k)?;
    }
    Ok(rest)
}
