// Records of a sheet, written into a lent area at a place. Each function leaves every other byte of the area as it was.
// Area and place stay two parameters, here and in the crates above: a writer with a `&mut` could have no model, and would promise both anyway.
ghost use Rattle.std.specs.Prelude.{◌≡◌, ◌∷◌, ◌++◌, [], ℕ, ◌+◌, ◌*◌, ◌≤◌, length, get_or};
ghost use Rattle.rules.specs.Areas.{put};
ghost use Rattle.rules.specs.Sheets.{MR, pair_bytes, row_bytes};
ghost use Rattle.rules.specs.SheetLaws.{pair};

// A record's mark.
pub fn put_mark(area: &mut [u8], at: usize, mark: &[u8; 2])
    requires { at + 2 ≤ length area.old }
    ensures { area.new ≡ put at (get_or mark.now 0 0 ∷ get_or mark.now 1 0 ∷ []) area.old }
{
    area[at] = mark[0];
    area[at + 1] = mark[1];
}

// The pair (output, next) of a word.
fn put_pair(area: &mut [u8], at: usize, word: u16)
    requires { at + 2 ≤ length area.old }
    ensures { area.new ≡ put at (pair word) area.old }
{
    let [output, next] = word.to_le_bytes();
    area[at] = output;
    area[at + 1] = next;
}

// The pairs of the words, one after the other.
fn put_pairs(area: &mut [u8], at: usize, words: &[u16])
    requires { at + 2 * length words.now ≤ length area.old }
    ensures { area.new ≡ put at (pair_bytes words.now) area.old }
{
    for (i, word) in words.iter().enumerate() {
        put_pair(area, at + 2 * i, *word);
    }
}

// One row: MR with the pairs of its words.
fn put_row(area: &mut [u8], at: usize, words: &[u16])
    requires { at + (2 + 2 * length words.now) ≤ length area.old }
    ensures { area.new ≡ put at (MR ++ pair_bytes words.now) area.old }
{
    put_mark(area, at, b"MR");
    put_pairs(area, at + 2, words);
}

// `rows` times MR with the pairs of `k` words.
pub fn put_rows(area: &mut [u8], at: usize, words: &[u16], k: usize, rows: usize)
    requires k_in_bounds { rows * k ≤ length words.now }
    requires k_in_bounds_2 { at + rows * (2 + 2 * k) ≤ length area.old }
    ensures { area.new ≡ put at (row_bytes k rows words.now) area.old }
{
    for row in 0..rows {
        let from = row * k;
        put_row(area, at + row * (2 + 2 * k), &words[from..from + k]);
    }
}
