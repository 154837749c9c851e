// Numbers as text, put into a lent area at a place, where a clause says what each byte is: a `Display` writes to a stream, and what leaves by a
// stream no clause sees. Area and place stay two parameters, as `areas::records` has them and says why.
#![tactic(auto)]

ghost use Rattle.std.specs.Prelude.{◌+◌, ◌≤◌, length};
ghost use Rattle.text.specs.Decimal.{decimal};
ghost use Rattle.text.specs.Putting.{Put};

pub mod stream;

use areas::store;
pub use stream::Stream;

// The decimal digits of `x`, without leading zeros. Answers where they end.
pub fn put_decimal(area: &mut [u8], at: usize, x: usize) -> usize
    requires { at + length (decimal x) ≤ length area.old }
    ensures { Put at (decimal x) area.old result area.new }
{
    // No heap: the digits stand at the start of a fixed buffer.
    let mut digits = [0u8; 20];
    // A usize fits; there is no `From` for it.
    let size = io::decimal(x as u64, &mut digits);
    store::put_letters(area, at, &digits[..size]);
    at + size
}
