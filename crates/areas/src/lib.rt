// Bytes put into lent areas: the records of sheets, and words in slots. Each function leaves every other byte of its area as it was. What
// a program lends is room of zeros.
#![tactic(auto)]

ghost use Rattle.std.specs.Prelude.{◌≡◌, length};
ghost use Rattle.rules.specs.Areas.{zeros};

pub mod records;
pub mod store;

// An area of N zeros, for a program that lends it on.
pub fn zeros<const N: usize>() -> [u8; N]
    ensures zeros { result ≡ zeros N }
    ensures size { length result ≡ N }
{
    [0; N]
}
