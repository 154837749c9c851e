// What the program `accept` says of a machine sheet and a proof sheet.
ghost use Rattle.std.specs.Prelude.{◌≡◌};
ghost use Rattle.report.specs.Desk as desk;
ghost use Rattle.report.specs.DeskAnswers.{verdict_of};

use machine::Refusal;
use sheets::machines::Size;
use sheets::{checker, machines};
use std::fmt;

// Which sheet is refused, and why.
#[derive(Clone, Copy, Debug, PartialEq, Eq)]
pub enum Rejection {
    Machine(Refusal),
    Proof(Refusal),
}

impl fmt::Display for Rejection {
    fn fmt<W: fmt::Write>(&self, f: &mut fmt::Formatter<W>) -> fmt::Result {
        let (sheet, refusal) = match self {
            Rejection::Machine(refusal) => ("machine", refusal),
            Rejection::Proof(refusal) => ("proof", refusal),
        };
        let number = u8::from(*refusal);
        write!(f, "refused {number}: {sheet} sheet, {refusal}")
    }
}

// The proof sheet is held against the machine on the machine sheet. An accepted sheet has its model's size after its mark.
pub fn verdict_on(machine: &[u8], proof: &[u8]) -> Result<usize, Rejection>
    ensures { verdict_of result ≡ desk.verdict machine.now proof.now }
{
    let mut words = [0u16; 576];
    let Size { n, k } = machines::read(machine, &mut words).map_err(Rejection::Machine)?;
    let size = n * k;
    checker::check(&words[..size], n, k, proof).map_err(Rejection::Proof)?;
    Ok(usize::from(proof[2]))
}
