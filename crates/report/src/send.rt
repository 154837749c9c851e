// What the program `proof` sends: the proof sheet of the machine on a machine sheet.
ghost use Rattle.std.specs.Prelude.{◌≡◌};
ghost use Rattle.machine.specs.Answers.{answered};
ghost use Rattle.report.specs.Desk as desk;
ghost use Rattle.report.specs.DeskLaws.{Short};

use learning::Learnt;
use machine::Refusal;
use sheets::machines;
use sheets::machines::Size;

// The machine is learnt with the largest limits into the area. Answers the length of the sheet at its start; a refusal leaves it.
pub fn send(machine: &[u8], area: &mut [u8]) -> Result<usize, Refusal>
    ensures area_after { record { answer = answered result; area = area.new } ≡ desk.send machine.now area.old }
    ensures short { Short (answered result) }
{
    let mut words = [0u16; 576];
    let Size { n, k } = machines::read(machine, &mut words)?;
    let size = n * k;
    let mut table = [0u8; 34043];
    let learnt = learning::learn(&words[..size], n, k, 48, 47, &mut table, area)?;
    // With these limits no machine is left open: the answer is the one that the definition has for it.
    let Learnt::Done(counts) = learnt else {
        return Ok(0);
    };
    Ok(counts.bytes)
}
