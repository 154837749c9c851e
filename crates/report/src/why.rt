// What the program `why` says of two states of the machine on a machine sheet.
ghost use Rattle.std.specs.Prelude.{◌≡◌};
ghost use Rattle.apart.specs.Answers.{why_of};
ghost use Rattle.apart.specs.ApartMeans.{Short};
ghost use Rattle.report.specs.Desk as desk;

use apart::Told;
use machine::Refusal;
use sheets::machines;
use sheets::machines::Size;

// The least word that tells the two apart is put to the start of the area. A refusal, of the sheet too, leaves it.
pub fn why_on(machine: &[u8], s: usize, t: usize, area: &mut [u8]) -> Result<Option<Told>, Refusal>
    ensures area_after { record { answer = why_of result; area = area.new } ≡ desk.why machine.now s t area.old }
    ensures short { Short (why_of result) }
{
    let mut words = [0u16; 576];
    let Size { n, k } = machines::read(machine, &mut words)?;
    let size = n * k;
    apart::why_apart(&words[..size], n, k, s, t, area)
}
