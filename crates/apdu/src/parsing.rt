// Step 1: the header and the length of the data.
ghost use Rattle.std.specs.Prelude.{◌≡◌};
ghost use Rattle.apdu.specs.Parsing.{parsed};

use crate::refusals::Refusal;

// The header of a command; its data are the `lc` bytes from byte 6 on.
#[derive(Clone, Copy, Debug, PartialEq, Eq)]
pub struct Apdu {
    pub cla: u8,
    pub ins: u8,
    pub p1: u8,
    pub p2: u8,
    pub lc: u8,
}

// What bytes are as a command.
#[tactic(auto, unfolding(crate::specs::Parsing::parsed))]
pub fn parse(command: &[u8]) -> Result<Apdu, Refusal>
    ensures { result ≡ parsed command.now }
{
    let &[cla, ins, p1, p2, ref rest @ ..] = command else {
        return Err(Refusal::WrongLength);
    };
    let lc = match *rest {
        [] | [_] => 0,
        [lc, ref data @ ..]
            if lc != 0 && (data.len() == usize::from(lc) || data.len() == usize::from(lc) + 1) => {
            lc
        }
        _ => return Err(Refusal::WrongLength),
    };
    Ok(Apdu {
        cla,
        ins,
        p1,
        p2,
        lc,
    })
}
