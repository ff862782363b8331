// Steps 3 to 5: the first rule that refuses, if one does.
ghost use Rattle.std.specs.Prelude.{◌≡◌};
ghost use Rattle.apdu.specs.Refusals.{status_of};
ghost use Rattle.apdu.specs.Early.{early_status, plain_status, signed_status};

use crate::instructions::{Plain, Signed};
use crate::parsing::Apdu;
use crate::refusals::{Refusal, ensure};

// The row of rules.
#[tactic(auto, unfolding(crate::specs::Early::early_status))]
fn early_status(selected: bool, parameters: bool, logged: bool, length: bool) -> Result<(), Refusal>
    ensures { status_of result ≡ early_status selected parameters logged length }
{
    ensure(selected, Refusal::ConditionsNotSatisfied)?;
    ensure(parameters, Refusal::WrongParameters)?;
    ensure(logged, Refusal::UnknownRecord)?;
    ensure(length, Refusal::WrongLength)
}

// A command without a C-MAC: selection, which SELECT doesn't need, parameters, record, length.
#[tactic(auto, unfolding(crate::specs::Early::plain_status, crate::specs::Early::is_select))]
pub fn plain_status(p: Plain, selected: bool, a: Apdu, logsize: u8) -> Result<(), Refusal>
    ensures { status_of result ≡ plain_status p selected a logsize }
{
    early_status(
        p == Plain::Select || selected,
        p.parameters(a.p1, a.p2),
        p.has_record(a.p1, logsize),
        p.length(a.lc),
    )
}

// A command with a C-MAC.
#[tactic(auto, unfolding(crate::specs::Early::signed_status))]
pub fn signed_status(g: Signed, selected: bool, a: Apdu) -> Result<(), Refusal>
    ensures { status_of result ≡ signed_status g selected a }
{
    early_status(selected, g.parameters(a.p1, a.p2), true, g.length(a.lc))
}
