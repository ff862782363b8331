// PIN CHANGE/UNBLOCK: both fill the tries and clear the flag.
ghost use Rattle.std.specs.Prelude.{◌≡◌, []};
ghost use Rattle.commands_spec.specs.PinChange.{pin_change_of};

use crate::answer::granted;
use apdu::Refusal;
use card::well_formed;
use channel::received;
use commands_spec::{Commits, Outcome};
use objects::Context;
use session::Access;

// No data: the PIN stays, and no block is judged.
#[tactic(auto, unfolding(commands_spec::specs::PinChange::pin_change_of, commands_spec::specs::PinChange::pin_status, commands_spec::specs::Outcomes::decided))]
pub fn unblock_pin(context: &Context) -> Outcome
    ensures { result ≡ pin_change_of context.now.head context.now.session [] }
{
    let head = &context.head;
    if !head.pin.defined {
        return context.refused(Refusal::FeatureMissing);
    }
    if context.access() < Access::Admin {
        return context.refused(Refusal::SecurityNotSatisfied);
    }
    let next = head.with_tries(head.fixed.maxtries);
    granted(Commits::Hot, next, context.session.flagged(false))
}

// A PIN under the DEK.
#[tactic(auto, unfolding(commands_spec::specs::PinChange::pin_change_of, commands_spec::specs::PinChange::pin_status, commands_spec::specs::Outcomes::decided))]
pub fn change_pin(context: &Context, body: [u8; 8]) -> Outcome
    ensures { result ≡ pin_change_of context.now.head context.now.session body }
{
    if context.access() < Access::Admin {
        return context.refused(Refusal::SecurityNotSatisfied);
    }
    let block = received(context.engine, context.dek(), body);
    if !well_formed(block) {
        return context.refused(Refusal::WrongData);
    }
    let next = context.head.with_pin(block);
    granted(Commits::HotAndCold, next, context.session.flagged(false))
}
