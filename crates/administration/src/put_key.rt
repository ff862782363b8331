// PUT KEY: three keys for a set, sent under the DEK of the channel's set.
ghost use Rattle.std.specs.Prelude.{◌≡◌};
ghost use Rattle.commands_spec.specs.PutKey.{put_key_of};

use crate::answer::granted;
use apdu::Refusal;
use card::Keys;
use channel::received;
use commands_spec::{Commits, Outcome};
use objects::{Context, with_keys};
use session::{Access, Set};

// Another three keys for a set, under the DEK as it is before the change.
#[tactic(auto, unfolding(commands_spec::specs::PutKey::put_key_of, commands_spec::specs::PutKey::put_key_status, commands_spec::specs::Outcomes::decided))]
pub fn put_key(context: &Context, p2: u8, body: [u8; 48]) -> Outcome
    ensures { result ≡ put_key_of context.now.head context.now.session p2 body }
{
    if context.access() < Access::Admin {
        return context.refused(Refusal::SecurityNotSatisfied);
    }
    let bytes = received(context.engine, context.dek(), body);
    let next = with_keys(Set::from(p2), Keys::from_bytes(&bytes), &context.head);
    granted(Commits::HotAndCold, next, context.session.ended())
}
