// VERIFY PIN. The try is spent before the PIN is judged.
ghost use Rattle.std.specs.Prelude.{◌≡◌};
ghost use Rattle.apdu.specs.Refusals.{status_of};
ghost use Rattle.commands_spec.specs.VerifyPin.{judged, verify_pin_of, verify_status};

use apdu::{Refusal, ensure};
use card::State;
use channel::received;
use commands_spec::{Commits, Outcome};
use objects::{Context, done, refused};
use octets::Buffer;
use session::Access;

// 01's rules before the PIN is judged. Four values and no `Context`, and access as a number: the definition answers for every four.
#[tactic(auto, unfolding(commands_spec::specs::VerifyPin::verify_status))]
pub fn verify_status(personalized: bool, defined: bool, held: u8, tries: u8) -> Result<(), Refusal>
    ensures { status_of result ≡ verify_status personalized defined held tries }
{
    ensure(personalized, Refusal::ConditionsNotSatisfied)?;
    ensure(defined, Refusal::FeatureMissing)?;
    ensure(
        u8::from(Access::Credit) <= held,
        Refusal::SecurityNotSatisfied,
    )?;
    ensure(tries != 0, Refusal::NoTriesLeft)
}

// A try is spent; then, where the PIN is right, tries are full.
#[tactic(auto, using(octets::proofs::Holding::of_piece), unfolding(commands_spec::specs::VerifyPin::judged, commands_spec::specs::Outcomes::tried, commands_spec::specs::Outcomes::done, commands_spec::specs::Outcomes::refused))]
fn judged(context: &Context, right: bool) -> Outcome
    ensures { result ≡ judged right context.now.head context.now.session }
{
    let head = &context.head;
    let spent = State {
        tries: head.state.tries.saturating_sub(1),
        ..head.state
    };
    let session = context.session.flagged(right);
    if right {
        let full = head.with_tries(head.fixed.maxtries);
        return done(Commits::HotTwice(spent), full, session, Buffer::new());
    }
    Outcome {
        commits: Commits::Hot,
        ..refused(
            head.with_state(spent),
            session,
            u16::from(Refusal::NotAuthenticated),
        )
    }
}

// The PIN that was sent under the session key is judged where the card has one and a try is left.
#[tactic(auto, unfolding(commands_spec::specs::VerifyPin::verify_pin_of, commands_spec::specs::Outcomes::decided))]
pub fn verify_pin(context: &Context, body: [u8; 8]) -> Outcome
    ensures { result ≡ verify_pin_of context.now.head context.now.session body }
{
    let head = &context.head;
    let status = verify_status(
        head.purse.parameters.personalized,
        head.pin.defined,
        u8::from(context.access()),
        head.state.tries,
    );
    if let Err(refusal) = status {
        return context.refused(refusal);
    }
    let sent = received(context.engine, context.session.channel.enc, body);
    judged(context, sent == head.pin.block)
}
