// STORE DATA: a list of tag, length, value, which personalizes the card.
ghost use Rattle.std.specs.Prelude.{◌≡◌, length, true};
ghost use Rattle.apdu.specs.Refusals.{status_of};
ghost use Rattle.commands_spec.specs.StoreData.{acceptable, complete, personalized, store_data_of, store_status};
ghost use Rattle.commands_spec.specs.StoreData.{stored, stored_all, unread, within};

use crate::answer::granted;
use apdu::{Refusal, ensure};
use card::{Head, Parameters};
use commands_spec::store::Stored;
use commands_spec::{Commits, Outcome};
use objects::{Context, datum_set, value_ok};
use session::Access;
use tdes::Engine;

// Whether every TLV ends within the data.
#[tactic(auto, using(crate::proofs::Walking::within_next), unfolding(commands_spec::specs::StoreData::within))]
pub fn within(s: &[u8]) -> bool
    ensures { result ≡ within (length s.now) s.now }
{
    let mut rest = s;
    while let [_, size, tail @ ..] = rest {
        let size = usize::from(*size);
        if tail.len() < size {
            return false;
        }
        rest = &tail[size..];
    }
    rest.is_empty()
}

// A tag of 01 to 07 that hasn't come before, with a value of its length and range.
#[tactic(auto, unfolding(commands_spec::specs::StoreData::acceptable))]
fn acceptable(seen: &[u8; 8], tag: u8, v: &[u8]) -> bool
    ensures { result ≡ acceptable seen.now tag v.now }
{
    matches!(tag, 0x01..=0x07) && seen[usize::from(tag)] == 0 && value_ok(tag, v)
}

// One TLV more.
#[tactic(auto, using(crate::proofs::Walking::accepted_below), unfolding(commands_spec::specs::StoreData::stored, commands_spec::specs::StoreData::rejected))]
pub fn stored(engine: Engine, dek: [u8; 16], mut st: Stored, tag: u8, v: &[u8]) -> Stored
    ensures { result ≡ stored dek st tag v.now }
{
    if acceptable(&st.seen, tag, v) {
        st.seen[usize::from(tag)] = 1;
        st.head = datum_set(engine, dek, tag, v, &st.head);
    } else {
        st.good = false;
    }
    st
}

// All TLVs, one after the other.
#[tactic(auto, using(crate::proofs::Walking::stored_next, crate::proofs::Walking::stored_end))]
pub fn stored_all(engine: Engine, dek: [u8; 16], s: &[u8], head: Head) -> Stored
    ensures { result ≡ stored_all (length s.now) dek s.now (unread head) }
{
    let mut st = Stored {
        good: true,
        seen: [0; 8],
        head,
    };
    let mut rest = s;
    while let [tag, size, tail @ ..] = rest {
        let end = tail.len().min(usize::from(*size));
        st = stored(engine, dek, st, *tag, &tail[..end]);
        rest = &tail[end..];
    }
    st
}

// Whether tags 01 to 05 have come.
#[tactic(auto, unfolding(commands_spec::specs::StoreData::complete))]
pub fn complete(seen: &[u8; 8]) -> bool
    ensures { result ≡ complete seen.now }
{
    matches!(seen, [_, 1, 1, 1, 1, 1, ..])
}

// The card is personalized.
#[tactic(auto, unfolding(commands_spec::specs::StoreData::personalized))]
pub fn personalized(head: &Head) -> Head
    ensures { result ≡ personalized head.now }
{
    head.with_parameters(Parameters {
        personalized: true,
        ..head.purse.parameters
    })
}

// 01's rules in their order; `inside` says that no TLV is past the end, `good` that the rest of the data is right. Five values and no
// `Context`, and access as a number: the definition answers for every five.
#[tactic(auto, unfolding(commands_spec::specs::StoreData::store_status))]
pub fn store_status(
    personalized: bool,
    keyed: bool,
    held: u8,
    inside: bool,
    good: bool,
) -> Result<(), Refusal>
    ensures { status_of result ≡ store_status personalized keyed held inside good }
{
    ensure(!personalized && keyed, Refusal::ConditionsNotSatisfied)?;
    ensure(
        u8::from(Access::Admin) <= held,
        Refusal::SecurityNotSatisfied,
    )?;
    ensure(inside, Refusal::DataPastEnd)?;
    ensure(good, Refusal::WrongData)
}

// The data that personalizes the card.
#[tactic(auto, using(crate::proofs::Early::refused_early, crate::proofs::Early::passed_early), unfolding(commands_spec::specs::StoreData::store_data_of))]
pub fn store_data(context: &Context, body: &[u8]) -> Outcome
    ensures { result ≡ store_data_of context.now.head context.now.session body.now }
{
    let purse = &context.head.purse;
    // No value is read before the other rules let the data pass.
    let status = store_status(
        purse.parameters.personalized,
        purse.debit.defined && purse.credit.defined,
        u8::from(context.access()),
        within(body),
        true,
    );
    if let Err(refusal) = status {
        return context.refused(refusal);
    }
    let st = stored_all(context.engine, context.dek(), body, context.head);
    if !(st.good && complete(&st.seen)) {
        return context.refused(Refusal::WrongData);
    }
    granted(
        Commits::HotAndCold,
        personalized(&st.head),
        context.session.ended(),
    )
}
