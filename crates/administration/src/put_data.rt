// PUT DATA: another value for a tag.
ghost use Rattle.std.specs.Prelude.{◌≡◌};
ghost use Rattle.apdu.specs.Refusals.{status_of};
ghost use Rattle.octets.specs.Words.{word_at};
ghost use Rattle.session.specs.Access.{access};
ghost use Rattle.commands_spec.specs.Data.{value_ok};
ghost use Rattle.commands_spec.specs.PutData.{locked, put_data_of, put_data_status, undercuts};

use crate::answer::granted;
use apdu::{Refusal, ensure};
use commands_spec::{Commits, Outcome};
use objects::{Context, datum_set, value_ok};
use octets::word_at;
use session::Access;

// What PUT DATA doesn't set.
#[tactic(auto, unfolding(commands_spec::specs::PutData::locked))]
fn locked(tag: u8, balance: u16) -> bool
    ensures { result ≡ locked tag balance }
{
    0x14 <= tag || tag == 0x01 || tag == 0x02 && 0 < balance
}

// A new maximum below what it bounds.
#[tactic(auto, unfolding(commands_spec::specs::PutData::undercuts))]
fn undercuts(tag: u8, value: u16, balance: u16, number: u16) -> bool
    ensures { result ≡ undercuts tag value balance number }
{
    match tag {
        0x03 => value < balance,
        0x05 => value < number,
        _ => false,
    }
}

// 01's rules in their order.
#[tactic(auto, unfolding(commands_spec::specs::PutData::put_data_status, commands_spec::specs::PutData::data_status))]
pub fn put_data_status(context: &Context, tag: u8, value: &[u8]) -> Result<(), Refusal>
    ensures { status_of result ≡ put_data_status context.now.head.purse.parameters.personalized tag
        (access context.now.session.channel.level) (value_ok tag value.now) (word_at value.now 0)
        context.now.head.purse.balance context.now.head.state.number }
{
    let purse = &context.head.purse;
    ensure(
        purse.parameters.personalized,
        Refusal::ConditionsNotSatisfied,
    )?;
    ensure(!locked(tag, purse.balance), Refusal::FeatureMissing)?;
    ensure(
        Access::Admin <= context.access(),
        Refusal::SecurityNotSatisfied,
    )?;
    ensure(value_ok(tag, value), Refusal::WrongData)?;
    let number = context.head.state.number;
    ensure(
        !undercuts(tag, word_at(value, 0), purse.balance, number),
        Refusal::WrongData,
    )
}

// Another value for a tag.
#[tactic(auto, unfolding(commands_spec::specs::PutData::put_data_of, commands_spec::specs::Outcomes::decided))]
pub fn put_data(context: &Context, tag: u8, value: &[u8]) -> Outcome
    ensures { result ≡ put_data_of context.now.head context.now.session tag value.now }
{
    if let Err(refusal) = put_data_status(context, tag, value) {
        return context.refused(refusal);
    }
    let next = datum_set(context.engine, context.dek(), tag, value, &context.head);
    granted(Commits::HotAndCold, next, context.session.ended())
}
