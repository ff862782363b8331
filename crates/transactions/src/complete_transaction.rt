// COMPLETE TRANSACTION: balance, number and log move together.
ghost use Rattle.std.specs.Prelude.{Ok, ◌≡◌, ◌≤◌, length};
ghost use Rattle.apdu.specs.Refusals.{status_of};
ghost use Rattle.card.specs.declared.head.Head.{Head};
ghost use Rattle.commands_spec.specs.CompleteTransaction.{booked, complete_answer, complete_status, complete_transaction_of};
ghost use Rattle.commands_spec.specs.CompleteTransaction.{is_debit, is_noted, log_record};
ghost use Rattle.octets.specs.Buffers.{holding};
ghost use Rattle.session.specs.Codes.{amount_of};

use crate::answer::answer_mac;
use crate::sums::{log_amount, new_balance};
use apdu::{Refusal, ensure};
use card::{Head, Record, State};
use commands_spec::{Commits, Outcome};
use objects::{Context, done, operational};
use octets::Buffer;
use session::Pending;

// Whether a transaction's amount is noted.
#[tactic(auto, unfolding(commands_spec::specs::CompleteTransaction::is_noted))]
fn is_noted(pending: Pending) -> bool
    ensures { result ≡ is_noted pending }
{
    matches!(pending, Pending::Debiting(_) | Pending::Crediting(_))
}

// Whether it is a debit's.
#[tactic(auto, unfolding(commands_spec::specs::CompleteTransaction::is_debit))]
fn is_debit(pending: Pending) -> bool
    ensures { result ≡ is_debit pending }
{
    matches!(pending, Pending::Debiting(_))
}

// 01's rules in their order; where none refuses, the head after the transaction: a number one higher, and the new balance.
#[tactic(auto, unfolding(commands_spec::specs::CompleteTransaction::complete_status, commands_spec::specs::CompleteTransaction::booked))]
pub fn complete_status(context: &Context) -> Result<Head, Refusal>
    ensures word { status_of result ≡ complete_status context.now.head context.now.session }
    ensures head { (next : Head) → result ≡ Ok next
        → next ≡ booked (is_debit context.now.session.pending) (amount_of context.now.session.pending) context.now.head }
{
    let head = &context.head;
    let session = &context.session;
    let purse = &head.purse;
    ensure(
        purse.parameters.personalized,
        Refusal::ConditionsNotSatisfied,
    )?;
    ensure(is_noted(session.pending), Refusal::ConditionsNotSatisfied)?;
    ensure(
        session.channel.level.has_rmac(),
        Refusal::SecurityNotSatisfied,
    )?;
    ensure(
        head.state.number < head.shared.maxnumber,
        Refusal::ConditionsNotSatisfied,
    )?;
    let debit = is_debit(session.pending);
    let amount = session.pending.amount();
    let balance = new_balance(debit, amount, purse.balance, purse.parameters.maxbalance).ok_or(
        Refusal::ConditionsNotSatisfied,
    )?;
    let state = State {
        number: head.state.number + 1,
        ..head.state
    };
    Ok(head.with_balance(balance).with_state(state))
}

// Its log record, of the head afterwards, with the key set of the channel.
#[tactic(auto, unfolding(commands_spec::specs::CompleteTransaction::log_record))]
fn log_record(debit: bool, amount: u16, head: &Head, context: [u8; 16], keyset: u8) -> Record
    ensures { result ≡ log_record debit amount head.now context keyset }
{
    Record {
        number: head.state.number,
        currency: head.purse.parameters.currency,
        amount: log_amount(debit, amount),
        balance: head.purse.balance,
        context,
        keyset,
    }
}

// Identifier, number, operational status; an R-MAC fits after it.
#[tactic(auto, unfolding(commands_spec::specs::CompleteTransaction::complete_answer))]
fn complete_answer(head: &Head) -> Buffer
    ensures holds { result ≡ holding (complete_answer head.now) }
    ensures bound { length (complete_answer head.now) ≤ 118 }
{
    let mut answer = Buffer::of(&head.purse.parameters.identifier);
    answer.append(&head.state.number.to_be_bytes());
    answer.append(&operational(head));
    answer
}

// The amount that was noted is moved.
#[tactic(auto, unfolding(commands_spec::specs::CompleteTransaction::complete_transaction_of, commands_spec::specs::Outcomes::decided))]
pub fn complete_transaction(context: &Context, transaction: [u8; 16]) -> Outcome
    ensures { result ≡ complete_transaction_of context.now.head context.now.session transaction }
{
    let next = match complete_status(context) {
        Ok(next) => next,
        Err(refusal) => return context.refused(refusal),
    };
    let session = &context.session;
    let debit = is_debit(session.pending);
    let amount = session.pending.amount();
    let mut answer = complete_answer(&next);
    let mac = answer_mac(context, &answer);
    answer.append(&mac);
    let left = session.answered(Pending::Nothing, mac);
    let keyset = session.channel.level.opened_by();
    Outcome {
        logged: log_record(debit, amount, &next, transaction, keyset),
        ..done(Commits::HotAndRecord, next, left, answer)
    }
}
