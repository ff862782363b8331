// INITIALIZE TRANSACTION: may this amount be moved? Nothing in memory changes.
ghost use Rattle.std.specs.Prelude.{◌≡◌, not, ◌&&◌, ◌||◌, ◌+◌, ◌≤◌, ltb, length};
ghost use Rattle.apdu.specs.Refusals.{status_of};
ghost use Rattle.commands_spec.specs.InitializeTransaction.{entitled, initialize_answer, initialize_status, initialize_transaction_of};
ghost use Rattle.commands_spec.specs.InitializeTransaction.{lacks, noted};
ghost use Rattle.commands_spec.specs.Transaction.{not_above_zero};
ghost use Rattle.octets.specs.Buffers.{holding};

use crate::answer::answer_mac;
use apdu::{Refusal, ensure};
use channel::bank_sent;
use commands_spec::{Commits, Outcome};
use objects::{Context, done};
use octets::{Buffer, word_at};
use session::{Access, Pending};

// A bank credit wants bank information and a PIN. P1 is 01's number and no enum, here and below: the definitions answer for every number.
#[tactic(auto, unfolding(commands_spec::specs::InitializeTransaction::lacks))]
pub fn lacks(p1: u8, bank: bool, pin: bool) -> bool
    ensures { result ≡ lacks p1 bank pin }
{
    p1 == 0x02 && !(bank && pin)
}

// Access and PIN flag are enough for P1. Access is a number too: the definition answers for every one.
#[tactic(auto, unfolding(commands_spec::specs::InitializeTransaction::entitled))]
pub fn entitled(p1: u8, held: u8, flag: bool) -> bool
    ensures { result ≡ entitled p1 held flag }
{
    match p1 {
        0x00 => u8::from(Access::Debit) <= held,
        0x01 => u8::from(Access::Credit) <= held,
        _ => flag && u8::from(Access::Credit) <= held,
    }
}

// An amount that is 0000, or negative.
#[tactic(auto, unfolding(commands_spec::specs::Transaction::not_above_zero))]
fn not_above_zero(amount: u16) -> bool
    ensures { result ≡ not_above_zero amount }
{
    amount == 0x0000 || 0x8000 <= amount
}

// A debit above the maximum debit or the balance.
fn overdraws(debit: bool, amount: u16, balance: u16, maxdebit: u16) -> bool
    ensures { result ≡ (debit && (ltb maxdebit amount || ltb balance amount)) }
{
    debit && (maxdebit < amount || balance < amount)
}

// A credit that would pass the maximum balance. The sum is made wide and not by `checked_add`: the edit sum_of_sixteen_bits is about it.
fn overfills(debit: bool, amount: u16, balance: u16, maxbalance: u16) -> bool
    ensures { result ≡ (not debit && ltb maxbalance (balance + amount)) }
{
    !debit && u32::from(maxbalance) < u32::from(balance) + u32::from(amount)
}

// 01's rules in their order.
#[tactic(auto, unfolding(commands_spec::specs::InitializeTransaction::initialize_status))]
pub fn initialize_status(
    context: &Context,
    p1: u8,
    currency: u16,
    amount: u16,
) -> Result<(), Refusal>
    ensures { status_of result ≡ initialize_status context.now.head context.now.session p1 currency amount }
{
    let head = &context.head;
    let session = &context.session;
    let balance = head.purse.balance;
    let parameters = &head.purse.parameters;
    let debit = p1 == 0x00;
    ensure(parameters.personalized, Refusal::ConditionsNotSatisfied)?;
    ensure(
        !lacks(p1, parameters.bank.defined, head.pin.defined),
        Refusal::FeatureMissing,
    )?;
    ensure(
        entitled(p1, u8::from(context.access()), session.verified),
        Refusal::SecurityNotSatisfied,
    )?;
    ensure(
        session.channel.level.has_rmac(),
        Refusal::SecurityNotSatisfied,
    )?;
    ensure(
        head.state.number < head.shared.maxnumber,
        Refusal::NumberAtMaximum,
    )?;
    ensure(currency == parameters.currency, Refusal::WrongCurrency)?;
    ensure(!not_above_zero(amount), Refusal::AmountNotAboveZero)?;
    ensure(
        !overdraws(debit, amount, balance, parameters.maxdebit),
        Refusal::DebitAboveLimit,
    )?;
    ensure(
        !overfills(debit, amount, balance, parameters.maxbalance),
        Refusal::CreditAboveLimit,
    )
}

// Identifier, and bank information where P1 is 02; an R-MAC fits after it.
#[tactic(auto, unfolding(commands_spec::specs::InitializeTransaction::initialize_answer))]
fn initialize_answer(context: &Context, p1: u8) -> Buffer
    ensures holds { result ≡ holding (initialize_answer context.now.head context.now.session p1) }
    ensures bound { length (initialize_answer context.now.head context.now.session p1) ≤ 118 }
{
    let parameters = &context.head.purse.parameters;
    let mut answer = Buffer::of(&parameters.identifier);
    if p1 == 0x02 {
        answer.append(&bank_sent(context.engine, context.dek(), parameters.bank.value));
    }
    answer
}

// The amount is noted, a debit's or a credit's.
#[tactic(auto, unfolding(commands_spec::specs::InitializeTransaction::noted))]
fn noted(p1: u8, amount: u16) -> Pending
    ensures { result ≡ noted p1 amount }
{
    match p1 {
        0x00 => Pending::Debiting(amount),
        _ => Pending::Crediting(amount),
    }
}

// Where the amount may be moved it is noted, and the answer carries an R-MAC.
#[tactic(auto, unfolding(commands_spec::specs::InitializeTransaction::initialize_transaction_of, commands_spec::specs::Outcomes::decided))]
pub fn initialize_transaction(context: &Context, p1: u8, body: [u8; 4]) -> Outcome
    ensures { result ≡ initialize_transaction_of context.now.head context.now.session p1 body }
{
    let amount = word_at(&body, 2);
    if let Err(refusal) = initialize_status(context, p1, word_at(&body, 0), amount) {
        return context.refused(refusal);
    }
    let mut answer = initialize_answer(context, p1);
    let mac = answer_mac(context, &answer);
    answer.append(&mac);
    let session = context.session.answered(noted(p1, amount), mac);
    done(Commits::Unchanged, context.head, session, answer)
}
