// Administrative and operational status.
ghost use Rattle.std.specs.Prelude.{◌≡◌, ◌≤◌};
ghost use Rattle.octets.specs.Choice.{pick};
ghost use Rattle.commands_spec.specs.Status.{administrative, operational};

use card::Head;

// A status bit.
fn bit(on: bool, value: u8) -> u8
    ensures value { result ≡ pick on value 0 }
    ensures bound { result ≤ value }
{
    if on { value } else { 0 }
}

// 10 personalized, 20 bank information and PIN both defined, 40 agent defined, 80 PIN validated.
#[tactic(auto, unfolding(commands_spec::specs::Status::administrative))]
pub fn administrative(head: &Head, verified: bool) -> u8
    ensures { result ≡ administrative head.now verified }
{
    let parameters = &head.purse.parameters;
    bit(parameters.personalized, 0x10)
        + bit(parameters.bank.defined && head.pin.defined, 0x20)
        + bit(parameters.agent.size != 0, 0x40)
        + bit(verified, 0x80)
}

// Remaining transactions, currency, balance, allowed debit, allowed credit.
#[tactic(auto, unfolding(commands_spec::specs::Status::operational))]
pub fn operational(head: &Head) -> [u8; 10]
    ensures { result ≡ operational head.now }
{
    let purse = &head.purse;
    let parameters = &purse.parameters;
    let left = head
        .shared
        .maxnumber
        .saturating_sub(head.state.number)
        .to_be_bytes();
    let currency = parameters.currency.to_be_bytes();
    let balance = purse.balance.to_be_bytes();
    let debit = purse.balance.min(parameters.maxdebit).to_be_bytes();
    let credit = parameters
        .maxbalance
        .saturating_sub(purse.balance)
        .to_be_bytes();
    [
        left[0],
        left[1],
        currency[0],
        currency[1],
        balance[0],
        balance[1],
        debit[0],
        debit[1],
        credit[0],
        credit[1],
    ]
}
