// The sums of a transaction. None wraps: a balance past its limits is `None`. Direction and amount stay apart, as in the definitions.
ghost use Rattle.std.specs.Prelude.{◌≡◌, Some, None};
ghost use Rattle.octets.specs.Choice.{pick};
ghost use Rattle.commands_spec.specs.Transaction.{keeps_limits, log_amount, new_balance};

// The new balance, where it stays between zero and the maximum balance.
#[tactic(auto, unfolding(commands_spec::specs::Transaction::keeps_limits, commands_spec::specs::Transaction::new_balance))]
pub fn new_balance(debit: bool, amount: u16, balance: u16, maxbalance: u16) -> Option<u16>
    ensures { result ≡ pick (keeps_limits debit amount balance maxbalance) (Some (new_balance debit amount balance)) None }
{
    if debit {
        balance.checked_sub(amount)
    } else {
        balance.checked_add(amount).filter(|sum| *sum <= maxbalance)
    }
}

// The amount as the log has it, a debit's in two's complement.
#[tactic(auto, unfolding(commands_spec::specs::Transaction::log_amount))]
pub fn log_amount(debit: bool, amount: u16) -> u16
    ensures { result ≡ log_amount debit amount }
{
    if debit { amount.wrapping_neg() } else { amount }
}
