// Whether a head is one of a proper card: a line for each test.
ghost use Rattle.std.specs.Prelude.{◌≡◌, ◌||◌, drop};
ghost use Rattle.octets.specs.Tests.{all_true};
ghost use Rattle.octets.specs.Bytes.{all_zero};
ghost use Rattle.card.specs.Proper.{fixed_tests, aid_ok, keys_ok, bank_ok, agent_ok, unset, parameter_tests, purse_tests, pin_ok, state_tests, proper_tests};

use crate::head::{Aid, Bank, Fixed, Head, KeySet, Parameters, Pin, Purse};
use crate::pin::well_formed;
use octets::all_zero;

impl Fixed {
    // Log size and tries.
    #[tactic(auto, unfolding(crate::specs::Proper::fixed_tests))]
    fn is_proper(&self) -> bool
        ensures { result ≡ all_true (fixed_tests self.now) }
    {
        (1..=50).contains(&self.logsize) && (3..=15).contains(&self.maxtries)
    }
}

impl Aid {
    // Whether all bytes after its size are zero.
    fn ends_in_zeros(&self) -> bool
        ensures { result ≡ all_zero (drop self.now.size self.now.bytes) }
    {
        self.bytes.iter().skip(self.size as usize).all(|x| *x == 0)
    }

    // 5 to 16 bytes.
    #[tactic(auto, unfolding(crate::specs::Proper::aid_ok))]
    fn is_proper(&self) -> bool
        ensures { result ≡ aid_ok self.now }
    {
        (5..=16).contains(&self.size) && self.ends_in_zeros()
    }

    // Tag 07: 5 to 16 bytes, or none.
    #[tactic(auto, unfolding(crate::specs::Proper::agent_ok))]
    fn is_proper_agent(&self) -> bool
        ensures { result ≡ agent_ok self.now }
    {
        (self.size == 0 || 5 <= self.size) && self.size <= 16 && self.ends_in_zeros()
    }
}

impl KeySet {
    // An undefined key set is zero.
    #[tactic(auto, unfolding(crate::specs::Proper::keys_ok))]
    fn is_proper(&self) -> bool
        ensures { result ≡ keys_ok self.now }
    {
        self.defined
            || all_zero(&self.keys.enc) && all_zero(&self.keys.mac) && all_zero(&self.keys.dek)
    }
}

impl Bank {
    // Tag 06.
    #[tactic(auto, unfolding(crate::specs::Proper::bank_ok))]
    fn is_proper(&self) -> bool
        ensures { result ≡ bank_ok self.now }
    {
        self.defined || all_zero(&self.value)
    }
}

impl Parameters {
    // Parameters that are not set are zero.
    #[tactic(auto, unfolding(crate::specs::Proper::unset))]
    fn are_unset(&self) -> bool
        ensures { result ≡ unset self.now }
    {
        all_zero(&self.identifier)
            && self.currency == 0
            && self.maxbalance == 0
            && self.maxdebit == 0
            && !self.bank.defined
            && self.agent.size == 0
    }

    // Tags 01 to 04, 06 and 07, which are zero until the purse is personalized.
    #[tactic(auto, unfolding(crate::specs::Proper::parameter_tests))]
    fn are_proper(&self) -> bool
        ensures { result ≡ all_true (parameter_tests self.now) }
    {
        self.maxbalance <= 32767
            && self.maxdebit <= 32767
            && self.bank.is_proper()
            && self.agent.is_proper_agent()
            && (self.personalized || self.are_unset())
    }
}

impl Purse {
    // AID, parameters, key sets 1 and 2, tag 15.
    #[tactic(auto, unfolding(crate::specs::Proper::purse_tests))]
    fn is_proper(&self) -> bool
        ensures { result ≡ all_true (purse_tests self.now) }
    {
        self.aid.is_proper()
            && self.parameters.are_proper()
            && self.debit.is_proper()
            && self.credit.is_proper()
            && (!self.parameters.personalized || self.debit.defined && self.credit.defined)
            && self.balance <= self.parameters.maxbalance
    }
}

impl Pin {
    // The PIN.
    #[tactic(auto, unfolding(crate::specs::Proper::pin_ok))]
    fn is_proper(&self) -> bool
        ensures { result ≡ pin_ok self.now }
    {
        if self.defined {
            well_formed(self.block)
        } else {
            all_zero(&self.block)
        }
    }
}

impl Head {
    // Tags 05, 14 and 16.
    #[tactic(auto, unfolding(crate::specs::Proper::state_tests))]
    fn has_proper_state(&self) -> bool
        ensures { result ≡ all_true (state_tests self.now) }
    {
        self.state.tries <= self.fixed.maxtries
            && self.state.number <= self.shared.maxnumber
            && (self.purse.parameters.personalized || self.shared.maxnumber == 0)
    }

    // All of these.
    #[tactic(auto, unfolding(crate::specs::Proper::proper_tests))]
    pub fn is_proper(&self) -> bool
        ensures { result ≡ all_true (proper_tests self.now) }
    {
        self.fixed.is_proper()
            && self.purse.is_proper()
            && self.pin.is_proper()
            && self.has_proper_state()
    }
}
