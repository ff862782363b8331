// A head with one of its parts replaced.
ghost use Rattle.std.specs.Prelude.{◌≡◌};
ghost use Rattle.card.specs.Updates.{with_balance, with_maxnumber, with_parameters, with_pin, with_purse, with_state, with_tries};

use crate::head::{Head, Parameters, Pin, Purse, Shared, State};

impl Head {
    // Another state.
    #[tactic(auto, unfolding(crate::specs::Updates::with_state))]
    pub fn with_state(self, state: State) -> Head
        ensures { result ≡ with_state state self }
    {
        Head { state, ..self }
    }

    // As many tries left.
    #[tactic(auto, unfolding(crate::specs::Updates::with_tries))]
    pub fn with_tries(self, tries: u8) -> Head
        ensures { result ≡ with_tries tries self }
    {
        self.with_state(State {
            tries,
            ..self.state
        })
    }

    // Another purse.
    #[tactic(auto, unfolding(crate::specs::Updates::with_purse))]
    pub fn with_purse(self, purse: Purse) -> Head
        ensures { result ≡ with_purse purse self }
    {
        Head { purse, ..self }
    }

    // Another balance.
    #[tactic(auto, unfolding(crate::specs::Updates::with_balance))]
    pub fn with_balance(self, balance: u16) -> Head
        ensures { result ≡ with_balance balance self }
    {
        self.with_purse(Purse {
            balance,
            ..self.purse
        })
    }

    // Other parameters.
    #[tactic(auto, unfolding(crate::specs::Updates::with_parameters))]
    pub fn with_parameters(self, parameters: Parameters) -> Head
        ensures { result ≡ with_parameters parameters self }
    {
        self.with_purse(Purse {
            parameters,
            ..self.purse
        })
    }

    // Another maximum transaction number, tag 05.
    #[tactic(auto, unfolding(crate::specs::Updates::with_maxnumber))]
    pub fn with_maxnumber(self, maxnumber: u16) -> Head
        ensures { result ≡ with_maxnumber maxnumber self }
    {
        Head {
            shared: Shared {
                maxnumber,
                ..self.shared
            },
            ..self
        }
    }

    // A PIN, with tries full.
    #[tactic(auto, unfolding(crate::specs::Updates::with_pin))]
    pub fn with_pin(self, block: [u8; 8]) -> Head
        ensures { result ≡ with_pin block self }
    {
        Head {
            pin: Pin {
                defined: true,
                block,
            },
            state: State {
                tries: self.fixed.maxtries,
                ..self.state
            },
            ..self
        }
    }
}
