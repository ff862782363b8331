// The fresh card's head, and the values that are undefined and zero. Their zeros are written out, not derived by Default: that derive tells its
// zeros array by array, and the proofs get longer than the values.
ghost use Rattle.std.specs.Prelude.{◌≡◌};
ghost use Rattle.card.specs.Card.{no_keys, no_key_set, no_parameters, no_purse, no_aid, no_fixed, fresh_head};

use crate::head::{Aid, Bank, Fixed, Head, KeySet, Keys, Parameters, Pin, Purse, Shared, State};

impl Keys {
    // Keys of zeros.
    pub fn none() -> Keys
        ensures { result ≡ no_keys }
    {
        Keys {
            enc: [0; 16],
            mac: [0; 16],
            dek: [0; 16],
        }
    }
}

impl KeySet {
    // An undefined key set.
    fn none() -> KeySet
        ensures { result ≡ no_key_set }
    {
        KeySet {
            defined: false,
            keys: Keys::none(),
        }
    }
}

impl Aid {
    // No AID.
    fn none() -> Aid
        ensures { result ≡ no_aid }
    {
        Aid {
            size: 0,
            bytes: [0; 16],
        }
    }
}

impl Parameters {
    // Parameters that are not set.
    fn none() -> Parameters
        ensures { result ≡ no_parameters }
    {
        Parameters {
            personalized: false,
            identifier: [0; 4],
            currency: 0,
            maxbalance: 0,
            maxdebit: 0,
            bank: Bank {
                defined: false,
                value: [0; 16],
            },
            agent: Aid::none(),
        }
    }
}

impl Purse {
    // A purse that is not personalized.
    fn fresh(aid: Aid) -> Purse
        ensures { result ≡ no_purse aid }
    {
        Purse {
            aid,
            parameters: Parameters::none(),
            debit: KeySet::none(),
            credit: KeySet::none(),
            balance: 0,
        }
    }
}

impl Head {
    // What installation makes of its data.
    #[tactic(auto, unfolding(crate::specs::Card::fresh_head))]
    pub fn fresh(fixed: Fixed, aid: Aid, admin: Keys) -> Head
        ensures { result ≡ fresh_head fixed aid admin }
    {
        Head {
            fixed,
            shared: Shared {
                maxnumber: 0,
                admin,
            },
            purse: Purse::fresh(aid),
            pin: Pin {
                defined: false,
                block: [0; 8],
            },
            state: State {
                number: 0,
                tries: fixed.maxtries,
            },
        }
    }

    // The head of no card: all is zero.
    pub fn none() -> Head
        ensures { result ≡ fresh_head no_fixed no_aid no_keys }
    {
        let fixed = Fixed {
            logsize: 0,
            maxtries: 0,
        };
        Head::fresh(fixed, Aid::none(), Keys::none())
    }
}
