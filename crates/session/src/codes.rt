// The numbers of key sets, levels and what is pending.
ghost use Rattle.std.specs.Prelude.{◌≡◌};
ghost use Rattle.session.specs.Codes.{set_number, set_of, opened_by, level_number, level_of, pending_number, amount_of, pending_of};

use crate::{Level, Pending, Set};

// The number of a key set.
impl From<Set> for u8 {
    ghost from_gives = { λ set n. n ≡ set_number set };

    #[tactic(auto, unfolding(crate::specs::Codes::set_number))]
    fn from(set: Set) -> u8 {
        set as u8
    }
}

// The key set of a number; the third for any but 1 and 2.
impl From<u8> for Set {
    ghost from_gives = { λ n set. set ≡ set_of n };

    #[tactic(auto, unfolding(crate::specs::Codes::set_of))]
    fn from(n: u8) -> Set {
        match n {
            1 => Set::Debit,
            2 => Set::Credit,
            _ => Set::Admin,
        }
    }
}

impl Level {
    // The number of the key set that opened a channel, 0 where there is none.
    #[tactic(auto, unfolding(crate::specs::Codes::opened_by))]
    pub fn opened_by(self) -> u8
        ensures { result ≡ opened_by self }
    {
        match self {
            Level::Closed => 0,
            Level::Mac(set) | Level::Rmac(set) => u8::from(set),
        }
    }

    // The number of a channel's level and key set.
    #[tactic(auto, unfolding(crate::specs::Codes::level_number, crate::specs::Codes::set_number))]
    pub(crate) fn number(self) -> u8
        ensures { result ≡ level_number self }
    {
        match self {
            Level::Closed => 0x00,
            Level::Mac(set) => u8::from(set),
            Level::Rmac(set) => 0x10 + u8::from(set),
        }
    }

    // The level and key set of a number. No `From`: it serves the packing alone.
    #[tactic(auto, unfolding(crate::specs::Codes::level_of))]
    pub(crate) fn of(n: u8) -> Level
        ensures { result ≡ level_of n }
    {
        match n {
            0x00 => Level::Closed,
            0x01..=0x0F => Level::Mac(Set::from(n)),
            _ => Level::Rmac(Set::from(n - 0x10)),
        }
    }
}

impl Pending {
    // The number of what is pending.
    #[tactic(auto, unfolding(crate::specs::Codes::pending_number))]
    pub(crate) fn number(self) -> u8
        ensures { result ≡ pending_number self }
    {
        match self {
            Pending::Nothing => 0,
            Pending::Update(set) => u8::from(set),
            Pending::Debiting(_) => 4,
            Pending::Crediting(_) => 5,
        }
    }

    // The amount that is pending, 0 where none is.
    #[tactic(auto, unfolding(crate::specs::Codes::amount_of))]
    pub fn amount(self) -> u16
        ensures { result ≡ amount_of self }
    {
        match self {
            Pending::Nothing | Pending::Update(_) => 0,
            Pending::Debiting(amount) | Pending::Crediting(amount) => amount,
        }
    }

    // What is pending, by its number and amount: two values, so no `From`.
    #[tactic(auto, unfolding(crate::specs::Codes::pending_of))]
    pub(crate) fn of(n: u8, amount: u16) -> Pending
        ensures { result ≡ pending_of n amount }
    {
        match n {
            0 => Pending::Nothing,
            1..=3 => Pending::Update(Set::from(n)),
            4 => Pending::Debiting(amount),
            _ => Pending::Crediting(amount),
        }
    }
}
