// What a channel gives access to.
ghost use Rattle.std.specs.Prelude.{◌≡◌};
ghost use Rattle.session.specs.Access.{rank, access_of, access, is_open, has_rmac};

use crate::{Level, Set};

// The access levels, each including those before it.
#[derive(Clone, Copy, Debug, PartialEq, Eq, PartialOrd, Ord)]
pub enum Access {
    Public,
    Debit,
    Credit,
    Admin,
}

// The number of a level.
impl From<Access> for u8 {
    ghost from_gives = { λ access n. n ≡ rank access };

    fn from(access: Access) -> u8 {
        access as u8
    }
}

impl Set {
    // What a key set gives.
    #[tactic(auto, unfolding(crate::specs::Access::access_of))]
    pub fn access(self) -> Access
        ensures { rank result ≡ access_of self }
    {
        match self {
            Set::Debit => Access::Debit,
            Set::Credit => Access::Credit,
            Set::Admin => Access::Admin,
        }
    }
}

impl Level {
    // What a channel gives.
    #[tactic(auto, unfolding(crate::specs::Access::access))]
    pub fn access(self) -> Access
        ensures { rank result ≡ access self }
    {
        match self {
            Level::Closed => Access::Public,
            Level::Mac(set) | Level::Rmac(set) => set.access(),
        }
    }

    // Whether there is a channel.
    #[tactic(auto, unfolding(crate::specs::Access::is_open))]
    pub fn is_open(self) -> bool
        ensures { result ≡ is_open self }
    {
        !matches!(self, Level::Closed)
    }

    // Whether its answers carry an R-MAC.
    #[tactic(auto, unfolding(crate::specs::Access::has_rmac))]
    pub fn has_rmac(self) -> bool
        ensures { result ≡ has_rmac self }
    {
        matches!(self, Level::Rmac(_))
    }
}
