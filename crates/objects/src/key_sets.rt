// The key sets by their numbers, and the DEK of the channel's set.
ghost use Rattle.std.specs.Prelude.{◌≡◌};
ghost use Rattle.commands_spec.specs.KeySets.{dek_of, key_set_of, with_keys};

use card::{Head, KeySet, Keys, Purse, Shared};
use session::{Level, Set};

// A key set; one that is undefined is zero.
#[tactic(auto, unfolding(commands_spec::specs::KeySets::key_set_of))]
pub fn key_set_of(set: Set, head: &Head) -> KeySet
    ensures { result ≡ key_set_of set head.now }
{
    match set {
        Set::Debit => head.purse.debit,
        Set::Credit => head.purse.credit,
        Set::Admin => KeySet {
            defined: true,
            keys: head.shared.admin,
        },
    }
}

// New keys of a set, which is then defined.
#[tactic(auto, unfolding(commands_spec::specs::KeySets::with_keys, card::specs::Updates::with_purse))]
pub fn with_keys(set: Set, keys: Keys, head: &Head) -> Head
    ensures { result ≡ with_keys set keys head.now }
{
    let known = KeySet {
        defined: true,
        keys,
    };
    match set {
        Set::Debit => Head {
            purse: Purse {
                debit: known,
                ..head.purse
            },
            ..*head
        },
        Set::Credit => Head {
            purse: Purse {
                credit: known,
                ..head.purse
            },
            ..*head
        },
        Set::Admin => Head {
            shared: Shared {
                admin: keys,
                ..head.shared
            },
            ..*head
        },
    }
}

// The DEK of the set that opened the channel, as stored now.
#[tactic(auto, unfolding(commands_spec::specs::KeySets::dek_of, commands_spec::specs::KeySets::key_set_of))]
pub fn dek_of(level: Level, head: &Head) -> [u8; 16]
    ensures { result ≡ dek_of level head.now }
{
    match level {
        Level::Closed => [0; 16],
        Level::Mac(set) | Level::Rmac(set) => key_set_of(set, head).keys.dek,
    }
}
