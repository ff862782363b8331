// Three keys from their 48 bytes, and their parity.
ghost use Rattle.std.specs.Prelude.{◌≡◌};
ghost use Rattle.card.specs.Keys.{keys_in, odd_parity, odd_keys, Takes};

use crate::head::Keys;

// How many bytes three keys have.
pub const KEYS_SIZE: usize = 48;

// Whether each byte has an odd number of ones.
fn odd_parity(s: &[u8]) -> bool
    ensures { result ≡ odd_parity s.now }
{
    s.iter().all(|b| u8::count_ones(*b) % 2 == 1)
}

impl Keys {
    // S-ENC, S-MAC and DEK of the bytes.
    #[tactic(auto, unfolding(crate::specs::Keys::keys_in))]
    pub fn from_bytes(s: &[u8]) -> Keys
        ensures { result ≡ keys_in s.now }
    {
        Keys {
            enc: octets::part(s, 0),
            mac: octets::part(s, 16),
            dek: octets::part(s, 32),
        }
    }

    // Whether each byte of the three has an odd number of ones.
    #[tactic(auto, using(crate::proofs::Parity::keys_split))]
    pub fn are_odd(&self) -> bool
        ensures { result ≡ odd_keys self.now }
    {
        odd_parity(&self.enc) && odd_parity(&self.mac) && odd_parity(&self.dek)
    }
}

// The three keys of 48 bytes that a command or an installation brings: whoever holds what is accepted holds keys of odd parity.
pub fn take_keys(s: &[u8]) -> Option<Keys>
    ensures { Takes s.now result }
{
    let keys = Keys::from_bytes(s);
    if keys.are_odd() { Some(keys) } else { None }
}
