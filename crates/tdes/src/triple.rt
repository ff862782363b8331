// Triple DES: the round keys of a key, and a block under them.
ghost use Rattle.std.specs.Prelude.{◌≡◌, not, take, drop};
ghost use Rattle.des_spec.specs.Bits.{xor_bytes};
ghost use Rattle.des_spec.specs.Des.{round_keys};
ghost use Rattle.des_spec.specs.Modes.{triple_des};
ghost use Rattle.tdes.specs.Turns.{triple_under};

use super::blocks::xor_blocks;
use super::engine::Engine;
use super::rounds::{PlainKeys, QuickKeys, RoundKeys};
use octets::part;

// The round keys of a key: the outer ones, of its first half, and the inner ones, of its second half for the other direction.
#[derive(Drop)]
pub struct TripleKeys<K> {
    pub outer: K,
    pub inner: K,
}

impl<K: RoundKeys> TripleKeys<K> {
    // Of a key.
    pub fn of(key: [u8; 16], decipher: bool) -> TripleKeys<K>
        ensures outer { K.bits result.outer ≡ round_keys decipher (take 8 key) }
        ensures inner { K.bits result.inner ≡ round_keys (not decipher) (drop 8 key) }
    {
        TripleKeys {
            outer: K::of(part(&key, 0), decipher),
            inner: K::of(part(&key, 8), !decipher),
        }
    }

    // A block under them.
    pub fn block(&self, block: [u8; 8]) -> [u8; 8]
        ensures { result ≡ triple_under (K.bits self.now.outer) (K.bits self.now.inner) block }
    {
        self.outer.triple_under(&self.inner, block)
    }

    // A block of CBC: added to the value before it, and enciphered.
    pub fn chained(&self, value: [u8; 8], block: [u8; 8]) -> [u8; 8]
        ensures { result ≡ triple_under (K.bits self.now.outer) (K.bits self.now.inner) (xor_bytes block value) }
    {
        self.block(xor_blocks(block, value))
    }
}

// A block under a key, on one engine.
fn block_under_key<K: RoundKeys>(key: [u8; 16], decipher: bool, block: [u8; 8]) -> [u8; 8]
    ensures { result ≡ triple_des decipher key block }
{
    TripleKeys::<K>::of(key, decipher).block(block)
}

// A block under a key.
pub fn triple_block(engine: Engine, key: [u8; 16], decipher: bool, block: [u8; 8]) -> [u8; 8]
    ensures { result ≡ triple_des decipher key block }
{
    match engine {
        Engine::Plain => block_under_key::<PlainKeys>(key, decipher, block),
        Engine::Quick => block_under_key::<QuickKeys>(key, decipher, block),
    }
}
