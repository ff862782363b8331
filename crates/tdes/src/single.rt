// Single DES: a block, and the whole blocks of an area in place, under one key or under a key each.
ghost use Rattle.std.specs.Prelude.{◌≡◌};
ghost use Rattle.des_spec.specs.Des.{des};
ghost use Rattle.tdes.specs.Single.{des_text, des_each};

use super::engine::Engine;
use super::rounds::{PlainKeys, QuickKeys, RoundKeys};
use octets::{part, paste};

// A block under a key.
pub fn des_block(engine: Engine, key: [u8; 8], decipher: bool, block: [u8; 8]) -> [u8; 8]
    ensures { result ≡ des decipher key block }
{
    match engine {
        Engine::Plain => des::des_block(key, decipher, block),
        Engine::Quick => quick::des_block(key, decipher, block),
    }
}

// ECB on one engine.
fn ecb_under<K: RoundKeys>(key: [u8; 8], decipher: bool, text: &mut [u8])
    ensures { text.new ≡ des_text decipher key text.old }
{
    let keys = K::of(key, decipher);
    // By index, as in `walk_under`.
    for i in 0..text.len() / 8 {
        let put = keys.block_under(part(text, 8 * i));
        paste(text, 8 * i, &put);
    }
}

// ECB in either direction.
pub fn des_ecb(engine: Engine, key: [u8; 8], decipher: bool, text: &mut [u8])
    ensures { text.new ≡ des_text decipher key text.old }
{
    match engine {
        Engine::Plain => ecb_under::<PlainKeys>(key, decipher, text),
        Engine::Quick => ecb_under::<QuickKeys>(key, decipher, text),
    }
}

// The blocks, each under its own eight bytes of `keys`, on one engine.
fn each_under<K: RoundKeys>(keys: &[u8], decipher: bool, text: &mut [u8])
    ensures { text.new ≡ des_each decipher keys.now text.old }
{
    // By index, as in `walk_under`.
    for i in 0..text.len() / 8 {
        let put = K::of(part(keys, 8 * i), decipher).block_under(part(text, 8 * i));
        paste(text, 8 * i, &put);
    }
}

// The blocks, each under its own eight bytes of `keys`; past the end of `keys` all is zero.
pub fn des_each(engine: Engine, keys: &[u8], decipher: bool, text: &mut [u8])
    ensures { text.new ≡ des_each decipher keys.now text.old }
{
    match engine {
        Engine::Plain => each_under::<PlainKeys>(keys, decipher, text),
        Engine::Quick => each_under::<QuickKeys>(keys, decipher, text),
    }
}
