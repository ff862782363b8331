// ECB and CBC over an area, in place: its whole blocks are replaced one after the other, the bytes after the last stay.
ghost use Rattle.std.specs.Prelude.{◌≡◌};
ghost use Rattle.des_spec.specs.Des.{encipher, decipher};
ghost use Rattle.des_spec.specs.Modes.{ecb_text, cbc_text, triple_des};
ghost use Rattle.des_spec.specs.Walk.{walk_text};
ghost use Rattle.tdes.specs.Turns.{mode, turned};

use super::blocks::xor_blocks;
use super::engine::Engine;
use super::rounds::{PlainKeys, QuickKeys, RoundKeys};
use super::triple::TripleKeys;
use octets::{part, paste};

// The modes. A value and no closure: the contract of `modes_agree` names it, and a closure over round keys would be one for each engine.
#[derive(Clone, Copy)]
pub enum Way {
    Ecb,
    CbcEncipher,
    CbcDecipher,
}

// What a block becomes, and the value that the next block comes after.
#[derive(Clone, Copy)]
pub struct Turned {
    pub put: [u8; 8],
    pub next: [u8; 8],
}

// A block after a value, under the round keys of a key.
fn turn<K: RoundKeys>(keys: &TripleKeys<K>, way: Way, value: [u8; 8], block: [u8; 8]) -> Turned
    ensures { result ≡ turned way (K.bits keys.now.outer) (K.bits keys.now.inner) value block }
{
    match way {
        Way::Ecb => Turned {
            put: keys.block(block),
            next: value,
        },
        Way::CbcEncipher => {
            let sum = keys.chained(value, block);
            Turned {
                put: sum,
                next: sum,
            }
        }
        Way::CbcDecipher => Turned {
            put: xor_blocks(keys.block(block), value),
            next: block,
        },
    }
}

// A walk over the whole blocks of a text, on one engine.
fn walk_under<K: RoundKeys>(
    way: Way,
    key: [u8; 16],
    decipher: bool,
    start: [u8; 8],
    text: &mut [u8],
)
    ensures { text.new ≡ walk_text (mode way (triple_des decipher key)) start text.old }
{
    let keys = TripleKeys::<K>::of(key, decipher);
    let mut value = start;
    // By index: of a slice written through `chunks_exact_mut` or `as_chunks_mut` the library's contracts say nothing afterwards.
    for i in 0..text.len() / 8 {
        let block = part(text, 8 * i);
        let turned = turn(&keys, way, value, block);
        paste(text, 8 * i, &turned.put);
        value = turned.next;
    }
}

// A walk over the whole blocks of a text.
fn walk(engine: Engine, way: Way, key: [u8; 16], decipher: bool, start: [u8; 8], text: &mut [u8])
    ensures { text.new ≡ walk_text (mode way (triple_des decipher key)) start text.old }
{
    match engine {
        Engine::Plain => walk_under::<PlainKeys>(way, key, decipher, start, text),
        Engine::Quick => walk_under::<QuickKeys>(way, key, decipher, start, text),
    }
}

// ECB in either direction.
pub fn ecb(engine: Engine, key: [u8; 16], decipher: bool, text: &mut [u8])
    ensures { text.new ≡ ecb_text decipher key text.old }
{
    walk(engine, Way::Ecb, key, decipher, [0; 8], text);
}

// CBC: each block is added to what the one before it became, and enciphered.
pub fn cbc_encipher(engine: Engine, key: [u8; 16], start: [u8; 8], text: &mut [u8])
    ensures { text.new ≡ cbc_text encipher key start text.old }
{
    walk(engine, Way::CbcEncipher, key, false, start, text);
}

// And back: each block is deciphered, and added to the one before it.
pub fn cbc_decipher(engine: Engine, key: [u8; 16], start: [u8; 8], text: &mut [u8])
    ensures { text.new ≡ cbc_text decipher key start text.old }
{
    walk(engine, Way::CbcDecipher, key, true, start, text);
}
