// The two engines agree. Each function here computes on both, and its contract says that the two results are the same, and what they are.
ghost use Rattle.std.specs.Prelude.{◌≡◌};
ghost use Rattle.des_spec.specs.Des.{des};
ghost use Rattle.des_spec.specs.Modes.{triple_des, signature};
ghost use Rattle.tdes.specs.Turns.{mode_text};

use super::engine::Engine;
use super::modes::{Way, cbc_decipher, cbc_encipher, ecb};
use super::signing::signature;
use super::single::des_block;
use super::triple::triple_block;

// A result of each engine.
#[derive(Clone, Copy)]
pub struct Both {
    pub plain: [u8; 8],
    pub quick: [u8; 8],
}

// DES, on every key and block, in both directions.
pub fn des_agrees(key: [u8; 8], decipher: bool, block: [u8; 8]) -> Both
    ensures { (result.plain ≡ result.quick) × (result.plain ≡ des decipher key block) }
{
    Both {
        plain: des_block(Engine::Plain, key, decipher, block),
        quick: des_block(Engine::Quick, key, decipher, block),
    }
}

// Triple DES, on every key and block, in both directions.
pub fn triple_agrees(key: [u8; 16], decipher: bool, block: [u8; 8]) -> Both
    ensures { (result.plain ≡ result.quick) × (result.plain ≡ triple_des decipher key block) }
{
    Both {
        plain: triple_block(Engine::Plain, key, decipher, block),
        quick: triple_block(Engine::Quick, key, decipher, block),
    }
}

// A text in a mode; the direction is for ECB.
fn in_mode(engine: Engine, way: Way, key: [u8; 16], decipher: bool, start: [u8; 8], text: &mut [u8])
    ensures { text.new ≡ mode_text way decipher key start text.old }
{
    match way {
        Way::Ecb => ecb(engine, key, decipher, text),
        Way::CbcEncipher => cbc_encipher(engine, key, start, text),
        Way::CbcDecipher => cbc_decipher(engine, key, start, text),
    }
}

// ECB and CBC, on every key, start value and text: what each engine makes of its area is the mode's text, so areas that held the same
// hold the same.
pub fn modes_agree(
    way: Way,
    key: [u8; 16],
    decipher: bool,
    start: [u8; 8],
    plain: &mut [u8],
    quick: &mut [u8],
)
    ensures { (plain.old ≡ quick.old → plain.new ≡ quick.new)
        × ((plain.new ≡ mode_text way decipher key start plain.old)
        × (quick.new ≡ mode_text way decipher key start quick.old)) }
{
    in_mode(Engine::Plain, way, key, decipher, start, plain);
    in_mode(Engine::Quick, way, key, decipher, start, quick);
}

// Signatures, on every key, start value and text.
pub fn signatures_agree(key: [u8; 16], start: [u8; 8], text: &[u8]) -> Both
    ensures { (result.plain ≡ result.quick) × (result.plain ≡ signature key start text.now) }
{
    Both {
        plain: signature(Engine::Plain, key, start, text),
        quick: signature(Engine::Quick, key, start, text),
    }
}
