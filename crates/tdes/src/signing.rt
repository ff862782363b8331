// Signatures: the last block of CBC over a padded text. Only the value of the chain is kept.
ghost use Rattle.std.specs.Prelude.{◌≡◌};
ghost use Rattle.des_spec.specs.Modes.{signature};

use super::blocks::padded_block;
use super::engine::Engine;
use super::rounds::{PlainKeys, QuickKeys, RoundKeys};
use super::triple::TripleKeys;
use octets::part;

// The signature on one engine; the last block is what is left of the text, padded.
fn signature_under<K: RoundKeys>(key: [u8; 16], start: [u8; 8], text: &[u8]) -> [u8; 8]
    ensures { result ≡ signature key start text.now }
{
    let keys = TripleKeys::<K>::of(key, false);
    let whole = text.len() / 8;
    let mut value = start;
    for i in 0..whole {
        // In two lines: a call's result can't be stored over an array at once.
        let next = keys.chained(value, part(text, 8 * i));
        value = next;
    }
    keys.chained(value, padded_block(&text[8 * whole..]))
}

// The signature of a text of any length.
pub fn signature(engine: Engine, key: [u8; 16], start: [u8; 8], text: &[u8]) -> [u8; 8]
    ensures { result ≡ signature key start text.now }
{
    match engine {
        Engine::Plain => signature_under::<PlainKeys>(key, start, text),
        Engine::Quick => signature_under::<QuickKeys>(key, start, text),
    }
}
