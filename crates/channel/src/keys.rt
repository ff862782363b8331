// Session keys.
ghost use Rattle.std.specs.Prelude.{◌≡◌};
ghost use Rattle.channel.specs.Channel.{derivation, session_key};

use octets::part;
use tdes::{Engine, ecb};

// What a stored key enciphers: halves of the two challenges.
#[tactic(auto, unfolding(crate::specs::Channel::derivation))]
pub fn derivation(host: [u8; 8], card: [u8; 8]) -> [u8; 16]
    ensures { result ≡ derivation host card }
{
    let halves = [
        part::<4>(&card, 4),
        part(&host, 0),
        part(&card, 0),
        part(&host, 4),
    ];
    part(halves.as_flattened(), 0)
}

// The session key of a stored key and the two challenges.
#[tactic(auto, unfolding(crate::specs::Channel::session_key))]
pub fn session_key(engine: Engine, key: [u8; 16], host: [u8; 8], card: [u8; 8]) -> [u8; 16]
    ensures { result ≡ session_key key host card }
{
    let mut text = derivation(host, card);
    ecb(engine, key, false, &mut text);
    text
}
