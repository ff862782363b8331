// Cryptograms: each side's proof that it holds the session key.
ghost use Rattle.std.specs.Prelude.{◌≡◌};
ghost use Rattle.channel.specs.Channel.{card_cryptogram, host_cryptogram};

use tdes::{Engine, signature};

// What the card shows: the host's challenge first.
#[tactic(auto, unfolding(crate::specs::Channel::card_cryptogram))]
pub fn card_cryptogram(engine: Engine, enc: [u8; 16], host: [u8; 8], card: [u8; 8]) -> [u8; 8]
    ensures { result ≡ card_cryptogram enc host card }
{
    signature(engine, enc, [0; 8], [host, card].as_flattened())
}

// What the host shows: the card's challenge first.
#[tactic(auto, unfolding(crate::specs::Channel::host_cryptogram))]
pub fn host_cryptogram(engine: Engine, enc: [u8; 16], host: [u8; 8], card: [u8; 8]) -> [u8; 8]
    ensures { result ≡ host_cryptogram enc host card }
{
    signature(engine, enc, [0; 8], [card, host].as_flattened())
}
