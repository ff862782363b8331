// What travels enciphered: bank information in CBC, keys and PINs in ECB.
ghost use Rattle.std.specs.Prelude.{◌≡◌};
ghost use Rattle.channel.specs.Channel.{bank_sent, bank_received, received};

use tdes::{Engine, cbc_decipher, cbc_encipher, ecb};

// Bank information as it is sent. Two functions, this and the next: one over a direction would take a flag where each call has a constant.
#[tactic(auto, unfolding(crate::specs::Channel::bank_sent))]
pub fn bank_sent(engine: Engine, dek: [u8; 16], mut value: [u8; 16]) -> [u8; 16]
    ensures { result ≡ bank_sent dek value }
{
    cbc_encipher(engine, dek, [0; 8], &mut value);
    value
}

// Bank information as it was before it was sent.
#[tactic(auto, unfolding(crate::specs::Channel::bank_received))]
pub fn bank_received(engine: Engine, dek: [u8; 16], mut value: [u8; 16]) -> [u8; 16]
    ensures { result ≡ bank_received dek value }
{
    cbc_decipher(engine, dek, [0; 8], &mut value);
    value
}

// What was sent under a key, in place.
#[tactic(auto, unfolding(crate::specs::Channel::received))]
pub fn receive(engine: Engine, key: [u8; 16], text: &mut [u8])
    ensures { text.new ≡ received key text.old }
{
    ecb(engine, key, true, text);
}

// What was sent under a key: a PIN block, three keys.
pub fn received<const N: usize>(engine: Engine, key: [u8; 16], mut value: [u8; N]) -> [u8; N]
    ensures { result ≡ received key value.entry }
{
    receive(engine, key, &mut value);
    value
}
