// The signatures of commands and answers.
ghost use Rattle.std.specs.Prelude.{◌≡◌};
ghost use Rattle.octets.specs.Buffers.{content};
ghost use Rattle.channel.specs.Channel.{cmac_of, rmac_of};

use octets::{Buffer, CAPACITY, paste};
use tdes::{Engine, signature};

// A C-MAC, a buffer's bytes and a status word.
const LONGEST: usize = 8 + CAPACITY + 2;

// The C-MAC over the first `n` bytes of a command, all where it has fewer.
#[tactic(auto, unfolding(crate::specs::Channel::cmac_of))]
pub fn cmac(engine: Engine, mac: [u8; 16], start: [u8; 8], command: &[u8], n: usize) -> [u8; 8]
    ensures { result ≡ cmac_of mac start command.now n }
{
    signature(engine, mac, start, &command[..n.min(command.len())])
}

// The R-MAC of an answer's data: over the command's C-MAC, these data, 90 00. The data come by value: behind a reference the proof lacks that
// a buffer's array has 128 bytes.
pub fn rmac(engine: Engine, mac: [u8; 16], start: [u8; 8], cmac: [u8; 8], body: Buffer) -> [u8; 8]
    ensures { result ≡ rmac_of mac start cmac (content body) }
{
    let bytes = body.as_slice();
    let n = 8 + bytes.len();
    let mut text = [0; LONGEST];
    paste(&mut text, 0, &cmac);
    paste(&mut text, 8, bytes);
    paste(&mut text, n, &[0x90, 0x00]);
    signature(engine, mac, start, &text[..n + 2])
}
