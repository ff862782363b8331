// The cipher function and the sixteen rounds, on words.
ghost use Rattle.std.specs.Prelude.{◌≡◌, map, length, take, drop};
ghost use Rattle.std.specs.Int.Bits.{bit_xor, bit_and};
ghost use Rattle.des_spec.specs.Bits.{binary};
ghost use Rattle.des_spec.specs.Des.{cipher, rounds};
ghost use Rattle.quick.specs.Words.{key_bits};

use crate::table::word;

// The sum modulo 2 of two words that have no bit in common: their sum.
fn join(a: u32, b: u32) -> u32
    requires { bit_and a b ≡ 0 }
    ensures { result ≡ bit_xor a b }
{
    a + b
}

// The cipher function. Turned right by three and left by one, a half has the six bits for each selection function in a byte of its own.
fn cipher(r: u32, k: u64) -> u32
    ensures { binary 32 result ≡ cipher (binary 32 r) (key_bits k) }
{
    let a = r.rotate_right(3) ^ ((k >> 32) as u32);
    let b = r.rotate_left(1) ^ ((k % 0x1_0000_0000) as u32);
    let w0 = word(((a >> 24) % 64) as usize);
    let w1 = word((64 + (b >> 24) % 64) as usize);
    let w2 = word((128 + (a >> 16) % 64) as usize);
    let w3 = word((192 + (b >> 16) % 64) as usize);
    let w4 = word((256 + (a >> 8) % 64) as usize);
    let w5 = word((320 + (b >> 8) % 64) as usize);
    let w6 = word((384 + a % 64) as usize);
    let w7 = word((448 + b % 64) as usize);
    join(join(w0, w1), join(w2, w3)) ^ join(join(w4, w5), join(w6, w7))
}

// The sixteen rounds on the two halves of a word, two a turn; the halves of the last are exchanged. The index names a turn's two keys:
// `chunks_exact` is no plainer.
pub fn rounds(ks: &[u64; 16], b: u64) -> u64
    ensures { binary 64 result ≡ rounds (map key_bits ks.now) (take 32 (binary 64 b)) (drop 32 (binary 64 b)) }
{
    let mut l = (b / 0x1_0000_0000) as u32;
    let mut r = (b % 0x1_0000_0000) as u32;
    for i in 0..8 {
        l ^= cipher(r, ks[2 * i]);
        r ^= cipher(l, ks[2 * i + 1]);
    }
    (r as u64) * 0x1_0000_0000 + (l as u64)
}
