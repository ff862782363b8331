// The key schedule: the round keys of a key, a word each.
ghost use Rattle.std.specs.Prelude.{◌≡◌, map, reverse, ◌++◌, ◌-◌, ◌^◌, ◌<◌};
ghost use Rattle.des_spec.specs.Bits.{binary};
ghost use Rattle.des_spec.specs.Des.{permute, rotate, keys_from, round_keys};
ghost use Rattle.des_spec.specs.Tables.{PC2, shifts};
ghost use Rattle.quick.specs.Words.{key_bits, halves_at};

use crate::bytes::load;
use crate::key_table::choices;
use crate::permutations::choice1;

// A half of the key shifted left by 28 - n places.
fn turned(c: u64, n: u64) -> u64
    requires { (c < 2 ^ 28) × (n < 29) }
    ensures { (result < 2 ^ 28) × (binary 28 result ≡ rotate (28 - n) (binary 28 c)) }
{
    ((c * 0x1000_0001) >> n) % 0x1000_0000
}

// Permuted choice 2 of the halves in a word: the sum of the table's words for its nibbles. The index names a row of the table.
fn choice2(x: u64) -> u64
    ensures { key_bits result ≡ permute PC2 (binary 56 x) }
{
    let table = choices();
    let mut rest = x;
    let mut sum: u64 = 0;
    for j in 0..14 {
        sum ^= table[16 * j + (rest % 16) as usize];
        rest /= 16;
    }
    sum
}

// The round key of C and D, each shifted left by 28 - n places.
fn key_word(c: u64, d: u64, n: u64) -> u64
    requires { (c < 2 ^ 28) × ((d < 2 ^ 28) × (n < 29)) }
    ensures { key_bits result ≡ permute PC2 (rotate (28 - n) (binary 28 c) ++ rotate (28 - n) (binary 28 d)) }
{
    choice2(turned(c, n) * 0x1000_0000 + turned(d, n))
}

// K1 to K16 of the halves that permuted choice 1 took.
fn key_words(z: u64) -> [u64; 16]
    ensures { map key_bits result ≡ keys_from shifts (permute halves_at (binary 64 z)) }
{
    let c = z >> 36;
    let d = (z >> 4) % 0x1000_0000;
    // One by one: a loop over the numbers was tried, proves, and misses the earlier ratio to OpenSSL's DES with a key each, 1.15, by 8%.
    [
        key_word(c, d, 27),
        key_word(c, d, 26),
        key_word(c, d, 24),
        key_word(c, d, 22),
        key_word(c, d, 20),
        key_word(c, d, 18),
        key_word(c, d, 16),
        key_word(c, d, 14),
        key_word(c, d, 13),
        key_word(c, d, 11),
        key_word(c, d, 9),
        key_word(c, d, 7),
        key_word(c, d, 5),
        key_word(c, d, 3),
        key_word(c, d, 1),
        key_word(c, d, 0),
    ]
}

// The same words, the last first. Turned in place in `round_keys`, they miss the earlier ratio to OpenSSL's DES with a key each, 1.15.
fn reversed(mut words: [u64; 16]) -> [u64; 16]
    ensures { result ≡ reverse words }
{
    words.reverse();
    words
}

// The words of the round keys of a key, in the order of use.
pub fn round_keys(key: [u8; 8], decipher: bool) -> [u64; 16]
    ensures { map key_bits result ≡ round_keys decipher key }
{
    let words = key_words(choice1(load(key)));
    if decipher { reversed(words) } else { words }
}
