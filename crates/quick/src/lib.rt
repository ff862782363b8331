// The quick engine of DES, on words where the plain engine has lists of bits. Each selection function is joined with the permutation
// behind it in one table of 512 words; the round keys of a key are 16 words.
#![tactic(auto)]

mod bytes;
mod key_table;
mod permutations;
mod rounds;
mod schedule;
mod table;

ghost use Rattle.std.specs.Prelude.{◌≡◌, map};
ghost use Rattle.des_spec.specs.Des.{block_under, des};
ghost use Rattle.quick.specs.Words.{key_bits};

use bytes::{load, store};
pub use key_table::choices;
use permutations::{initial, inverse};
pub use schedule::round_keys;
pub use table::boxes;

// A block under round keys.
pub fn block_under(ks: &[u64; 16], block: [u8; 8]) -> [u8; 8]
    ensures { result ≡ block_under (map key_bits ks.now) block }
{
    let last = rounds::rounds(ks, initial(load(block)));
    store(inverse(last))
}

// A block under outer, inner and again outer round keys. A permutation and its inverse between two of them undo each other, and are
// left out.
pub fn triple_under(outer: &[u64; 16], inner: &[u64; 16], block: [u8; 8]) -> [u8; 8]
    ensures { result ≡ block_under (map key_bits outer.now)
        (block_under (map key_bits inner.now) (block_under (map key_bits outer.now) block)) }
{
    let first = rounds::rounds(outer, initial(load(block)));
    let second = rounds::rounds(inner, first);
    let third = rounds::rounds(outer, second);
    store(inverse(third))
}

// A block under a key.
pub fn des_block(key: [u8; 8], decipher: bool, block: [u8; 8]) -> [u8; 8]
    ensures { result ≡ des decipher key block }
{
    block_under(&round_keys(key, decipher), block)
}
