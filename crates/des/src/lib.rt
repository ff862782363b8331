// The data encryption standard, straight from FIPS 46-3: one bit to an array element, the leftmost first. Blocks, halves and the
// sixteen round keys pass by value, the form that 01 lists for DES; tables are lent.
#![tactic(auto)]

mod bits;
mod permutations;
mod rounds;
mod rows;
mod schedule;
mod selection;
mod tables;

ghost use Rattle.std.specs.Prelude.{◌≡◌};
ghost use Rattle.des_spec.specs.Des.{round_keys, block_under, des};

use octets::part;

// The round keys of a key, in the order of use.
pub fn round_keys(key: [u8; 8], decipher: bool) -> [[u8; 48]; 16]
    ensures { result ≡ round_keys decipher key }
{
    let mut keys = schedule::schedule(bits::binaries::<8, 64>(key));
    if decipher {
        keys.reverse();
    }
    keys
}

// A block under round keys: the initial permutation, sixteen rounds from its two halves on, the inverse permutation.
pub fn block_under(keys: [[u8; 48]; 16], block: [u8; 8]) -> [u8; 8]
    ensures { result ≡ block_under keys block }
{
    let bits = bits::binaries::<8, 64>(rows::initial(block));
    let last = rounds::rounds(keys, part(&bits, 0), part(&bits, 32));
    rows::inverse(last)
}

// A block under a key.
pub fn des_block(key: [u8; 8], decipher: bool, block: [u8; 8]) -> [u8; 8]
    ensures { result ≡ des decipher key block }
{
    let keys = round_keys(key, decipher);
    block_under(keys, block)
}
