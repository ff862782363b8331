// The sixteen rounds, on the two halves of a block of 64 bits.
ghost use Rattle.std.specs.Prelude.{◌≡◌, ◌++◌};
ghost use Rattle.des_spec.specs.Des.{rounds};

use super::{bits, selection};

// Two halves as one block.
fn join(a: [u8; 32], b: [u8; 32]) -> [u8; 64]
    ensures { result ≡ a ++ b }
{
    let mut block = [0; 64];
    block[..32].copy_from_slice(&a);
    block[32..].copy_from_slice(&b);
    block
}

// The sixteen rounds; the halves of the last are exchanged.
pub fn rounds(keys: [[u8; 48]; 16], mut left: [u8; 32], mut right: [u8; 32]) -> [u8; 64]
    ensures { result ≡ rounds keys left right }
{
    for key in keys {
        let next = bits::xor(left, selection::cipher(right, key));
        left = right;
        right = next;
    }
    join(right, left)
}
