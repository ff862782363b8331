// The initial permutation and its inverse, one row of eight bits at a time.
ghost use Rattle.std.specs.Prelude.{◌≡◌, ◌<◌};
ghost use Rattle.des_spec.specs.Bits.{Bits, Names, bits_of};
ghost use Rattle.des_spec.specs.Tables.{IP, IP⁻¹};
ghost use Rattle.des_spec.specs.Rows.{row, by_rows};

use super::permutations::permute;
use super::{bits, tables};
use octets::part;

// Row r of a permutation: the byte of the bits that line r of its table lists, in order, the first one highest.
fn row(table: &[u8; 64], r: usize, block: [u8; 64]) -> u8
    requires { Names table.now 64 × (r < 8) × Bits block }
    ensures { result ≡ row table.now r block }
{
    let line = part::<8>(table, 8 * r);
    bits::number(&permute(&line, block))
}

// All eight rows.
fn by_rows(table: &[u8; 64], block: [u8; 64]) -> [u8; 8]
    requires { Names table.now 64 × Bits block }
    ensures { result ≡ by_rows table.now block }
{
    let mut bytes = [0; 8];
    for r in 0..8 {
        bytes[r] = row(table, r, block);
    }
    bytes
}

// The initial permutation, of the bytes of a block.
pub fn initial(block: [u8; 8]) -> [u8; 8]
    ensures { result ≡ by_rows IP (bits_of block) }
{
    by_rows(&tables::IP, bits::binaries::<8, 64>(block))
}

// Its inverse, of the bits that the rounds leave.
pub fn inverse(bits: [u8; 64]) -> [u8; 8]
    requires { Bits bits }
    ensures { result ≡ by_rows IP⁻¹ bits }
{
    by_rows(&tables::INVERSE, bits)
}
