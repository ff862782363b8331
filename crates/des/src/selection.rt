// The cipher function f(R, K), with the selection functions S1 to S8.
ghost use Rattle.std.specs.Prelude.{◌≡◌, [], ◌*◌, ◌<◌, get_or, take, drop};
ghost use Rattle.des_spec.specs.Bits.{Bits};
ghost use Rattle.des_spec.specs.Tables.{S};
ghost use Rattle.des_spec.specs.Des.{select, selects, cipher};

use super::permutations::permute;
use super::{bits, tables};
use octets::part;

// The number in a row and a column of selection function i.
fn entry(i: usize, row: usize, column: usize) -> u8
    requires { (i < 8) × (row < 4) × (column < 16) }
    ensures { result ≡ get_or (get_or (get_or S i []) row []) column 0 }
{
    tables::S[i][row][column]
}

// Selection function i for its six bits: the outer two say the row, the inner four the column.
fn select(sum: [u8; 48], i: usize) -> u8
    requires { Bits sum × (i < 8) }
    ensures { result ≡ select (get_or S i []) (take 6 (drop (6 * i) sum)) }
{
    let [first, a, b, c, d, last] = part::<6>(&sum, 6 * i);
    let row = bits::number(&[first, last]);
    let column = bits::number(&[a, b, c, d]);
    entry(i, row as usize, column as usize)
}

// The entries of all eight.
fn selects(sum: [u8; 48]) -> [u8; 8]
    requires { Bits sum }
    ensures { result ≡ selects S sum }
{
    let mut entries = [0; 8];
    for i in 0..8 {
        entries[i] = select(sum, i);
    }
    entries
}

// The cipher function.
pub fn cipher(half: [u8; 32], key: [u8; 48]) -> [u8; 32]
    ensures { result ≡ cipher half key }
{
    let expanded = permute(&tables::E, half);
    let entries = selects(bits::xor(expanded, key));
    permute(&tables::P, bits::binaries::<4, 32>(entries))
}
