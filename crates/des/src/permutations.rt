// The permutations and the bit selections: one function, and a table for each.
ghost use Rattle.std.specs.Prelude.{◌≡◌};
ghost use Rattle.des_spec.specs.Bits.{Names};
ghost use Rattle.des_spec.specs.Des.{permute};

// The bits that a table names, counted from 1.
pub fn permute<const N: usize, const M: usize>(table: &[u8; M], bits: [u8; N]) -> [u8; M]
    requires { Names table.now N }
    ensures { result ≡ permute table.now bits.entry }
{
    let mut named = [0; M];
    for (i, &place) in table.iter().enumerate() {
        named[i] = bits[place as usize - 1];
    }
    named
}
