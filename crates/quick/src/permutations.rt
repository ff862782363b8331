// The permutations of a word of 64 bits, as exchanges of bits.
ghost use Rattle.std.specs.Prelude.{◌≡◌, ◌<◌};
ghost use Rattle.des_spec.specs.Bits.{binary};
ghost use Rattle.des_spec.specs.Des.{permute};
ghost use Rattle.des_spec.specs.Tables.{IP, IP⁻¹, PC1};
ghost use Rattle.quick.specs.Words.{swapped, halves_at};

// Exchanges the bits of a word where the mask has ones with those s places higher.
fn swap(x: u64, s: u64, m: u64) -> u64
    requires { s < 64 }
    ensures { binary 64 result ≡ swapped s (binary 64 m) (binary 64 x) }
{
    let t = ((x >> s) ^ x) & m;
    (x ^ t) ^ (t << s)
}

// The initial permutation.
pub fn initial(x: u64) -> u64
    ensures { binary 64 result ≡ permute IP (binary 64 x) }
{
    let a = swap(x, 36, 0x0F0F_0F0F);
    let b = swap(a, 48, 0xFFFF);
    let c = swap(b, 30, 0xCCCC_CCCC);
    let d = swap(c, 24, 0xFF00_FF00);
    swap(d, 33, 0x5555_5555)
}

// Its inverse.
pub fn inverse(x: u64) -> u64
    ensures { binary 64 result ≡ permute IP⁻¹ (binary 64 x) }
{
    let a = swap(x, 33, 0x5555_5555);
    let b = swap(a, 24, 0xFF00_FF00);
    let c = swap(b, 30, 0xCCCC_CCCC);
    let d = swap(c, 48, 0xFFFF);
    swap(d, 36, 0x0F0F_0F0F)
}

// Permuted choice 1: C and D, each in the high 28 bits of a half.
pub fn choice1(x: u64) -> u64
    ensures { permute halves_at (binary 64 result) ≡ permute PC1 (binary 64 x) }
{
    let a = initial(x);
    let b = swap(a, 8, 0x00FF_0000_FF00_0000);
    let c = swap(b, 24, 0x00FF_00FF_00FF);
    swap(c, 28, 0xF0)
}
