// Lists of bits: numbers to bits, bits to numbers, and addition modulo 2.
ghost use Rattle.std.specs.Prelude.{◌≡◌, ◌*◌, ◌/◌, ◌%◌, ◌^◌, ◌<◌, ◌≤◌, length};
ghost use Rattle.des_spec.specs.Bits.{Bits, binaries, number, xor};

// The bit of weight 2 ^ k.
fn bit(v: u8, k: usize) -> u8
    requires { k < 8 }
    ensures { result ≡ v / 2 ^ k % 2 }
{
    (v >> k) % 2
}

// The bits of eight numbers, W of each. A loop fills the array, here and in three functions more: `array::from_fn` is no plainer, since its
// closure would need the function's `requires` again.
pub fn binaries<const W: usize, const N: usize>(numbers: [u8; 8]) -> [u8; N]
    requires { (0 < W) × (W ≤ 8) × (N ≡ W * 8) }
    ensures { result ≡ binaries W numbers }
{
    let mut bits = [0; N];
    for i in 0..N {
        bits[i] = bit(numbers[i / W], W - 1 - i % W);
    }
    bits
}

// The number that up to eight bits say. That they are bits is a clause, here and above: a type for it is no plainer, since it would
// stand in twice as many signatures.
pub fn number(bits: &[u8]) -> u8
    requires { Bits bits.now × (length bits.now ≤ 8) }
    ensures { result ≡ number bits.now }
{
    let mut value = 0;
    for &b in bits {
        value = 2 * value + b;
    }
    value
}

// The sum modulo 2 of each bit of a and of b.
pub fn xor<const N: usize>(a: [u8; N], b: [u8; N]) -> [u8; N]
    ensures { result ≡ xor a.entry b.entry }
{
    let mut sum = [0; N];
    for i in 0..N {
        sum[i] = (a[i] % 2 + b[i] % 2) % 2;
    }
    sum
}
