// The PIN block.
ghost use Rattle.std.specs.Prelude.{◌≡◌};
ghost use Rattle.card.specs.Pin.{nibbles, between, well_formed};

// The sixteen nibbles of a block. A loop fills the array: `array::from_fn` is no plainer, since a byte has two of them.
fn nibbles(block: [u8; 8]) -> [u8; 16]
    ensures { result ≡ nibbles block }
{
    let mut l = [0; 16];
    for (i, byte) in block.iter().enumerate() {
        l[2 * i] = byte / 16;
        l[2 * i + 1] = byte % 16;
    }
    l
}

// Whether every number is from low to high.
fn between(l: &[u8], low: u8, high: u8) -> bool
    ensures { result ≡ between low high l.now }
{
    l.iter().all(|d| (low..=high).contains(d))
}

// Nibble 2, a length of 4 to 12, that many digits, then F to the end.
pub fn well_formed(block: [u8; 8]) -> bool
    ensures { result ≡ well_formed block }
{
    let l = nibbles(block);
    let n = l[1];
    let at = n as usize + 2;
    l[0] == 2 && (4..=12).contains(&n) && between(&l[2..at], 0, 9) && between(&l[at..], 15, 15)
}
