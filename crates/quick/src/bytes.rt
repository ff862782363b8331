// Eight bytes as a word, the first highest, and back: named functions, whose contracts are in the words of `des_spec`.
ghost use Rattle.std.specs.Prelude.{◌≡◌};
ghost use Rattle.des_spec.specs.Bits.{binary, bits_of, bytes_of};

// The word of eight bytes.
pub fn load(bytes: [u8; 8]) -> u64
    ensures { binary 64 result ≡ bits_of bytes }
{
    u64::from_be_bytes(bytes)
}

// The eight bytes of a word.
pub fn store(x: u64) -> [u8; 8]
    ensures { result ≡ bytes_of 8 (binary 64 x) }
{
    x.to_be_bytes()
}
