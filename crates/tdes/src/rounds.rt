// What the engines have in common: the round keys of a key, and blocks under them. All above is written over it once.
ghost use Rattle.std.specs.Prelude.{◌≡◌, ℕ, List, map};
ghost use Rattle.des_spec.specs.Des.{round_keys, block_under};
ghost use Rattle.quick.specs.Words.{key_bits};
ghost use Rattle.tdes.specs.Turns.{triple_under};

// The round keys of a key, as an engine has them.
pub trait RoundKeys: Drop {
    // The bits that they stand for.
    ghost bits: { Self → List (List ℕ) };

    // Of a key, in the order of use.
    fn of(key: [u8; 8], decipher: bool) -> Self
        ensures { bits result ≡ round_keys decipher key };

    // A block under them.
    fn block_under(&self, block: [u8; 8]) -> [u8; 8]
        ensures { result ≡ block_under (bits self.now) block };

    // A block under them, under inner ones, and under them again.
    fn triple_under(&self, inner: &Self, block: [u8; 8]) -> [u8; 8]
        ensures { result ≡ triple_under (bits self.now) (bits inner.now) block }
    {
        self.block_under(inner.block_under(self.block_under(block)))
    }
}

// The plain engine's, a bit to an array element.
pub type PlainKeys = [[u8; 48]; 16];

impl RoundKeys for PlainKeys {
    ghost bits = { λ keys. keys };

    fn of(key: [u8; 8], decipher: bool) -> PlainKeys {
        des::round_keys(key, decipher)
    }

    fn block_under(&self, block: [u8; 8]) -> [u8; 8] {
        des::block_under(*self, block)
    }
}

// The quick engine's, a word each.
pub type QuickKeys = [u64; 16];

impl RoundKeys for QuickKeys {
    ghost bits = { λ words. map key_bits words };

    fn of(key: [u8; 8], decipher: bool) -> QuickKeys {
        quick::round_keys(key, decipher)
    }

    fn block_under(&self, block: [u8; 8]) -> [u8; 8] {
        quick::block_under(self, block)
    }

    fn triple_under(&self, inner: &QuickKeys, block: [u8; 8]) -> [u8; 8] {
        quick::triple_under(self, inner, block)
    }
}
