// Step 5: Lc.
ghost use Rattle.std.specs.Prelude.{◌≡◌};
ghost use Rattle.apdu.specs.Lengths.{plain_length, signed_length};

use crate::instructions::{Plain, Signed};

// A C-MAC's bytes, the last of a signed command's data.
pub const MAC_SIZE: u8 = 8;

impl Plain {
    // Whether Lc is right for a command without a C-MAC.
    #[tactic(auto, unfolding(crate::specs::Lengths::plain_length))]
    pub(crate) fn length(self, lc: u8) -> bool
        ensures { result ≡ plain_length self lc }
    {
        match self {
            Plain::Select => true,
            Plain::InitializeUpdate | Plain::VerifyPin => lc == 8,
            Plain::ExternalAuthenticate => lc == 8 + MAC_SIZE,
            Plain::GetData | Plain::ReadRecord => lc == 0,
        }
    }
}

impl Signed {
    // Whether Lc, which counts the C-MAC, is right for a command with one.
    #[tactic(auto, unfolding(crate::specs::Lengths::signed_length))]
    pub(crate) fn length(self, lc: u8) -> bool
        ensures { result ≡ signed_length self lc }
    {
        match self {
            Signed::PutKey => lc == 48 + MAC_SIZE,
            Signed::PinChange => lc == MAC_SIZE || lc == 8 + MAC_SIZE,
            Signed::InitializeTransaction => lc == 4 + MAC_SIZE,
            Signed::CompleteTransaction => lc == 16 + MAC_SIZE,
            Signed::StoreData | Signed::PutData => MAC_SIZE <= lc,
        }
    }
}
