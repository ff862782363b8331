// Step 4: P1 and P2.
ghost use Rattle.std.specs.Prelude.{◌≡◌};
ghost use Rattle.apdu.specs.Parameters.{is_set, is_tag, plain_parameters, signed_parameters, has_record};

use crate::instructions::{Plain, Signed};

// A key set's number.
#[tactic(auto, unfolding(crate::specs::Parameters::is_set))]
fn is_set(n: u8) -> bool
    ensures { result ≡ is_set n }
{
    matches!(n, 1..=3)
}

// The tags that GET DATA and PUT DATA know.
#[tactic(auto, unfolding(crate::specs::Parameters::is_tag))]
fn is_tag(tag: u8) -> bool
    ensures { result ≡ is_tag tag }
{
    matches!(tag, 0x01..=0x07 | 0x14..=0x17)
}

impl Plain {
    // Whether P1 and P2 are right for a command without a C-MAC.
    #[tactic(auto, unfolding(crate::specs::Parameters::plain_parameters, crate::specs::Parameters::are))]
    pub(crate) fn parameters(self, p1: u8, p2: u8) -> bool
        ensures { result ≡ plain_parameters self p1 p2 }
    {
        match self {
            Plain::Select => (p1, p2) == (0x04, 0x00),
            Plain::InitializeUpdate => p2 == 0x00 && is_set(p1),
            Plain::ExternalAuthenticate => p2 == 0x00 && matches!(p1, 0x01 | 0x11),
            Plain::VerifyPin => (p1, p2) == (0x00, 0x00),
            Plain::GetData => p1 == 0x02 && is_tag(p2),
            Plain::ReadRecord => p2 == 0x04,
        }
    }

    // READ RECORD's P1.
    #[tactic(auto, unfolding(crate::specs::Parameters::has_record))]
    pub(crate) fn has_record(self, p1: u8, logsize: u8) -> bool
        ensures { result ≡ has_record self p1 logsize }
    {
        self != Plain::ReadRecord || (1..=logsize).contains(&p1)
    }
}

impl Signed {
    // Whether they are for a command with one.
    #[tactic(auto, unfolding(crate::specs::Parameters::signed_parameters, crate::specs::Parameters::are))]
    pub(crate) fn parameters(self, p1: u8, p2: u8) -> bool
        ensures { result ≡ signed_parameters self p1 p2 }
    {
        match self {
            Signed::PutKey => p1 == 0x00 && is_set(p2),
            Signed::PinChange | Signed::CompleteTransaction => (p1, p2) == (0x00, 0x00),
            Signed::StoreData => (p1, p2) == (0x80, 0x00),
            Signed::InitializeTransaction => p2 == 0x00 && p1 <= 0x02,
            Signed::PutData => p1 == 0x02 && is_tag(p2),
        }
    }
}
