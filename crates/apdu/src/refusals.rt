// The status words that refuse: every word but 9000 that a command's answer can end in.
ghost use Rattle.std.specs.Prelude.{◌≡◌};
ghost use Rattle.octets.specs.Choice.{pick};
ghost use Rattle.apdu.specs.Refusals.{refusal_word};

// A reason to refuse; its number is its status word.
#[derive(Clone, Copy, Debug, PartialEq, Eq)]
pub enum Refusal {
    NotAuthenticated = 0x6300,
    WrongLength = 0x6700,
    SecurityNotSatisfied = 0x6982,
    NoTriesLeft = 0x6983,
    ConditionsNotSatisfied = 0x6985,
    WrongData = 0x6A80,
    FeatureMissing = 0x6A81,
    UnknownApplication = 0x6A82,
    UnknownRecord = 0x6A83,
    DataPastEnd = 0x6A85,
    WrongParameters = 0x6A86,
    UndefinedKeySet = 0x6A88,
    UnknownInstruction = 0x6D00,
    UnknownClass = 0x6E00,
    NumberAtMaximum = 0x9410,
    WrongCurrency = 0x9411,
    AmountNotAboveZero = 0x9412,
    DebitAboveLimit = 0x9413,
    CreditAboveLimit = 0x9414,
}

impl From<Refusal> for u16 {
    ghost from_gives = { λ refusal word. word ≡ refusal_word refusal };

    fn from(refusal: Refusal) -> u16 {
        refusal as u16
    }
}

// The refusal, unless its rule holds.
pub fn ensure(holds: bool, refusal: Refusal) -> Result<(), Refusal>
    ensures { result ≡ pick holds (Ok tt) (Err refusal) }
{
    if holds { Ok(()) } else { Err(refusal) }
}
