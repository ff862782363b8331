// A log record by value, and its bytes.
ghost use Rattle.std.specs.Prelude.{◌≡◌};
ghost use Rattle.card.specs.Log.{void, record_bytes, record_in};
ghost use Rattle.card.specs.Proper.{record_ok};

// How many bytes a record has.
pub const RECORD_SIZE: usize = 25;

// Where a record's key set lies.
pub const KEYSET_AT: usize = 24;

// Number, currency, amount (a debit's in two's complement), the new balance, the context, and the key set that opened the channel; 0 in a
// void record.
#[derive(Clone, Copy, PartialEq, Eq, Debug, Default)]
pub struct Record {
    pub number: u16,
    pub currency: u16,
    pub amount: u16,
    pub balance: u16,
    pub context: [u8; 16],
    pub keyset: u8,
}

impl Record {
    // A void record.
    pub fn void() -> Record
        ensures { result ≡ void }
    {
        Record::default()
    }

    // The record that bytes say.
    #[tactic(auto, unfolding(crate::specs::Log::record_in))]
    pub fn from_bytes(s: &[u8]) -> Record
        ensures { result ≡ record_in s.now }
    {
        Record {
            number: octets::word_at(s, 0),
            currency: octets::word_at(s, 2),
            amount: octets::word_at(s, 4),
            balance: octets::word_at(s, 6),
            context: octets::part(s, 8),
            keyset: octets::byte_at(s, KEYSET_AT),
        }
    }

    // Its bytes.
    pub fn to_bytes(self) -> [u8; RECORD_SIZE]
        ensures { result ≡ record_bytes self }
    {
        let mut s = [0; RECORD_SIZE];
        s[0..2].copy_from_slice(&self.number.to_be_bytes());
        s[2..4].copy_from_slice(&self.currency.to_be_bytes());
        s[4..6].copy_from_slice(&self.amount.to_be_bytes());
        s[6..8].copy_from_slice(&self.balance.to_be_bytes());
        s[8..24].copy_from_slice(&self.context);
        s[KEYSET_AT] = self.keyset;
        s
    }

    // Whether the record that bytes say is void or, on a personalized card, has a key set.
    #[tactic(auto, using(crate::proofs::Logs::ok_by))]
    pub fn accepts(s: &[u8], personalized: bool) -> bool
        ensures { result ≡ record_ok personalized (record_in s.now) }
    {
        personalized && (1..=3).contains(&octets::byte_at(s, KEYSET_AT))
            || octets::all_zero(&octets::part::<RECORD_SIZE>(s, 0))
    }
}
