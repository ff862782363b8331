// The structs of a card as bytes: for each where its fields lie, its writer and its reader. No trait of these pairs: nothing is generic over
// them, and each would say its bytes and its value once more, as ghost members.
ghost use Rattle.std.specs.Prelude.{◌≡◌, length, map};
ghost use Rattle.octets.specs.Bytes.{part};
ghost use Rattle.stores.specs.Fields.{joined};
ghost use Rattle.card.specs.Keys.{key_bytes};
ghost use Rattle.memory.specs.Structs.{aid_bytes, aid_in, bank_bytes, bank_in, parameter_bytes, parameters_in, key_set_bytes, key_set_in};
ghost use Rattle.memory.specs.Structs.{shared_bytes, shared_in, pin_bytes, pin_in, fixed_bytes, fixed_in, hot_bytes, state_in};
ghost use Rattle.memory.specs.Structs.{cold_bytes, purse_in, head_of};

use card::keys::KEYS_SIZE;
use card::{Aid, Bank, Fixed, Head, KeySet, Keys, Parameters, Pin, Purse, Shared, State};
use octets::{byte_at, word_at};

// The `n` bytes from an index on, fewer where `s` ends before.
pub fn part(s: &[u8], at: usize, n: usize) -> &[u8]
    ensures { result.now ≡ part s.now at n }
{
    let rest = &s[at.min(s.len())..];
    &rest[..n.min(rest.len())]
}

// The pieces, one after the other.
fn join<const N: usize>(pieces: &[&[u8]]) -> [u8; N]
    requires { length (joined (map (λ p. p.now) pieces.now)) ≡ N }
    ensures { result ≡ joined (map (λ p. p.now) pieces.now) }
{
    let mut bytes = [0; N];
    let mut at = 0;
    for piece in pieces {
        octets::paste(&mut bytes, at, piece);
        at += piece.len();
    }
    bytes
}

// The bytes of three keys.
#[tactic(auto, unfolding(card::specs::Keys::key_bytes))]
fn keys_bytes(k: &Keys) -> [u8; KEYS_SIZE]
    ensures { result ≡ key_bytes k.now }
{
    join(&[&k.enc, &k.mac, &k.dek])
}

// ---- an AID: size, bytes

const AID_SIZE: usize = 1 + 16;

// Its bytes.
#[tactic(auto, unfolding(crate::specs::Structs::aid_bytes))]
fn aid_bytes(a: &Aid) -> [u8; AID_SIZE]
    ensures { result ≡ aid_bytes a.now }
{
    join(&[&[a.size], &a.bytes])
}

// The AID that bytes say.
#[tactic(auto, unfolding(crate::specs::Structs::aid_in))]
fn aid_in(s: &[u8]) -> Aid
    ensures { result ≡ aid_in s.now }
{
    Aid {
        size: byte_at(s, 0),
        bytes: octets::part(s, 1),
    }
}

// ---- bank information: flag, value

const BANK_SIZE: usize = 1 + 16;

// Its bytes.
#[tactic(auto, unfolding(crate::specs::Structs::bank_bytes))]
fn bank_bytes(b: &Bank) -> [u8; BANK_SIZE]
    ensures { result ≡ bank_bytes b.now }
{
    join(&[&[u8::from(b.defined)], &b.value])
}

// The bank information that bytes say.
#[tactic(auto, unfolding(crate::specs::Structs::bank_in))]
fn bank_in(s: &[u8]) -> Bank
    ensures { result ≡ bank_in s.now }
{
    Bank {
        defined: byte_at(s, 0) == 1,
        value: octets::part(s, 1),
    }
}

// ---- parameters: flag, identifier, currency, maximum balance, maximum debit, bank information, the agent's AID

const IDENTIFIER_AT: usize = 1;

const CURRENCY_AT: usize = IDENTIFIER_AT + 4;

const MAXBALANCE_AT: usize = CURRENCY_AT + 2;

const MAXDEBIT_AT: usize = MAXBALANCE_AT + 2;

const BANK_AT: usize = MAXDEBIT_AT + 2;

const AGENT_AT: usize = BANK_AT + BANK_SIZE;

const PARAMETERS_SIZE: usize = AGENT_AT + AID_SIZE;

// Their bytes. By value: of the three numbers behind a reference a proof doesn't know that they fit.
#[tactic(auto, unfolding(crate::specs::Structs::parameter_bytes))]
fn parameter_bytes(p: Parameters) -> [u8; PARAMETERS_SIZE]
    ensures { result ≡ parameter_bytes p }
{
    join(&[
        &[u8::from(p.personalized)],
        &p.identifier,
        &p.currency.to_be_bytes(),
        &p.maxbalance.to_be_bytes(),
        &p.maxdebit.to_be_bytes(),
        &bank_bytes(&p.bank),
        &aid_bytes(&p.agent),
    ])
}

// The parameters that bytes say.
#[tactic(auto, unfolding(crate::specs::Structs::parameters_in))]
fn parameters_in(s: &[u8]) -> Parameters
    ensures { result ≡ parameters_in s.now }
{
    Parameters {
        personalized: byte_at(s, 0) == 1,
        identifier: octets::part(s, IDENTIFIER_AT),
        currency: word_at(s, CURRENCY_AT),
        maxbalance: word_at(s, MAXBALANCE_AT),
        maxdebit: word_at(s, MAXDEBIT_AT),
        bank: bank_in(part(s, BANK_AT, BANK_SIZE)),
        agent: aid_in(part(s, AGENT_AT, AID_SIZE)),
    }
}

// ---- a key set that may be undefined: flag, keys

const KEY_SET_SIZE: usize = 1 + KEYS_SIZE;

// Its bytes.
#[tactic(auto, unfolding(crate::specs::Structs::key_set_bytes))]
fn key_set_bytes(k: &KeySet) -> [u8; KEY_SET_SIZE]
    ensures { result ≡ key_set_bytes k.now }
{
    join(&[&[u8::from(k.defined)], &keys_bytes(&k.keys)])
}

// The key set that bytes say.
#[tactic(auto, unfolding(crate::specs::Structs::key_set_in))]
fn key_set_in(s: &[u8]) -> KeySet
    ensures { result ≡ key_set_in s.now }
{
    KeySet {
        defined: byte_at(s, 0) == 1,
        keys: Keys::from_bytes(part(s, 1, KEYS_SIZE)),
    }
}

// ---- what all purses share: maximum transaction number, key set 3

const SHARED_SIZE: usize = 2 + KEYS_SIZE;

// Its bytes.
#[tactic(auto, unfolding(crate::specs::Structs::shared_bytes))]
fn shared_bytes(d: &Shared) -> [u8; SHARED_SIZE]
    ensures { result ≡ shared_bytes d.now }
{
    join(&[&d.maxnumber.to_be_bytes(), &keys_bytes(&d.admin)])
}

// The shared data that bytes say.
#[tactic(auto, unfolding(crate::specs::Structs::shared_in))]
fn shared_in(s: &[u8]) -> Shared
    ensures { result ≡ shared_in s.now }
{
    Shared {
        maxnumber: word_at(s, 0),
        admin: Keys::from_bytes(part(s, 2, KEYS_SIZE)),
    }
}

// ---- the PIN: flag, block

const PIN_SIZE: usize = 1 + 8;

// Its bytes.
#[tactic(auto, unfolding(crate::specs::Structs::pin_bytes))]
fn pin_bytes(p: &Pin) -> [u8; PIN_SIZE]
    ensures { result ≡ pin_bytes p.now }
{
    join(&[&[u8::from(p.defined)], &p.block])
}

// The PIN that bytes say.
#[tactic(auto, unfolding(crate::specs::Structs::pin_in))]
fn pin_in(s: &[u8]) -> Pin
    ensures { result ≡ pin_in s.now }
{
    Pin {
        defined: byte_at(s, 0) == 1,
        block: octets::part(s, 1),
    }
}

// ---- the fixed part: the purse's AID, log size, most tries

pub const LOGSIZE_AT: usize = AID_SIZE;

const MAXTRIES_AT: usize = LOGSIZE_AT + 1;

pub const FIXED_SIZE: usize = MAXTRIES_AT + 1;

// Its bytes.
#[tactic(auto, unfolding(crate::specs::Structs::fixed_bytes))]
pub fn fixed_bytes(a: &Aid, f: &Fixed) -> [u8; FIXED_SIZE]
    ensures { result ≡ fixed_bytes a.now f.now }
{
    join(&[&aid_bytes(a), &[f.logsize], &[f.maxtries]])
}

// Log size and most tries.
#[tactic(auto, unfolding(crate::specs::Structs::fixed_in))]
fn fixed_in(s: &[u8]) -> Fixed
    ensures { result ≡ fixed_in s.now }
{
    Fixed {
        logsize: byte_at(s, LOGSIZE_AT),
        maxtries: byte_at(s, MAXTRIES_AT),
    }
}

// ---- block H: number, tries, the newest record's slot, how many records were made, the purse's balance

const TRIES_AT: usize = 2;

pub const NEWEST_AT: usize = TRIES_AT + 1;

pub const FILLED_AT: usize = NEWEST_AT + 1;

const BALANCE_AT: usize = FILLED_AT + 1;

pub const HOT_SIZE: usize = BALANCE_AT + 2;

// Its bytes.
#[tactic(auto, unfolding(crate::specs::Structs::hot_bytes))]
pub fn hot_bytes(s: &State, newest: u8, filled: u8, balance: u16) -> [u8; HOT_SIZE]
    ensures { result ≡ hot_bytes s.now newest filled balance }
{
    join(&[
        &s.number.to_be_bytes(),
        &[s.tries],
        &[newest],
        &[filled],
        &balance.to_be_bytes(),
    ])
}

// Number and tries.
#[tactic(auto, unfolding(crate::specs::Structs::state_in))]
fn state_in(s: &[u8]) -> State
    ensures { result ≡ state_in s.now }
{
    State {
        number: word_at(s, 0),
        tries: byte_at(s, TRIES_AT),
    }
}

// ---- block C: shared data, PIN, parameters, key set 1, key set 2

const PIN_AT: usize = SHARED_SIZE;

pub const PARAMETERS_AT: usize = PIN_AT + PIN_SIZE;

const DEBIT_AT: usize = PARAMETERS_AT + PARAMETERS_SIZE;

const CREDIT_AT: usize = DEBIT_AT + KEY_SET_SIZE;

pub const COLD_SIZE: usize = CREDIT_AT + KEY_SET_SIZE;

// Its bytes.
#[tactic(auto, unfolding(crate::specs::Structs::cold_bytes))]
pub fn cold_bytes(h: &Head) -> [u8; COLD_SIZE]
    ensures { result ≡ cold_bytes h.now }
{
    join(&[
        &shared_bytes(&h.shared),
        &pin_bytes(&h.pin),
        &parameter_bytes(h.purse.parameters),
        &key_set_bytes(&h.purse.debit),
        &key_set_bytes(&h.purse.credit),
    ])
}

// ---- the head of the three

// A purse: its AID from the fixed part, its balance from H, all else from C.
#[tactic(auto, unfolding(crate::specs::Structs::purse_in))]
fn purse_in(fixed: &[u8], hot: &[u8], cold: &[u8]) -> Purse
    ensures { result ≡ purse_in fixed.now hot.now cold.now }
{
    Purse {
        aid: aid_in(part(fixed, 0, AID_SIZE)),
        parameters: parameters_in(part(cold, PARAMETERS_AT, PARAMETERS_SIZE)),
        debit: key_set_in(part(cold, DEBIT_AT, KEY_SET_SIZE)),
        credit: key_set_in(part(cold, CREDIT_AT, KEY_SET_SIZE)),
        balance: word_at(hot, BALANCE_AT),
    }
}

// The head that the fixed part, H and C say.
#[tactic(auto, unfolding(crate::specs::Structs::head_of))]
pub fn head_of(fixed: &[u8], hot: &[u8], cold: &[u8]) -> Head
    ensures { result ≡ head_of fixed.now hot.now cold.now }
{
    Head {
        fixed: fixed_in(fixed),
        shared: shared_in(part(cold, 0, SHARED_SIZE)),
        purse: purse_in(fixed, hot, cold),
        pin: pin_in(part(cold, PIN_AT, PIN_SIZE)),
        state: state_in(hot),
    }
}
