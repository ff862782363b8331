// INITIALIZE UPDATE: the session keys of a key set and two challenges.
ghost use Rattle.std.specs.Prelude.{◌≡◌, ◌≤◌, length};
ghost use Rattle.octets.specs.Buffers.{holding};
ghost use Rattle.commands_spec.specs.InitializeUpdate.{initialize_update_of, offer, update_answer};

use apdu::Refusal;
use card::Keys;
use channel::{card_cryptogram, host_cryptogram, session_key};
use commands_spec::{Commits, Outcome};
use objects::{Context, done, key_set_of};
use octets::Buffer;
use session::{Offer, Set};
use tdes::Engine;

// The session keys, and the host cryptogram that is to come.
#[tactic(auto, unfolding(commands_spec::specs::InitializeUpdate::offer))]
fn offer(engine: Engine, keys: &Keys, host: [u8; 8], card: [u8; 8]) -> Offer
    ensures { result ≡ offer keys.now host card }
{
    let enc = session_key(engine, keys.enc, host, card);
    Offer {
        enc,
        mac: session_key(engine, keys.mac, host, card),
        expected: host_cryptogram(engine, enc, host, card),
    }
}

// Ten zeros, set, 01, card challenge, card cryptogram.
#[tactic(auto, unfolding(commands_spec::specs::InitializeUpdate::update_answer))]
fn update_answer(engine: Engine, set: u8, enc: [u8; 16], host: [u8; 8], card: [u8; 8]) -> Buffer
    ensures holds { result ≡ holding (update_answer set enc host card) }
    ensures bound { length (update_answer set enc host card) ≤ 126 }
{
    let mut answer = Buffer::of(&[0; 10]);
    answer.append(&[set, 0x01]);
    answer.append(&card);
    answer.append(&card_cryptogram(engine, enc, host, card));
    answer
}

// INITIALIZE UPDATE past step 5.
#[tactic(auto, using(objects::proofs::Answers::done_held), unfolding(commands_spec::specs::InitializeUpdate::initialize_update_of))]
pub fn initialize_update(context: &Context, p1: u8, host: [u8; 8], card: [u8; 8]) -> Outcome
    ensures { result ≡ initialize_update_of context.now.head context.now.session p1 host card }
{
    let set = Set::from(p1);
    let known = key_set_of(set, &context.head);
    if !known.defined {
        return context.refused(Refusal::UndefinedKeySet);
    }
    let offer = offer(context.engine, &known.keys, host, card);
    let answer = update_answer(context.engine, p1, offer.enc, host, card);
    done(
        Commits::Unchanged,
        context.head,
        context.session.offered(set, offer),
        answer,
    )
}
