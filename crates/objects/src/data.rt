// The data objects: what a value sets, and what a tag reads as.
ghost use Rattle.std.specs.Prelude.{◌≡◌, ◌≤◌, length};
ghost use Rattle.octets.specs.Buffers.{holding};
ghost use Rattle.commands_spec.specs.Data.{agent_of, bank_of, datum, datum_set, parameter_set};

use crate::status::administrative;
use card::{Aid, Bank, Head, Parameters};
use channel::bank_received;
use octets::{Buffer, part, word_at};
use tdes::Engine;

// Bank information as it was before it was sent; undefined where there is none.
#[tactic(auto, unfolding(commands_spec::specs::Data::bank_of))]
fn bank_of(engine: Engine, dek: [u8; 16], v: &[u8]) -> Bank
    ensures { result ≡ bank_of dek v.now }
{
    if v.is_empty() {
        return Bank {
            defined: false,
            value: [0; 16],
        };
    }
    Bank {
        defined: true,
        value: bank_received(engine, dek, part(v, 0)),
    }
}

// An agent's AID; undefined where it is empty.
#[tactic(auto, unfolding(commands_spec::specs::Data::agent_of))]
fn agent_of(v: &[u8]) -> Aid
    ensures { result ≡ agent_of v.now }
{
    Aid {
        size: v.len().min(16) as u8,
        bytes: part(v, 0),
    }
}

// The parameters with the value of a tag of 01 to 04, 06 or 07. Tags are 01's numbers and no enum, and engine and DEK, tag and value stand
// apart, as in the definitions `parameter_set`, `datum_set` and `value_ok`, which answer for every number.
#[tactic(auto, unfolding(commands_spec::specs::Data::parameter_set))]
fn parameter_set(engine: Engine, dek: [u8; 16], tag: u8, v: &[u8], p: &Parameters) -> Parameters
    ensures { result ≡ parameter_set dek tag v.now p.now }
{
    match tag {
        0x01 => Parameters {
            identifier: part(v, 0),
            ..*p
        },
        0x02 => Parameters {
            currency: word_at(v, 0),
            ..*p
        },
        0x03 => Parameters {
            maxbalance: word_at(v, 0),
            ..*p
        },
        0x04 => Parameters {
            maxdebit: word_at(v, 0),
            ..*p
        },
        0x06 => Parameters {
            bank: bank_of(engine, dek, v),
            ..*p
        },
        0x07 => Parameters {
            agent: agent_of(v),
            ..*p
        },
        _ => *p,
    }
}

// The head with the value of a tag of 01 to 07.
#[tactic(auto, unfolding(commands_spec::specs::Data::datum_set))]
pub fn datum_set(engine: Engine, dek: [u8; 16], tag: u8, v: &[u8], head: &Head) -> Head
    ensures { result ≡ datum_set dek tag v.now head.now }
{
    if tag == 0x05 {
        return head.with_maxnumber(word_at(v, 0));
    }
    head.with_parameters(parameter_set(engine, dek, tag, v, &head.purse.parameters))
}

// What a tag reads as, 16 bytes at most; nothing where bank information or the agent's AID is undefined.
#[tactic(auto, using(octets::proofs::Holding::of_piece), unfolding(commands_spec::specs::Data::datum))]
pub fn datum(head: &Head, verified: bool, tag: u8) -> Buffer
    ensures holds { result ≡ holding (datum head.now verified tag) }
    ensures bound { length (datum head.now verified tag) ≤ 16 }
{
    let parameters = &head.purse.parameters;
    match tag {
        0x01 => Buffer::of(&parameters.identifier),
        0x02 => Buffer::of(&parameters.currency.to_be_bytes()),
        0x03 => Buffer::of(&parameters.maxbalance.to_be_bytes()),
        0x04 => Buffer::of(&parameters.maxdebit.to_be_bytes()),
        0x05 => Buffer::of(&head.shared.maxnumber.to_be_bytes()),
        0x06 if parameters.bank.defined => Buffer::of(&parameters.bank.value),
        0x07 => Buffer::of(parameters.agent.as_slice()),
        0x14 => Buffer::of(&head.state.number.to_be_bytes()),
        0x15 => Buffer::of(&head.purse.balance.to_be_bytes()),
        0x16 => Buffer::of(&[head.state.tries]),
        0x17 => Buffer::of(&[administrative(head, verified)]),
        _ => Buffer::new(),
    }
}
