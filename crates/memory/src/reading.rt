// The card that memory reads as.
ghost use Rattle.std.specs.Prelude.{◌≡◌, ◌<◌};
ghost use Rattle.octets.specs.Bytes.{byte_at, part};
ghost use Rattle.octets.specs.Tests.{all_true};
ghost use Rattle.card.specs.Log.{record_size};
ghost use Rattle.card.specs.Proper.{log_ok};
ghost use Rattle.memory.specs.Layout.{slot, slot_at};
ghost use Rattle.memory.specs.Structs.{hot_size, newest_in, filled_in};
ghost use Rattle.memory.specs.Reading.{hot_of, head_in, size_in, record_at, log_in, formed_tests, reading};

use crate::structs::part;
use crate::{layout, structs};
use card::log::RECORD_SIZE;
use card::{Head, Record};
use octets::byte_at;

// A byte of the live block H.
#[tactic(auto, using(crate::proofs::InPlace::hot_in))]
fn hot_byte(memory: &[u8], i: usize) -> u8
    requires { i < hot_size }
    ensures { result ≡ byte_at (hot_of memory.now) i }
{
    byte_at(memory, layout::hot_at(byte_at(memory, layout::ROOT_AT)) + i)
}

// The newest record's slot.
pub fn newest_in(memory: &[u8]) -> u8
    ensures { result ≡ newest_in (hot_of memory.now) }
{
    hot_byte(memory, structs::NEWEST_AT)
}

// How many records were made.
pub fn filled_in(memory: &[u8]) -> u8
    ensures { result ≡ filled_in (hot_of memory.now) }
{
    hot_byte(memory, structs::FILLED_AT)
}

// The log's size.
#[tactic(auto, using(octets::proofs::Parts::part_at), unfolding(crate::specs::Structs::fixed_in))]
pub fn size_in(memory: &[u8]) -> u8
    ensures { result ≡ size_in memory.now }
{
    byte_at(memory, layout::FIXED_AT + structs::LOGSIZE_AT)
}

// Whether the card is personalized.
#[tactic(auto, using(crate::proofs::InPlace::personalized_in))]
fn personalized_in(memory: &[u8]) -> bool
    ensures { result ≡ (head_in memory.now).purse.parameters.personalized }
{
    let root = byte_at(memory, layout::ROOT_AT);
    byte_at(memory, layout::cold_at(root) + structs::PARAMETERS_AT) == 1
}

// The slot of the record that `k` newer ones follow.
fn slot_in(memory: &[u8], k: usize) -> &[u8]
    ensures { result.now
        ≡ part memory.now (slot_at (slot (size_in memory.now) (newest_in (hot_of memory.now)) k)) record_size }
{
    let j = layout::slot(size_in(memory), newest_in(memory), k);
    part(memory, layout::slot_at(j), RECORD_SIZE)
}

// The record that `k` newer ones follow.
#[tactic(auto, unfolding(crate::specs::Reading::record_at))]
pub fn record_at(memory: &[u8], k: usize) -> Record
    ensures { result ≡ record_at memory.now k }
{
    if k < filled_in(memory) as usize {
        Record::from_bytes(slot_in(memory, k))
    } else {
        Record::void()
    }
}

// Whether every record is void or, on a personalized card, has a key set.
fn log_ok(memory: &[u8]) -> bool
    ensures { result ≡ log_ok (head_in memory.now).purse.parameters.personalized (log_in memory.now) }
{
    let personalized = personalized_in(memory);
    let made = filled_in(memory).min(size_in(memory)) as usize;
    (0..made).all(|k| Record::accepts(slot_in(memory, k), personalized))
}

// Size, magic, root, newest slot, number of records and log.
#[tactic(auto, unfolding(crate::specs::Reading::formed_tests, crate::specs::Reading::head_in, crate::specs::Structs::head_of))]
fn is_formed(memory: &[u8]) -> bool
    ensures { result ≡ all_true (formed_tests memory.now) }
{
    let size = size_in(memory);
    memory.len() == layout::MEMORY_SIZE
        && byte_at(memory, 0) == layout::MAGIC
        && byte_at(memory, layout::ROOT_AT) < 4
        && newest_in(memory) <= size
        && filled_in(memory) <= size
        && log_ok(memory)
}

// The head of the live parts.
#[tactic(auto, unfolding(crate::specs::Reading::head_in))]
fn head_in(memory: &[u8]) -> Head
    ensures { result ≡ head_in memory.now }
{
    let root = byte_at(memory, layout::ROOT_AT);
    let fixed = part(memory, layout::FIXED_AT, structs::FIXED_SIZE);
    let hot = part(memory, layout::hot_at(root), structs::HOT_SIZE);
    let cold = part(memory, layout::cold_at(root), structs::COLD_SIZE);
    structs::head_of(fixed, hot, cold)
}

// Any memory, of any length: the head of the card that it reads as, if it reads as one.
#[tactic(auto, using(crate::proofs::InPlace::readable_by), unfolding(crate::specs::Reading::reading))]
pub fn read(memory: &[u8]) -> Option<Head>
    ensures { result ≡ reading memory.now }
{
    if !is_formed(memory) {
        return None;
    }
    let head = head_in(memory);
    if head.is_proper() { Some(head) } else { None }
}
