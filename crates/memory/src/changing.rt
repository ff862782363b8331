// How a card changes in memory: into what is not live, and the root last. A run makes the first of its stores, as many as the limit
// allows; it hands back how many stores it has in all, cut or not.
ghost use Rattle.std.specs.Prelude.{◌≡◌, length, unwrap_or, []};
ghost use Rattle.stores.specs.Stores.{leaves};
ghost use Rattle.memory.specs.Changes.{newest_after, filled_after, hot_piece, record_piece, cold_piece, plan};

use crate::layout;
use crate::reading::{filled_in, newest_in, size_in};
use crate::structs::{COLD_SIZE, HOT_SIZE, cold_bytes, hot_bytes};
use card::Change;
use card::log::RECORD_SIZE;
use stores::Writer;

// The newest slot after a change.
fn newest_after(memory: &[u8], logs: bool) -> u8
    ensures { result ≡ newest_after logs memory.now }
{
    let newest = newest_in(memory);
    if logs {
        layout::spare(size_in(memory), newest)
    } else {
        newest
    }
}

// How many records were made after a change: one more where it logs, at most the log's size.
fn filled_after(memory: &[u8], logs: bool) -> u8
    ensures { result ≡ filled_after logs memory.now }
{
    let filled = filled_in(memory);
    if logs && filled < size_in(memory) {
        filled + 1
    } else {
        filled
    }
}

// Block H after a change.
#[tactic(auto, unfolding(crate::specs::Changes::hot_after))]
fn hot_after(memory: &[u8], change: &Change) -> [u8; HOT_SIZE]
    ensures { result ≡ hot_piece change.now memory.now }
{
    let logs = change.logged.is_some();
    let head = &change.head;
    hot_bytes(
        &head.state,
        newest_after(memory, logs),
        filled_after(memory, logs),
        head.purse.balance,
    )
}

// The log record, where the change logs.
fn record_after(change: &Change) -> Option<[u8; RECORD_SIZE]>
    ensures { unwrap_or result [] ≡ record_piece change.now }
{
    // not by `map`, nor the next by `then`: the proof doesn't find what their closures return
    match change.logged {
        Some(record) => Some(record.to_bytes()),
        None => None,
    }
}

// Block C, where the change writes it.
fn cold_after(change: &Change) -> Option<[u8; COLD_SIZE]>
    ensures { unwrap_or result [] ≡ cold_piece change.now }
{
    if change.cold {
        Some(cold_bytes(&change.head))
    } else {
        None
    }
}

// The bytes of a part, none where it isn't written.
fn piece<const N: usize>(part: &Option<[u8; N]>) -> &[u8]
    ensures { result.now ≡ unwrap_or part.now [] }
{
    match part {
        Some(bytes) => bytes,
        None => &[],
    }
}

// H's other copy, the spare slot where the change logs, C's other copy where it changes C, and the root. Memory and limit are a whole
// run's, which begins here: a `Writer` has them from here on.
pub fn commit(memory: &mut [u8], change: Change, limit: usize) -> usize
    ensures { (result ≡ length (plan change memory.old))
        × (memory.new ≡ leaves (plan change memory.old) limit memory.old) }
{
    let live = octets::byte_at(memory, layout::ROOT_AT);
    let next = layout::next_root(change.cold, live);
    let spare = layout::spare(size_in(memory), newest_in(memory)) as usize;
    let hot = hot_after(memory, &change);
    let logged = record_after(&change);
    let record = piece(&logged);
    let changed = cold_after(&change);
    let cold = piece(&changed);
    let mut writer = Writer {
        memory,
        room: limit,
    };
    writer.put_bytes(layout::hot_at(next), &hot);
    writer.put_bytes(layout::slot_at(spare), record);
    writer.put_bytes(layout::cold_at(next), cold);
    writer.put(layout::ROOT_AT, next);
    hot.len() + record.len() + cold.len() + 1
}
