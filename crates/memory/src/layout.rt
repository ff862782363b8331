// Where the parts of a card lie under a root.
ghost use Rattle.std.specs.Prelude.{◌≡◌, ◌<◌};
ghost use Rattle.memory.specs.Layout.{hot_at, cold_at, next_root, slot, slot_at};

use card::log::RECORD_SIZE;

pub const MEMORY_SIZE: usize = 4096;

pub const MAGIC: u8 = 0xD2;

pub const ROOT_AT: usize = 1;

pub const FIXED_AT: usize = 2;

const RING_AT: usize = 2048;

// The live copy of H.
pub fn hot_at(root: u8) -> usize
    ensures { result ≡ hot_at root }
{
    64 + 64 * (root as usize % 2)
}

// The live copy of C.
pub fn cold_at(root: u8) -> usize
    ensures { result ≡ cold_at root }
{
    256 + 768 * (root as usize / 2 % 2)
}

// The root with the other copy of H, and of C where that was written.
pub fn next_root(cold: bool, root: u8) -> u8
    ensures { result ≡ next_root cold root }
{
    let live = root / 2 % 2;
    let copy = if cold { 1 - live } else { live };
    copy * 2 + (1 - root % 2)
}

// The slot of the record that `k` newer ones follow.
#[tactic(auto, unfolding(crate::specs::Layout::slot))]
pub fn slot(size: u8, newest: u8, k: usize) -> usize
    ensures { (result ≡ slot size newest k) × (result < 512) }
{
    let newest = newest as usize;
    if k <= newest {
        newest - k
    } else {
        (newest + size as usize + 1).saturating_sub(k)
    }
}

// The spare slot, which the next record takes.
#[tactic(auto, unfolding(crate::specs::Layout::slot))]
pub fn spare(size: u8, newest: u8) -> u8
    ensures { result ≡ slot size newest size }
{
    if size <= newest {
        newest - size
    } else {
        newest + 1
    }
}

// Where a slot starts.
pub fn slot_at(j: usize) -> usize
    requires { j < 512 }
    ensures { result ≡ slot_at j }
{
    RING_AT + RECORD_SIZE * j
}
