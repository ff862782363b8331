// Single-byte stores under a limit, over any memory.
#![tactic(auto)]

ghost use Rattle.std.specs.Prelude.{[], ◌∷◌, ◌+◌, ◌≤◌, ◌<◌, ◌≡◌, length};
ghost use Rattle.octets.specs.Bytes.{paste};
ghost use Rattle.stores.specs.Stores.{writes};
ghost use Rattle.stores.specs.Writing.{Makes};

// A run over memory: `room` is the number of stores that it may still make. A store is made where there is room.
#[derive(Drop)]
pub struct Writer<'a> {
    pub memory: &'a mut [u8],
    pub room: usize,
}

// The bytes over memory from an address on. By index: `copy_from_slice` of areas that may overlap becomes a call of `memmove`, which the
// library for C would need from outside.
fn copy(memory: &mut [u8], at: usize, bytes: &[u8])
    requires { at + length bytes.now ≤ length memory.old }
    ensures { memory.new ≡ paste memory.old at bytes.now }
{
    for (i, byte) in bytes.iter().enumerate() {
        memory[at + i] = *byte;
    }
}

impl<'a> Writer<'a> {
    // One store.
    pub fn put(&mut self, at: usize, value: u8)
        ensures { Makes (writes at (value ∷ [])) self.old self.new }
    {
        if self.room != 0 {
            // no `get_mut`: once its borrow is over, a proof knows no byte of the slice
            if at < self.memory.len() {
                self.memory[at] = value;
            }
            self.room -= 1;
        }
    }

    // The bytes from an address on, a store each; copied at once where there is room for all of them.
    pub fn put_bytes(&mut self, at: usize, bytes: &[u8])
        ensures { Makes (writes at bytes.now) self.old self.new }
    {
        if self.memory.len() <= at {
            self.room = self.room.saturating_sub(bytes.len());
        } else if bytes.len() <= self.memory.len() - at && self.room >= bytes.len() {
            copy(self.memory, at, bytes);
            self.room -= bytes.len();
        } else {
            self.put_each(at, bytes);
        }
    }

    // The same store by store.
    fn put_each(&mut self, at: usize, bytes: &[u8])
        requires { at < length self.old.memory.now }
        ensures { Makes (writes at bytes.now) self.old self.new }
    {
        for (i, byte) in bytes.iter().enumerate() {
            self.put(at + i, *byte);
        }
    }
}
