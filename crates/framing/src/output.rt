// Lines, in the output area.
ghost use Rattle.std.specs.Prelude.{◌≡◌, ◌+◌, ◌≤◌, ◌<◌, leb, length};
ghost use Rattle.framing.specs.Step.{PutsBehind};

// The output area, and how many bytes at its front are written. No heap is there for a `Vec`, and the lines go to an area that is lent.
#[derive(Drop)]
pub struct Output<'a> {
    pub area: &'a mut [u8],
    pub written: usize,
}

impl<'a> Output<'a> {
    // Nothing is written yet.
    pub fn new(area: &'a mut [u8]) -> Output<'a>
        ensures same_area { result.area.ghost_name ≡ area.entry.ghost_name }
        ensures area { result.area.now ≡ area.old }
        ensures written { result.written ≡ 0 }
    {
        Output { area, written: 0 }
    }

    // Whether a line of so many bytes has room behind what is written.
    pub fn has_room(&self, n: usize) -> bool
        ensures { result ≡ leb (self.now.written + n) (length self.now.area.now) }
    {
        self.written <= self.area.len() && n <= self.area.len() - self.written
    }

    // One line more; nothing where it has no room.
    pub fn append(&mut self, line: &[u8])
        ensures same_area { self.new.area.ghost_name ≡ self.old.area.ghost_name }
        ensures puts { self.old.written + length line.now ≤ length self.old.area.now → PutsBehind line.now self.old self.new }
        ensures full { length self.old.area.now < self.old.written + length line.now
            → (self.new.written ≡ self.old.written) × (self.new.area.now ≡ self.old.area.now) }
    {
        if self.has_room(line.len()) {
            octets::paste(self.area, self.written, line);
            self.written += line.len();
        }
    }
}
