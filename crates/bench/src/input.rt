// The bytes that are read and that no turn has used.
ghost use Rattle.std.specs.Prelude.{◌≡◌, ◌+◌, ◌≤◌, IfOk, take, drop};

use std::io::{self, Read};

// The input area, and the output area.
pub const AREA_SIZE: usize = 65536;

// The bytes in hand, at the front of their area: of fixed size, as all memory of the program is.
#[derive(Drop)]
pub struct Input {
    pub area: [u8; AREA_SIZE],
    pub have: usize,
    ghost inside: { have ≤ 65536 },
}

impl Input {
    // None yet.
    pub fn new() -> Input {
        Input {
            area: [0; AREA_SIZE],
            have: 0,
        }
    }

    // The bytes themselves.
    pub fn bytes(&self) -> &[u8]
        ensures { result.now ≡ take self.now.have self.now.area }
    {
        &self.area[..self.have]
    }

    // Reads once, behind them, and answers how many more they are.
    pub fn read(&mut self, file: &mut impl Read) -> io::Result<usize>
        ensures { IfOk result (λ n. self.new.have ≡ self.old.have + n) }
    {
        let n = file.read(&mut self.area[self.have..])?;
        self.have += n;
        Ok(n)
    }

    // Keeps those behind the used ones.
    pub fn keep(&mut self, used: usize)
        ensures { take self.new.have self.new.area ≡ drop used (take self.old.have self.old.area) }
    {
        self.have = framing::keep(&mut self.area, used, self.have);
    }
}
