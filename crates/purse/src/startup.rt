// Start-up. It makes no store, so no limit cuts it.
ghost use Rattle.std.specs.Prelude.{[]};
ghost use Rattle.purse_spec.specs.Startup.{startup};
ghost use Rattle.purse.specs.Called.{Gives};

use crate::calls::{Answer, Called, storeless};
use memory::MEMORY_SIZE;
use session::Session;

// Answers 0, 1 and 2.
pub fn start_up(memory: &mut [u8], limit: usize) -> Called
    ensures { Gives (startup memory.old limit) result memory.new [] }
{
    let answer = if memory.len() != MEMORY_SIZE {
        Answer::MemoryLength
    } else if memory::read(memory).is_none() {
        Answer::NoCard
    } else {
        Answer::Done
    };
    storeless(answer, Session::unselected())
}
