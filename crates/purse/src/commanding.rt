// A command: the answers in document 01's order, then the command on the card that memory reads as.
ghost use Rattle.std.specs.Prelude.{◌≡◌};
ghost use Rattle.memory.specs.Reading.{record_at};
ghost use Rattle.commands_spec.specs.ReadRecord.{asked};
ghost use Rattle.purse_spec.specs.Commands.{command};
ghost use Rattle.purse.specs.Called.{Gives};

use crate::calls::{Answer, Called, storeless};
use crate::performing::perform;
use card::Record;
use commands::respond;
use memory::{MEMORY_SIZE, record_at};
use octets::{byte_at, part};
use session::Session;
use tdes::Engine;

// The response area's least size, which every response fits.
pub const LEAST_AREA: usize = 32;

// The log record that READ RECORD would read: record 1 is the newest.
#[tactic(auto, unfolding(commands_spec::specs::ReadRecord::asked))]
fn asked_record(memory: &[u8], bytes: &[u8]) -> Record
    ensures { result ≡ record_at memory.now (asked bytes.now) }
{
    record_at(memory, usize::from(byte_at(bytes, 2)).saturating_sub(1))
}

// Answers 0 to 4 and 7. The response leads the area after 0.
#[tactic(auto, using(crate::proofs::Requests::memory_sized, crate::proofs::Requests::area_sized, crate::proofs::Requests::random_sized, crate::proofs::Requests::no_card_lem))]
pub fn command(
    engine: Engine,
    memory: &mut [u8],
    session: Session,
    bytes: &[u8],
    random: &[u8],
    area: &mut [u8],
    limit: usize,
) -> Called
    ensures { Gives (command memory.old session bytes.now random.now area.old limit)
        result memory.new area.new }
{
    if memory.len() != MEMORY_SIZE {
        return storeless(Answer::MemoryLength, session);
    }
    if area.len() < LEAST_AREA {
        return storeless(Answer::AreaLength, session);
    }
    if random.len() != 8 {
        return storeless(Answer::RandomLength, session);
    }
    let Some(head) = memory::read(memory) else {
        return storeless(Answer::NoCard, session);
    };
    let asked = asked_record(memory, bytes);
    let outcome = respond(engine, head, asked, session, bytes, part(random, 0));
    perform(memory, &outcome, area, limit)
}
