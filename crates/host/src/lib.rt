// The purse for C programs: installation, start-up and command over byte areas, the session in an area of 128 bytes. The result is one
// number: the answer, the response's length and the reported stores. `include/purse.h` declares the three functions.
#![tactic(auto)]

mod result;

ghost use Rattle.std.specs.Prelude.{[], ◌≡◌};
ghost use Rattle.host.specs.Host.{handed, install_call, start_call, command_call};

use memory::MEMORY_SIZE;
use purse::{Answer, LEAST_AREA};
use result::{refused, result};
use session::Session;
use tdes::Engine;

// The session area's size.
pub const SESSION_SIZE: usize = 128;

// The answer of a C host alone: the session area has another size, or reads as no session.
const NO_SESSION: u64 = 8;

// Installation: a fresh card on any memory. `bytes` are the installation data.
// Start-up has the same two tests, and no function of both is plainer: it would hand back an Option to test again, or take the call as
// a closure, and ask in its contract that the call's run be small.
#[tactic(auto, unfolding(crate::specs::Host::install_call, crate::specs::Host::length_tested, crate::specs::Host::number))]
#[unsafe(no_mangle)]
pub extern "C" fn purse_install(
    memory: &mut [u8],
    session: &mut [u8],
    bytes: &[u8],
    limit: usize,
) -> u64
    ensures { handed result memory.new session.new []
        ≡ install_call memory.old session.old bytes.now limit }
{
    if memory.len() != MEMORY_SIZE {
        return refused(Answer::MemoryLength);
    }
    if session.len() != SESSION_SIZE {
        return NO_SESSION;
    }
    let called = purse::install(memory, bytes, limit);
    result(session, &called)
}

// Start-up: the unselected session on a card.
#[tactic(auto, unfolding(crate::specs::Host::start_call, crate::specs::Host::length_tested, crate::specs::Host::number))]
#[unsafe(no_mangle)]
pub extern "C" fn purse_start_up(memory: &mut [u8], session: &mut [u8], limit: usize) -> u64
    ensures { handed result memory.new session.new []
        ≡ start_call memory.old session.old limit }
{
    if memory.len() != MEMORY_SIZE {
        return refused(Answer::MemoryLength);
    }
    if session.len() != SESSION_SIZE {
        return NO_SESSION;
    }
    let called = purse::start_up(memory, limit);
    result(session, &called)
}

// A command, in the session that its area reads as.
#[tactic(auto, using(crate::proofs::Outcomes::command_none), unfolding(crate::specs::Host::command_call, crate::specs::Host::number))]
#[unsafe(no_mangle)]
pub extern "C" fn purse_command(
    memory: &mut [u8],
    session: &mut [u8],
    command: &[u8],
    random: &[u8],
    response: &mut [u8],
    limit: usize,
) -> u64
    ensures { handed result memory.new session.new response.new
        ≡ command_call memory.old session.old command.now
        random.now response.old limit }
{
    if memory.len() != MEMORY_SIZE {
        return refused(Answer::MemoryLength);
    }
    if response.len() < LEAST_AREA {
        return refused(Answer::AreaLength);
    }
    if random.len() != 8 {
        return refused(Answer::RandomLength);
    }
    let Some(current) = Session::unpack(session) else {
        return NO_SESSION;
    };
    let called = purse::command(
        Engine::Quick,
        memory,
        current,
        command,
        random,
        response,
        limit,
    );
    result(session, &called)
}
