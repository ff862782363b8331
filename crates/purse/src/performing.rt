// What a command's outcome does to memory and the response area.
ghost use Rattle.std.specs.Prelude.{◌≡◌, ltb};
ghost use Rattle.octets.specs.Buffers.{content};
ghost use Rattle.octets.specs.Bytes.{paste};
ghost use Rattle.octets.specs.Choice.{pick};
ghost use Rattle.commands_spec.specs.Outcomes.{commits_of};
ghost use Rattle.purse_spec.specs.Commands.{outcome_run};
ghost use Rattle.purse.specs.Called.{Gives};
ghost use Rattle.purse.specs.Made.{Made};

use crate::calls::{Called, finish};
use card::Change;
use commands_spec::{Commits, Outcome};
use memory::commit;
use octets::Buffer;

// The commits of an outcome, in their order.
#[tactic(auto, using(crate::proofs::Outcomes::hot_length))]
fn commit_all(memory: &mut [u8], outcome: &Outcome, limit: usize) -> usize
    ensures { Made (commits_of outcome.now) memory.old limit result memory.new }
{
    let head = outcome.head;
    match outcome.commits {
        Commits::Unchanged => 0,
        Commits::Hot => commit(memory, Change::hot(head), limit),
        Commits::HotAndRecord => commit(memory, Change::logged(head, outcome.logged), limit),
        Commits::HotAndCold => commit(memory, Change::cold(head), limit),
        Commits::HotTwice(first) => {
            let n = commit(memory, Change::hot(head.with_state(first)), limit);
            n + commit(memory, Change::hot(head), limit.saturating_sub(n))
        }
    }
}

// The response of a run of `n` stores, unless it was cut.
fn answer(area: &mut [u8], reply: &Buffer, n: usize, limit: usize)
    ensures { area.new ≡ pick (ltb limit n) area.old (paste area.old 0 (content reply.now)) }
{
    if n <= limit {
        reply.copy_front(area);
    }
}

// Memory first, then the response.
pub fn perform(memory: &mut [u8], outcome: &Outcome, area: &mut [u8], limit: usize) -> Called
    ensures { Gives (outcome_run outcome.now memory.old area.old limit)
        result memory.new area.new }
{
    let n = commit_all(memory, outcome, limit);
    answer(area, &outcome.reply, n, limit);
    finish(n, limit, outcome.reply.as_slice().len(), outcome.session)
}
