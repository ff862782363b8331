// What a command gives: a refusal, or an answer.
ghost use Rattle.std.specs.Prelude.{◌≡◌};
ghost use Rattle.octets.specs.Buffers.{appended};
ghost use Rattle.octets.specs.Words.{word};
ghost use Rattle.card.specs.Log.{void};
ghost use Rattle.commands_spec.specs.Outcomes.{refused};

use card::{Head, Record};
use commands_spec::{Commits, Outcome};
use octets::Buffer;
use session::Session;

// A status word alone, on a card as it was. A number and no `Refusal`: the definition `refused` answers for every word.
#[tactic(auto, using(octets::proofs::Holding::of_piece), unfolding(commands_spec::specs::Outcomes::refused))]
pub fn refused(head: Head, session: Session, status: u16) -> Outcome
    ensures { result ≡ refused head session status }
{
    Outcome {
        status,
        commits: Commits::Unchanged,
        head,
        logged: Record::void(),
        reply: Buffer::of(&status.to_be_bytes()),
        session,
    }
}

// An answer in a buffer, and 9000; for one of at most 126 bytes that is the definition's `done` (law `done_held`).
pub fn done(commits: Commits, head: Head, session: Session, answer: Buffer) -> Outcome
    ensures { result ≡ record {
      status = 0x9000;
      commits = commits;
      head = head;
      logged = void;
      reply = appended answer (word 0x9000);
      session = session;
    } }
{
    let mut reply = answer;
    reply.append(&[0x90, 0x00]);
    Outcome {
        status: 0x9000,
        commits,
        head,
        logged: Record::void(),
        reply,
        session,
    }
}
