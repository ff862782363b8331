// READ RECORD: the log record that the caller found.
ghost use Rattle.std.specs.Prelude.{◌≡◌};
ghost use Rattle.commands_spec.specs.ReadRecord.{read_record_of};

use card::Record;
use commands_spec::{Commits, Outcome};
use objects::{Context, done};
use octets::Buffer;

// READ RECORD past step 5.
#[tactic(auto, using(octets::proofs::Holding::of_piece, objects::proofs::Answers::done_held), unfolding(commands_spec::specs::ReadRecord::read_record_of))]
pub fn read_record(context: &Context, found: &Record) -> Outcome
    ensures { result ≡ read_record_of context.now.head context.now.session found.now }
{
    let answer = Buffer::of(&found.to_bytes());
    done(
        Commits::Unchanged,
        context.head,
        context.session.ended(),
        answer,
    )
}
