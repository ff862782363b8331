// What a command gives that passed its rules and has no answer of its own.
ghost use Rattle.std.specs.Prelude.{[], ◌≡◌};
ghost use Rattle.commands_spec.specs.Outcomes.{done};

use card::Head;
use commands_spec::{Commits, Outcome};
use objects::done;
use octets::Buffer;
use session::Session;

// A changed card, and 9000 alone.
#[tactic(auto, using(objects::proofs::Answers::done_held))]
pub fn granted(commits: Commits, head: Head, session: Session) -> Outcome
    ensures { result ≡ done commits head session [] }
{
    done(commits, head, session, Buffer::new())
}
