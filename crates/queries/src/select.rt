// SELECT: the card's AID, whole, or 6A82.
ghost use Rattle.std.specs.Prelude.{◌≡◌, ◌≤◌, length};
ghost use Rattle.octets.specs.Buffers.{holding};
ghost use Rattle.commands_spec.specs.Select.{select_answer, select_of};

use apdu::Refusal;
use card::Head;
use commands_spec::{Commits, Outcome};
use objects::{Context, administrative, done, operational, refused};
use octets::Buffer;

// Identifier, administrative and operational status.
#[tactic(auto, using(crate::proofs::Pieces::three), unfolding(commands_spec::specs::Select::select_answer))]
fn select_answer(head: &Head, verified: bool) -> Buffer
    ensures holds { result ≡ holding (select_answer head.now verified) }
    ensures bound { length (select_answer head.now verified) ≤ 126 }
{
    let mut answer = Buffer::of(&head.purse.parameters.identifier);
    answer.append(&[administrative(head, verified)]);
    answer.append(&operational(head));
    answer
}

// SELECT past step 5.
#[tactic(auto, using(objects::proofs::Answers::done_held), unfolding(commands_spec::specs::Select::select_of))]
pub fn select(context: &Context, aid: &[u8]) -> Outcome
    ensures { result ≡ select_of context.now.head context.now.session aid.now }
{
    let Context { head, session, .. } = context;
    if aid != head.purse.aid.as_slice() {
        return refused(
            *head,
            session.reselected(false),
            u16::from(Refusal::UnknownApplication),
        );
    }
    let answer = select_answer(head, session.verified);
    done(Commits::Unchanged, *head, session.reselected(true), answer)
}
