// GET DATA: a data object's length and value.
ghost use Rattle.std.specs.Prelude.{◌≡◌};
ghost use Rattle.commands_spec.specs.GetData.{get_data_of};

use commands_spec::{Commits, Outcome};
use objects::{Context, datum, done};
use octets::Buffer;

// GET DATA past step 5.
#[tactic(auto, using(crate::proofs::Pieces::measured, objects::proofs::Answers::done_held), unfolding(commands_spec::specs::GetData::get_data_of))]
pub fn get_data(context: &Context, tag: u8) -> Outcome
    ensures { result ≡ get_data_of context.now.head context.now.session tag }
{
    let value = datum(&context.head, context.session.verified, tag);
    let value = value.as_slice();
    let mut answer = Buffer::of(&[value.len() as u8]);
    answer.append(value);
    done(
        Commits::Unchanged,
        context.head,
        context.session.ended(),
        answer,
    )
}
