// Steps 1 to 5: the command's bytes, its instruction, selection, parameters and length.
ghost use Rattle.std.specs.Prelude.{◌≡◌, MatchResult};
ghost use Rattle.apdu.specs.Refusals.{refusal_word};
ghost use Rattle.session.specs.Transitions.{ended};
ghost use Rattle.commands_spec.specs.Outcomes.{refused};
ghost use Rattle.commands_spec.specs.Respond.{respond_to};

use crate::plain::plain;
use crate::request::Request;
use crate::signed::authorized;
use apdu::{Instruction, Refusal, classify, parse, plain_status, signed_status};
use card::{Head, Record};
use commands_spec::Outcome;
use objects::Context;
use session::Session;
use tdes::Engine;

// What the command gives, or the first refusal of steps 1 to 5.
#[tactic(auto, unfolding(commands_spec::specs::Respond::respond_to, commands_spec::specs::Respond::on_parsed, commands_spec::specs::Respond::on_instruction, commands_spec::specs::Outcomes::decided))]
fn respond_in(
    context: &Context,
    found: &Record,
    command: &[u8],
    random: [u8; 8],
) -> Result<Outcome, Refusal>
    ensures { MatchResult result
        (λ o. o ≡ respond_to context.now.head found.now context.now.session command.now random)
        (λ r. refused context.now.head (ended context.now.session) (refusal_word r)
        ≡ respond_to context.now.head found.now context.now.session command.now random) }
{
    let header = parse(command)?;
    let request = Request { command, header };
    let selected = context.session.selected;
    match classify(header.cla, header.ins)? {
        Instruction::IsPlain(p) => {
            plain_status(p, selected, header, context.head.fixed.logsize)?;
            Ok(plain(p, context, &request, found, random))
        }
        Instruction::IsSigned(g) => {
            signed_status(g, selected, header)?;
            Ok(authorized(g, context, &request))
        }
    }
}

// A command on a card's head; `found` is the log record that the command would read.
pub fn respond(
    engine: Engine,
    head: Head,
    found: Record,
    session: Session,
    command: &[u8],
    random: [u8; 8],
) -> Outcome
    ensures { result ≡ respond_to head found session command.now random }
{
    let context = Context {
        engine,
        head,
        session,
    };
    match respond_in(&context, &found, command, random) {
        Ok(outcome) => outcome,
        Err(refusal) => context.refused(refusal),
    }
}
