// The six commands without a C-MAC, past step 5.
ghost use Rattle.std.specs.Prelude.{true, ◌≡◌};
ghost use Rattle.apdu.specs.Lengths.{plain_length};
ghost use Rattle.apdu.specs.Parsing.{data_of};
ghost use Rattle.commands_spec.specs.Respond.{plain_of};
ghost use Rattle.commands_spec.specs.Select.{select_of};

use crate::request::Request;
use apdu::Plain;
use authentication::external_authenticate::external_authenticate;
use authentication::initialize_update::initialize_update;
use card::Record;
use commands_spec::Outcome;
use objects::Context;
use queries::get_data::get_data;
use queries::read_record::read_record;
use queries::select::select;
use transactions::verify_pin::verify_pin;

// SELECT, the one with data of any length.
fn select_data(context: &Context, request: &Request) -> Outcome
    ensures { result ≡ select_of context.now.head context.now.session
        (data_of request.now.command.now request.now.header.lc) }
{
    let n = usize::from(request.header.lc);
    if n == 0 {
        return select(context, &[]);
    }
    select(context, &request.command[5..5 + n])
}

// A command without a C-MAC, on its data.
#[tactic(auto, unfolding(commands_spec::specs::Respond::plain_of))]
pub fn plain(
    p: Plain,
    context: &Context,
    request: &Request,
    found: &Record,
    random: [u8; 8],
) -> Outcome
    requires { plain_length p request.now.header.lc ≡ true }
    ensures { result ≡ plain_of p context.now.head found.now context.now.session request.now.header request.now.command.now
        (data_of request.now.command.now request.now.header.lc) random }
{
    let header = &request.header;
    match p {
        Plain::Select => select_data(context, request),
        Plain::InitializeUpdate => initialize_update(context, header.p1, request.data(), random),
        Plain::ExternalAuthenticate => {
            external_authenticate(context, header.p1, request.command, request.data())
        }
        Plain::VerifyPin => verify_pin(context, request.data()),
        Plain::GetData => get_data(context, header.p2),
        Plain::ReadRecord => read_record(context, found),
    }
}
