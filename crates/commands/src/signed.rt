// Step 6, and the six commands with a C-MAC.
ghost use Rattle.std.specs.Prelude.{true, ◌≡◌, ◌-◌};
ghost use Rattle.apdu.specs.declared.instructions.Signed.TheVariants.{PinChange};
ghost use Rattle.apdu.specs.Lengths.{signed_length, mac_size};
ghost use Rattle.apdu.specs.Parsing.{data_of};
ghost use Rattle.commands_spec.specs.PinChange.{pin_change_of};
ghost use Rattle.commands_spec.specs.Respond.{signed_of, authorized};

use crate::request::Request;
use administration::pin_change::{change_pin, unblock_pin};
use administration::put_data::put_data;
use administration::put_key::put_key;
use administration::store_data::store_data;
use apdu::{MAC_SIZE, Refusal, Signed};
use channel::cmac;
use commands_spec::Outcome;
use objects::{Context, refused};
use octets::part;
use transactions::complete_transaction::complete_transaction;
use transactions::initialize_transaction::initialize_transaction;

// PIN CHANGE/UNBLOCK: a PIN, or no data before the C-MAC.
fn pin_data(context: &Context, request: &Request) -> Outcome
    requires { signed_length PinChange request.now.header.lc ≡ true }
    ensures { result ≡ pin_change_of context.now.head context.now.session
        (data_of request.now.command.now (request.now.header.lc - mac_size)) }
{
    if request.header.lc == MAC_SIZE {
        return unblock_pin(context);
    }
    change_pin(context, request.data())
}

// Past step 6; `n` bytes of data come before the C-MAC.
#[tactic(auto, unfolding(commands_spec::specs::Respond::signed_of))]
fn signed(g: Signed, context: &Context, request: &Request, n: usize) -> Outcome
    requires length { signed_length g request.now.header.lc ≡ true }
    requires data { n ≡ request.now.header.lc - mac_size }
    ensures { result ≡ signed_of g context.now.head context.now.session request.now.header
        (data_of request.now.command.now (request.now.header.lc - mac_size)) }
{
    let header = &request.header;
    match g {
        Signed::PutKey => put_key(context, header.p2, request.data()),
        Signed::PinChange => pin_data(context, request),
        Signed::StoreData => store_data(context, &request.command[5..5 + n]),
        Signed::InitializeTransaction => initialize_transaction(context, header.p1, request.data()),
        Signed::CompleteTransaction => complete_transaction(context, request.data()),
        Signed::PutData => put_data(context, header.p2, &request.command[5..5 + n]),
    }
}

// Step 6: a channel, and a right C-MAC, which moves the chain on.
#[tactic(auto, unfolding(commands_spec::specs::Respond::authorized))]
pub fn authorized(g: Signed, context: &Context, request: &Request) -> Outcome
    requires { signed_length g request.now.header.lc ≡ true }
    ensures { result ≡ authorized g context.now.head context.now.session request.now.header request.now.command.now }
{
    let session = context.session;
    let channel = &session.channel;
    if !channel.level.is_open() {
        return refused(
            context.head,
            session.closed(),
            u16::from(Refusal::SecurityNotSatisfied),
        );
    }
    let n = usize::from(request.header.lc - MAC_SIZE);
    let mac = cmac(
        context.engine,
        channel.mac,
        channel.cmac,
        request.command,
        5 + n,
    );
    if part(request.command, 5 + n) != mac {
        return refused(
            context.head,
            session.closed(),
            u16::from(Refusal::SecurityNotSatisfied),
        );
    }
    let chained = Context {
        session: session.chained(mac),
        ..*context
    };
    signed(g, &chained, request, n)
}
