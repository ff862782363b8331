// The result of a call: one number, and the session area.
ghost use Rattle.std.specs.Prelude.{◌≡◌, ◌<◌, length};
ghost use Rattle.purse.specs.Called.{number_of};
ghost use Rattle.host.specs.Host.{session_size, number, area_after};

use purse::{Answer, Called};
use session::Session;

// The answer in the lowest byte, the response's length in the next, the reported stores above.
#[tactic(auto, unfolding(crate::specs::Host::number))]
fn number(answer: Answer, size: usize, count: usize) -> u64
    requires { (size < 256) × (count < 65536) }
    ensures { result ≡ number (number_of answer) size count }
{
    u64::from(u8::from(answer)) + 256 * size as u64 + 65536 * count as u64
}

// The number of a refusal: its answer alone.
pub fn refused(answer: Answer) -> u64
    ensures { result ≡ number (number_of answer) 0 0 }
{
    number(answer, 0, 0)
}

// The session area after an answer: the session on 0, zeros on 7.
#[tactic(auto, unfolding(crate::specs::Host::area_after))]
fn leave(area: &mut [u8], answer: Answer, session: &Session)
    requires { length area.old ≡ session_size }
    ensures { area.new ≡ area_after (number_of answer) session.now area.old }
{
    match answer {
        Answer::Done => area.copy_from_slice(&session.pack()),
        Answer::Cut => area.fill(0),
        _ => {}
    }
}

// The number of a call, and the session area behind it.
pub fn result(area: &mut [u8], called: &Called) -> u64
    requires { (length area.old ≡ session_size) × (called.now.length < 256) × (called.now.count < 65536) }
    ensures { (result ≡ number (number_of called.now.answer) called.now.length called.now.count)
        × (area.new ≡ area_after (number_of called.now.answer) called.now.session area.old) }
{
    leave(area, called.answer, &called.session);
    number(called.answer, called.length, called.count)
}
