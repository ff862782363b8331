// Installation: a fresh card on any memory. `bytes` are the installation data.
ghost use Rattle.std.specs.Prelude.{true, [], ◌≡◌, Option, Some, None};
ghost use Rattle.octets.specs.Choice.{pick};
ghost use Rattle.purse_spec.specs.Installation.{data_ok, data_aid, data_fixed, data_keys, installation};
ghost use Rattle.purse.specs.Called.{Gives};

use crate::calls::{Answer, Called, finish, storeless};
use card::{Aid, Fixed, Keys};
use memory::MEMORY_SIZE;
use octets::{byte_at, part};
use session::Session;

// What installation data say.
#[derive(Clone, Copy)]
struct Data {
    fixed: Fixed,
    aid: Aid,
    admin: Keys,
}

// What the data say; None where a number is out of its range, or there are not as many bytes as they say. The ranges are the data's own, as
// in the definition `data_ok`; a head is judged by `is_proper` when it is read.
#[tactic(auto, using(crate::proofs::Installing::keys_last), unfolding(purse_spec::specs::Installation::data_ok, purse_spec::specs::Installation::data_aid, purse_spec::specs::Installation::data_fixed, purse_spec::specs::Installation::data_keys))]
fn data_in(bytes: &[u8]) -> Option<Data>
    ensures { result ≡ pick (data_ok bytes.now)
        (Some (record { fixed = data_fixed bytes.now; aid = data_aid bytes.now; admin = data_keys bytes.now }))
        None }
{
    let size = byte_at(bytes, 0);
    let n = usize::from(size);
    let fixed = Fixed {
        logsize: byte_at(bytes, n + 1),
        maxtries: byte_at(bytes, n + 2),
    };
    if !matches!(size, 5..=16)
        || bytes.len() != n + 51
        || !matches!(fixed.logsize, 1..=50)
        || !matches!(fixed.maxtries, 3..=15)
    {
        return None;
    }
    let aid = Aid {
        size,
        bytes: part(&bytes[1..1 + n], 0),
    };
    let admin = Keys::from_bytes(&bytes[n + 3..]);
    Some(Data { fixed, aid, admin })
}

// Answers 0, 1, 6 and 7.
#[tactic(auto, using(crate::proofs::Installing::install_sized, crate::proofs::Installing::install_data))]
pub fn install(memory: &mut [u8], bytes: &[u8], limit: usize) -> Called
    ensures { Gives (installation memory.old bytes.now limit) result memory.new [] }
{
    let session = Session::unselected();
    if memory.len() != MEMORY_SIZE {
        return storeless(Answer::MemoryLength, session);
    }
    let Some(data) = data_in(bytes) else {
        return storeless(Answer::InstallationData, session);
    };
    let n = memory::install(memory, data.fixed, data.aid, data.admin, limit);
    finish(n, limit, 0, session)
}
