// Installation: a fresh card over whatever memory held. The magic byte goes first and comes last.
ghost use Rattle.std.specs.Prelude.{◌≡◌, length};
ghost use Rattle.stores.specs.Stores.{leaves};
ghost use Rattle.memory.specs.Changes.{install_plan};

use crate::layout;
use crate::structs::{COLD_SIZE, FIXED_SIZE, HOT_SIZE, cold_bytes, fixed_bytes, hot_bytes};
use card::{Aid, Fixed, Head, Keys};
use stores::Writer;

// Magic off, root, fixed part, H, C, magic on.
const INSTALL_STORES: usize = 1 + 1 + FIXED_SIZE + HOT_SIZE + COLD_SIZE + 1;

// The fresh card of the fixed part, the AID and key set 3; a whole run, as a commit is.
pub fn install(memory: &mut [u8], fixed: Fixed, aid: Aid, admin: Keys, limit: usize) -> usize
    ensures { (result ≡ length (install_plan fixed aid admin))
        × (memory.new ≡ leaves (install_plan fixed aid admin) limit memory.old) }
{
    let head = Head::fresh(fixed, aid, admin);
    let mut writer = Writer {
        memory,
        room: limit,
    };
    writer.put(0, 0);
    writer.put(layout::ROOT_AT, 0);
    writer.put_bytes(layout::FIXED_AT, &fixed_bytes(&aid, &fixed));
    writer.put_bytes(layout::hot_at(0), &hot_bytes(&head.state, 0, 0, 0));
    writer.put_bytes(layout::cold_at(0), &cold_bytes(&head));
    writer.put(0, layout::MAGIC);
    INSTALL_STORES
}
