// STORE DATA: what its TLVs have said so far.
use card::Head;

// `good` until a TLV is refused; it stays a flag: the contracts of `stored` and `stored_all` (administration) and the law rejected_list
// (proofs/Listed.antt) say what a refused list leaves. `seen` has a 1 at each tag that came, a number as the definitions read it.
#[derive(Clone, Copy)]
pub struct Stored {
    pub good: bool,
    pub seen: [u8; 8],
    pub head: Head,
}
