// The key schedule: K1 to K16.
ghost use Rattle.std.specs.Prelude.{◌≡◌, ◌≤◌};
ghost use Rattle.des_spec.specs.Des.{shift_halves, schedule};

use super::permutations::permute;
use super::tables;

// The two halves C and D, each shifted left by one place, n times: `rotate_left(n)` clears a room of 4,096 bytes at each call, and makes the
// plain engine slower than it was.
fn shift_halves(mut halves: [u8; 56], n: usize) -> [u8; 56]
    requires { n ≤ 28 }
    ensures { result ≡ shift_halves n halves }
{
    for _i in 0..n {
        halves[..28].rotate_left(1);
        halves[28..].rotate_left(1);
    }
    halves
}

// K1 to K16.
pub fn schedule(key: [u8; 64]) -> [[u8; 48]; 16]
    ensures { result ≡ schedule key }
{
    let mut halves = permute(&tables::PC1, key);
    let mut keys = [[0; 48]; 16];
    for (i, &n) in tables::SHIFTS.iter().enumerate() {
        // Tried without `next`: no proof covers a call whose result is laid over an array that it reads.
        let next = shift_halves(halves, n);
        keys[i] = permute(&tables::PC2, next);
        halves = next;
    }
    keys
}
