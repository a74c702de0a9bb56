// What a key says of itself: Check key and Held seed as C functions. Assumes nothing.
// Refusals are answered by number: C has numbers, and no `Result`.
ghost use Rattle.nosingginger_c.specs.C.{CheckSays, HeldSays};

use key_check::held::held_seed_place;
use key_header::Header;

// CHECK KEY: the header's five numbers.
#[unsafe(no_mangle)]
pub extern "C" fn nsg_check_key(key: &[u8], header: &mut [u32; 5]) -> u32
    ensures { CheckSays key.now result header.old header.new }
{
    match nosingginger::check_key(key) {
        Ok(read) => {
            *header = Header::of(read.board, read.player).numbers();
            0
        }
        Err(refusal) => refusal.number(),
    }
}

// 0 and no `Option` for none: that is the C interface.
// HELD SEED: where the 32 bytes begin in the caller's key; 0 where there are none.
#[unsafe(no_mangle)]
pub extern "C" fn nsg_held_seed(key: &[u8], grid_row: u32, column: u32) -> u64
    ensures { HeldSays key.now grid_row column result }
{
    held_seed_place(key, grid_row, column).unwrap_or(0) as u64
}
