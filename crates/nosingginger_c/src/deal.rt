// Deal as a C function. Assumes nothing.
// Refusals are answered by number: C has numbers, and no `Result`.
ghost use Rattle.nosingginger_c.specs.C.{DealThrough};

use nosingginger::DealRefusal;

// DEAL: the keys of all players one after another; where the arrays are at fault, the grid row and the column of the
// first fault.
#[unsafe(no_mangle)]
pub extern "C" fn nsg_deal(
    players: u32,
    positions: u32,
    width: u32,
    value_bytes: u32,
    point: u32,
    value: &[u8],
    arrays: &[u8],
    seeds: &[u8],
    words: &[u8],
    keys: &mut [u8],
    fault: &mut [u32; 2],
) -> u32
    ensures { DealThrough players positions width value_bytes point
        value.now arrays.now seeds.now words.now result
        keys.old keys.new fault.old fault.new }
{
    match nosingginger::deal(
        players,
        positions,
        width,
        value_bytes,
        point,
        value,
        arrays,
        seeds,
        words,
        keys,
    ) {
        Ok(()) => 0,
        Err(DealRefusal::Plain(refusal)) => refusal.number(),
        Err(DealRefusal::Fault(found)) => {
            *fault = [found.grid_row, found.column];
            found.refusal.number()
        }
    }
}
