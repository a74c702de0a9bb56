// A tally over many hunts: make, add, look up and total as C functions, each with the tally's four numbers in front.
// Assumes nothing.
// Refusals are answered by number: C has numbers, and no `Result`.
ghost use Rattle.tally.specs.Tallies.{tally_of, MakeSays, AddSays, LookUpSays, TotalSays};

use nosingginger::Tally;
use refusal::answer_number;

// MAKE: every entry zero.
#[unsafe(no_mangle)]
pub extern "C" fn nsg_tally_make(
    players: u32,
    player: u32,
    positions: u32,
    value_bytes: u32,
    table: &mut [u8],
) -> u32
    ensures { MakeSays (tally_of players player positions value_bytes) result
        table.old table.new }
{
    let tally = Tally::new(players, player, positions, value_bytes);
    answer_number(nosingginger::tally_make(tally, table))
}

// ADD: the key's full table XORed into the lent one.
#[unsafe(no_mangle)]
pub extern "C" fn nsg_tally_add(
    players: u32,
    player: u32,
    positions: u32,
    value_bytes: u32,
    key: &[u8],
    table: &mut [u8],
) -> u32
    ensures { AddSays (tally_of players player positions value_bytes) key.now result
        table.old table.new }
{
    let tally = Tally::new(players, player, positions, value_bytes);
    answer_number(nosingginger::tally_add(tally, key, table))
}

// LOOK UP: the entry of one position.
#[unsafe(no_mangle)]
pub extern "C" fn nsg_tally_look_up(
    players: u32,
    player: u32,
    positions: u32,
    value_bytes: u32,
    table: &[u8],
    position: u32,
    out: &mut [u8],
) -> u32
    ensures { LookUpSays (tally_of players player positions value_bytes) table.now position result
        out.old out.new }
{
    let tally = Tally::new(players, player, positions, value_bytes);
    answer_number(nosingginger::tally_look_up(tally, table, position, out))
}

// TOTAL: the XOR of all entries.
#[unsafe(no_mangle)]
pub extern "C" fn nsg_tally_total(
    players: u32,
    player: u32,
    positions: u32,
    value_bytes: u32,
    table: &[u8],
    out: &mut [u8],
) -> u32
    ensures { TotalSays (tally_of players player positions value_bytes) table.now result
        out.old out.new }
{
    let tally = Tally::new(players, player, positions, value_bytes);
    answer_number(nosingginger::tally_total(tally, table, out))
}
