// The calls of a tally over many hunts, behind their refusals: make, add, look up, total. Each phone has a tally of its
// own, and adds its keys to it; the tallies of all phones, joined entry by entry, show the XOR of all that was hidden on
// each square. Every call is given the tally's four numbers and lent its table. Assumes nothing.
#![tactic(auto)]

ghost use Rattle.refusal.specs.Refusing.{answer_number};
ghost use Rattle.tally.specs.Tallies.{MakeSays, AddSays, LookUpSays, TotalSays};

use join_shares_call::joined;
use key_check::body::check_body;
use key_header::Header;
use open_key::add_table;
use refusal::Refusal;
pub use tally::Tally;
use writer::put;

// MAKE: 1, 2, 4, 11, 9; makes every entry zero.
pub fn tally_make(tally: Tally, table: &mut [u8]) -> Result<(), Refusal>
    ensures { MakeSays tally (answer_number result) table.old table.new }
{
    tally.refusal(table.len())?;
    table[..tally.table_length()].fill(0);
    Ok(())
}

// ADD: 1, 2, 4, 11, 9, Check key's numbers, 23; XORs the key's full table into the lent one, grid row by grid row.
pub fn tally_add(tally: Tally, key: &[u8], table: &mut [u8]) -> Result<(), Refusal>
    ensures { AddSays tally key.now (answer_number result) table.old table.new }
{
    tally.refusal(table.len())?;
    let (player, body) = check_body(key)?;
    if !tally.takes(Header::of(body.board, player)) {
        return Err(Refusal::Tally);
    }
    add_table(&body, &mut table[..tally.table_length()]);
    Ok(())
}

// Position and output one by one: the operation's arguments, as C and the papers have them.
// LOOK UP: 1, 2, 4, 11, 9, 14, 9; writes the entry of one position.
pub fn tally_look_up(
    tally: Tally,
    table: &[u8],
    position: u32,
    output: &mut [u8],
) -> Result<(), Refusal>
    ensures { LookUpSays tally table.now position (answer_number result) output.old output.new }
{
    tally.refusal(table.len())?;
    if tally.positions <= position {
        return Err(Refusal::Position);
    }
    let entry = tally.value_bytes as usize;
    if output.len() < entry {
        return Err(Refusal::Room);
    }
    let at = position as usize * entry;
    put(output, 0, &table[at..at + entry]);
    Ok(())
}

// No twin of Look up: there 14 is asked between the tally's refusals and 9. Table and output go as two: the one is lent to be read.
// TOTAL: 1, 2, 4, 11, 9, 9; writes the XOR of all entries.
pub fn tally_total(tally: Tally, table: &[u8], output: &mut [u8]) -> Result<(), Refusal>
    ensures { TotalSays tally table.now (answer_number result) output.old output.new }
{
    tally.refusal(table.len())?;
    let entry = tally.value_bytes as usize;
    if output.len() < entry {
        return Err(Refusal::Room);
    }
    let entries = tally.positions as usize;
    joined(
        entries,
        &table[..tally.table_length()],
        &mut output[..entry],
    );
    Ok(())
}
