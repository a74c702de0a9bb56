// Write page: the refusals 2, 4, 7 and 9, and the page of a table. Assumes nothing.
#![tactic(auto)]

ghost use Rattle.std.specs.Prelude.{◌≡◌};
ghost use Rattle.refusal.specs.Refusing.{answer_number};
ghost use Rattle.call_answers.specs.Answers.{answer_told, page_refusal, PageSays};

use grid::board::{positions_fit, value_bytes_fit};
use page::{page_length, put_page};
use refusal::Refusal;

// 2, 4, 7, 9: the first that fits.
#[tactic(auto, unfolding(call_answers::specs::Answers::page_refusal))]
fn page_refusal(positions: u32, value_bytes: u32, table: usize, room: usize) -> Result<(), Refusal>
    ensures { answer_number result ≡ page_refusal positions value_bytes table room }
{
    if !positions_fit(positions) {
        return Err(Refusal::Positions);
    }
    if !value_bytes_fit(value_bytes) {
        return Err(Refusal::ValueBytes);
    }
    let entries = positions as usize;
    let entry = value_bytes as usize;
    if table != entries * entry {
        return Err(Refusal::Lent);
    }
    if room < page_length(entries, entry) {
        return Err(Refusal::Room);
    }
    Ok(())
}

// Positions, value bytes and table stay three: C and the papers have them one by one, and any may come. Table and output go as two: the one is lent
// to be read, the other to be written.
// WRITE PAGE: 2, 4, 7, 9; writes a table as lines of eight cells; the bytes written.
pub fn write_page(
    positions: u32,
    value_bytes: u32,
    table: &[u8],
    output: &mut [u8],
) -> Result<u32, Refusal>
    ensures { PageSays positions value_bytes table.now (answer_told result)
        output.old output.new }
{
    page_refusal(positions, value_bytes, table.len(), output.len())?;
    let written = put_page(output, positions as usize, value_bytes as usize, table);
    Ok(written as u32)
}
