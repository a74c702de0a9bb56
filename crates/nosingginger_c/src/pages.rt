// The board on a page: Write page as a C function. Assumes nothing.
// Refusals are answered by number: C has numbers, and no `Result`.
ghost use Rattle.call_answers.specs.Answers.{PageSays};
ghost use Rattle.nosingginger_c.specs.C.{Through};

use crate::value::put_answer;

// WRITE PAGE: a table as lines of eight cells; the bytes written.
#[unsafe(no_mangle)]
pub extern "C" fn nsg_write_page(
    positions: u32,
    value_bytes: u32,
    table: &[u8],
    out: &mut [u8],
    written: &mut u32,
) -> u32
    ensures { Through (λ a. PageSays positions value_bytes table.now a
        out.old out.new) result written.old written.new }
{
    put_answer(
        nosingginger::write_page(positions, value_bytes, table, out),
        written,
    )
}
