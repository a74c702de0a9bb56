// What stands behind the header of an accepted key: its grid rows and its words. That they are those of an accepted key of the board is known
// of a `Body` by its type, so that whoever opens one asks nothing of it again. Assumes nothing.
ghost use Rattle.std.specs.Prelude.{◌≡◌, ◌≤◌, true, IfOk};
ghost use Rattle.xor.specs.Xor.{bytes_good};
ghost use Rattle.refusal.specs.Refusing.{answer_number};
ghost use Rattle.grid.specs.Grid.{grid_rows};
ghost use Rattle.grid.specs.Code.{board_of};
ghost use Rattle.keys.specs.Keys.{head_in, key_refusal, AcceptedBody, grid_row_part};

use crate::check::check_key;
use grid::board::Board;
use key_lengths::stride;
use reader::part_from;
use refusal::Refusal;

#[derive(Clone, Copy)]
pub struct Body<'a> {
    pub board: Board,
    pub bytes: &'a [u8],
    ghost accepted: { AcceptedBody (board_of board) bytes.now },
    ghost good: { bytes_good bytes.now ≡ true },
}

impl<'a> Body<'a> {
    // The part that begins at a grid row.
    pub fn grid_row_part(&self, grid_row: usize) -> &'a [u8]
        requires { grid_row ≤ grid_rows (board_of self.now.board) }
        ensures { result.now ≡ grid_row_part (board_of self.now.board) self.now.bytes.now grid_row }
    {
        part_from(self.bytes, grid_row * stride(self.board))
    }
}

// The player whose key it is, and what stands behind the key's header; or the first of Check key's numbers that fits.
pub fn check_body(key: &[u8]) -> Result<(u32, Body<'_>), Refusal>
    ensures refusal { answer_number result ≡ key_refusal key.now }
    ensures read { IfOk result (λ read. (read.0 ≡ (head_in key.now).player) × (board_of read.1.board ≡ (head_in key.now).board)
        × (read.1.bytes.now ≡ (head_in key.now).rest)) }
{
    let heading = check_key(key)?;
    let body = Body {
        board: heading.board,
        bytes: part_from(key, heading.end),
    };
    Ok((heading.player, body))
}
