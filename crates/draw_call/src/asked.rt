// The refusals of Draw card behind Check key's. Assumes nothing.
ghost use Rattle.std.specs.Prelude.{◌≡◌};
ghost use Rattle.refusal.specs.Refusing.{answer_number};
ghost use Rattle.grid.specs.Code.{board_of};
ghost use Rattle.call_answers.specs.Answers.{draw_refusal};

use call_answers::share_bytes_fit;
use grid::board::Board;
use refusal::Refusal;

// 21, 22, 9: the first that fits. The card's length is tested before the deck's
// is reckoned from it.
pub fn draw_refusal(board: Board, card_bytes: u32, deck: usize, room: usize) -> Result<(), Refusal>
    ensures { answer_number result ≡ draw_refusal (board_of board) card_bytes deck room }
{
    if board.value_bytes != 1 {
        return Err(Refusal::CardKey);
    }
    if !share_bytes_fit(card_bytes) {
        return Err(Refusal::Deck);
    }
    let card = card_bytes as usize;
    if deck != board.positions as usize * card {
        return Err(Refusal::Deck);
    }
    if room < card {
        return Err(Refusal::Room);
    }
    Ok(())
}
