// A dealing: a board, its point, and what Deal is lent for them, where no refusal fits. That none fits is known of a `Dealing` by its type, so
// that whatever deals asks nothing of it again. Why a dealing is refused stands here too. Assumes nothing.
#![tactic(auto)]

ghost use Rattle.std.specs.Prelude.{◌≡◌, IfOk};
ghost use Rattle.refusal.specs.Refusing.{refusal_number};
ghost use Rattle.grid.specs.Code.{board_of};
ghost use Rattle.keys.specs.Keys.{deal_refusal, deal_place, lent, lent_fits};

use grid::board::Board;
use grid::fault::Fault;
use grid_arrays::first_fault;
use refusal::Refusal;

// Why a dealing is refused: a refusal that has no place, or the first fault of its arrays, 18, 19 or 20 with its grid row and column.
#[derive(Clone, Copy, Debug, PartialEq, Eq)]
pub enum DealRefusal {
    Plain(Refusal),
    Fault(Fault),
}

// The refusal without its place.
impl From<DealRefusal> for Refusal {
    ghost use Rattle.dealing.specs.Refused.{refused_number};

    ghost from_gives = { λ refused refusal. refusal_number refusal ≡ refused_number refused };

    fn from(refused: DealRefusal) -> Refusal {
        match refused {
            DealRefusal::Plain(refusal) => refusal,
            DealRefusal::Fault(fault) => fault.refusal,
        }
    }
}

impl From<Refusal> for DealRefusal {
    ghost use Rattle.dealing.specs.declared.DealRefusal.TheVariants.{Plain};

    ghost from_gives = { λ refusal refused. refused ≡ Plain refusal };

    fn from(refusal: Refusal) -> DealRefusal {
        DealRefusal::Plain(refusal)
    }
}

// Each of what is lent has the length that the board asks, and each grid row's array is good.
#[derive(Clone, Copy)]
pub struct Dealing<'a> {
    pub board: Board,
    pub point: u32,
    pub value: &'a [u8],
    pub arrays: &'a [u8],
    pub seeds: &'a [u8],
    pub words: &'a [u8],
    ghost accepted: { deal_refusal (board_of board) (lent point value.now arrays.now seeds.now words.now) ≡ 0 },
}

// Whether value, arrays, seeds and words have the lengths that the board asks.
fn lent_fits(board: Board, value: usize, arrays: usize, seeds: usize, words: usize) -> bool
    ensures { result ≡ lent_fits (board_of board) value arrays seeds words }
{
    let asked = [
        board.value_bytes as usize,
        board.arrays_length(),
        board.seeds_length(),
        board.words_length(),
    ];
    [value, arrays, seeds, words] == asked
}

impl<'a> Dealing<'a> {
    ghost use Rattle.dealing.specs.Refused.{number_told, place_told};
    ghost use Rattle.dealing.specs.Code.{lent_of};

    // The dealing of a board, or the first of 6, 7 and 18 to 20 that fits.
    pub fn new(
        board: Board,
        point: u32,
        value: &'a [u8],
        arrays: &'a [u8],
        seeds: &'a [u8],
        words: &'a [u8],
    ) -> Result<Dealing<'a>, DealRefusal>
        ensures number { number_told result ≡ deal_refusal (board_of board) (lent point value.now arrays.now seeds.now words.now) }
        ensures place { place_told result ≡ deal_place (board_of board) (lent point value.now arrays.now seeds.now words.now) }
        ensures parts { IfOk result (λ made. (board_of made.board ≡ board_of board)
            × (lent_of made ≡ lent point value.now arrays.now seeds.now words.now)) }
    {
        if board.positions <= point {
            return Err(Refusal::Point.into());
        }
        if !lent_fits(board, value.len(), arrays.len(), seeds.len(), words.len()) {
            return Err(Refusal::Lent.into());
        }
        if let Some(fault) = first_fault(board, point, arrays) {
            return Err(DealRefusal::Fault(fault));
        }
        Ok(Dealing {
            board,
            point,
            value,
            arrays,
            seeds,
            words,
        })
    }
}
