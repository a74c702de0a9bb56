// The five numbers of a header. Any five: what they are refused for, or which board they are of, is asked of them. Assumes nothing.
ghost use Rattle.std.specs.Prelude.{◌≡◌, IfOk};
ghost use Rattle.refusal.specs.Refusing.{answer_number};
ghost use Rattle.grid.specs.Code.{board_of};
ghost use Rattle.keys.specs.Keys.{numbers_refusal};
ghost use Rattle.key_header.specs.Answers.{header_numbers, header_board, header_told};

use grid::board::Board;
use refusal::Refusal;

// The numbers in their order: those of a board, with the player behind its players.
#[derive(Clone, Copy, Debug, PartialEq, Eq)]
pub struct Header {
    pub players: u32,
    pub player: u32,
    pub positions: u32,
    pub width: u32,
    pub value_bytes: u32,
}

// The place and not the rest of the key: whoever has the key cuts it there, and the promise of Check key speaks of the place.
// A header that was read: the board, the player, and the place where it ends.
#[derive(Clone, Copy, Debug, PartialEq, Eq)]
pub struct Heading {
    pub board: Board,
    pub player: u32,
    pub end: usize,
}

impl Header {
    // A constructor of two things: a board, which has no player, and a player.
    // The header of a board and of a player, who need be none of the board's.
    pub fn of(board: Board, player: u32) -> Header
        ensures board { header_board result ≡ board_of «board» }
        ensures player { result.player ≡ player }
    {
        Header {
            players: board.players,
            player,
            positions: board.positions,
            width: board.width,
            value_bytes: board.value_bytes,
        }
    }

    // No `From`: it is the order that the papers and C have, and its contract says which.
    // Its numbers in their order: p, player, N, μ, w.
    pub fn numbers(self) -> [u32; 5]
        ensures { result ≡ header_numbers (header_told self) }
    {
        [
            self.players,
            self.player,
            self.positions,
            self.width,
            self.value_bytes,
        ]
    }

    // The board whose player it is, or the first of the numbers behind 10 that fits: 1 to 5, 11.
    pub fn board(self) -> Result<Board, Refusal>
        ensures refusal { answer_number result ≡ numbers_refusal (header_board self) self.player }
        ensures numbers { IfOk result (λ made. board_of made ≡ header_board self) }
    {
        let board = Board::new(self.players, self.positions, self.width, self.value_bytes)?;
        if self.players <= self.player {
            return Err(Refusal::Player);
        }
        Ok(board)
    }
}
