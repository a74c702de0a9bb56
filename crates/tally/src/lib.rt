// A tally's four numbers: which are refused, and which keys are the tally's. The tally itself is a table that the caller
// lends, N entries of w bytes, and each phone has one of its own. The calls are those of the crate tally_call; what they
// answer stands in specs/Tallies.antt, and what a run of them leaves in specs/Runs.antt. Assumes nothing.
#![tactic(auto)]

ghost use Rattle.std.specs.Prelude.{◌≡◌};
ghost use Rattle.refusal.specs.Refusing.{answer_number};
ghost use Rattle.key_header.specs.Answers.{header_board};
ghost use Rattle.tally.specs.Runs.{TallyHolds, AnyOrder, TwiceIsNone, RefusedInBetween};
ghost use Rattle.tally.specs.Tallies.{tally_of, tally_long, tally_refusal, takes};

use call_answers::sizes_refusal;
use key_header::Header;
use refusal::Refusal;

// p, player, N and w: players, whose tally it is, positions, bytes of a value.
#[derive(Clone, Copy, Debug, PartialEq, Eq)]
pub struct Tally {
    pub players: u32,
    pub player: u32,
    pub positions: u32,
    pub value_bytes: u32,
}

impl Tally {
    // A constructor: C has the four numbers one by one.
    // The tally of four numbers, as a caller gives them.
    pub fn new(players: u32, player: u32, positions: u32, value_bytes: u32) -> Tally
        ensures { result ≡ tally_of players player positions value_bytes }
    {
        Tally {
            players,
            player,
            positions,
            value_bytes,
        }
    }

    // Bytes of its table: an entry for each position.
    #[tactic(auto, unfolding(crate::specs::Tallies::tally_long))]
    pub fn table_length(self) -> usize
        ensures { result ≡ tally_long self }
    {
        self.positions as usize * self.value_bytes as usize
    }

    // 1, 2, 4, 11, 9: the first that fits its numbers and the room that is lent for its table.
    #[tactic(auto, unfolding(crate::specs::Tallies::tally_refusal, crate::specs::Tallies::tally_long, keys::specs::Keys::or_else))]
    pub fn refusal(self, room: usize) -> Result<(), Refusal>
        ensures { answer_number result ≡ tally_refusal self room }
    {
        sizes_refusal(self.players, self.positions, self.value_bytes)?;
        if self.players <= self.player {
            return Err(Refusal::Player);
        }
        if room < self.table_length() {
            return Err(Refusal::Room);
        }
        Ok(())
    }

    // Whether a key of this header is one of the tally's: its width is its own.
    #[tactic(auto, unfolding(crate::specs::Tallies::takes, grid::specs::Grid::board))]
    pub fn takes(self, header: Header) -> bool
        ensures { result ≡ takes self (header_board «header») «header».player }
    {
        Tally::new(
            header.players,
            header.player,
            header.positions,
            header.value_bytes,
        ) == self
    }
}

// What runs of the calls leave, asked for by a contract.
pub fn kept()
    ensures holds { TallyHolds }
    ensures order { AnyOrder }
    ensures twice { TwiceIsNone }
    ensures refused { RefusedInBetween }
{}
