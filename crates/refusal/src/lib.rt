// Why a call is refused. Each refusal has a number, by documents 01 and 02, and with it goes to C, to JavaScript and into the programs'
// output. refusals.txt is the list of them all, with the words for people. An operation answers the first that fits. Assumes nothing.
#![tactic(auto)]

ghost use Rattle.std.specs.Prelude.{◌≡◌};
ghost use Rattle.refusal.specs.Refusing.{refusal_number, answer_number};

// Each stands with its number. 8 is given no more: 18, 19 and 20 are in its place.
#[derive(Clone, Copy, Debug, PartialEq, Eq, Hash)]
pub enum Refusal {
    // There cannot be so many players.
    Players = 1,
    // There cannot be so many positions.
    Positions = 2,
    // A grid cannot be so wide.
    Width = 3,
    // A value, or a share that is joined, cannot have so many bytes.
    ValueBytes = 4,
    // The board has more grid rows than any.
    GridRows = 5,
    // The point is none of the board's positions.
    Point = 6,
    // A lent input has another length.
    Lent = 7,
    // The output is too short.
    Room = 9,
    // A header number is cut short, longer than three groups, or not in its shortest form.
    Number = 10,
    // The player is none of the board's.
    Player = 11,
    // The key has another length.
    Length = 12,
    // Some grid row does not mark exactly half its columns, or has a spare bit set.
    Marks = 13,
    // The position is none of the board's.
    Position = 14,
    // A key's numbers differ from the first key's, or its player is not its place.
    Place = 15,
    // More bytes are asked than a row can have.
    Expansion = 16,
    // The sensor is none of the spring board's.
    Sensor = 17,
    // A column has a bit at p or above: the mark of a player who is not there.
    ColumnBit = 18,
    // A column has the wrong parity for its grid row.
    ColumnParity = 19,
    // A column stood earlier in its array.
    ColumnTwice = 20,
    // A card is drawn with a key whose values are wider than a byte.
    CardKey = 21,
    // A card has a length that none has, or the deck is not one card for each position.
    Deck = 22,
    // A key is of other players, another player, other positions or other value bytes than the tally.
    Tally = 23,
}

impl Refusal {
    // Its number.
    pub fn number(self) -> u32
        ensures { result ≡ refusal_number self }
    {
        self as u32
    }
}

// A number and no `Result`: the C functions, the programs' lines and the tests have numbers, and here they get them.
// The number of an answer: that of its refusal, or 0.
pub fn answer_number<T: Copy>(answer: Result<T, Refusal>) -> u32
    ensures { result ≡ answer_number answer }
{
    match answer {
        Ok(_) => 0,
        Err(refusal) => refusal.number(),
    }
}
