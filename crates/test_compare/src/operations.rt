// The operations in the file by their numbers: those of document 01 in its order, the two programs, then those of
// document 02. Assumes nothing.
use std::fmt;

#[derive(Clone, Copy)]
pub enum Operation {
    KeyLength = 1,
    Deal = 2,
    CheckKey = 3,
    OpenOne = 4,
    OpenAll = 5,
    JoinShares = 6,
    JoinKeys = 7,
    HeldSeed = 8,
    Expand = 9,
    ChooseWidth = 10,
    SensorPosition = 11,
    DealingProgram = 12,
    JoiningProgram = 13,
    DrawCard = 14,
    WritePage = 15,
}

// All, in the order of the lines: lengths, dealing and checking; opening, drawing and joining; seeds and numbers alone; the programs.
pub const LINES: [Operation; 15] = [
    Operation::KeyLength,
    Operation::Deal,
    Operation::CheckKey,
    Operation::OpenOne,
    Operation::OpenAll,
    Operation::DrawCard,
    Operation::JoinShares,
    Operation::JoinKeys,
    Operation::WritePage,
    Operation::HeldSeed,
    Operation::Expand,
    Operation::ChooseWidth,
    Operation::SensorPosition,
    Operation::DealingProgram,
    Operation::JoiningProgram,
];

// Its name on its line.
impl fmt::Display for Operation {
    fn fmt<W: fmt::Write>(&self, f: &mut fmt::Formatter<W>) -> fmt::Result {
        f.write_str(match self {
            Operation::KeyLength => "key length",
            Operation::Deal => "deal",
            Operation::CheckKey => "check key",
            Operation::OpenOne => "open one",
            Operation::OpenAll => "open all",
            Operation::JoinShares => "join shares",
            Operation::JoinKeys => "join keys",
            Operation::HeldSeed => "held seed",
            Operation::Expand => "expand",
            Operation::ChooseWidth => "choose width",
            Operation::SensorPosition => "sensor position",
            Operation::DealingProgram => "dealing program",
            Operation::JoiningProgram => "joining program",
            Operation::DrawCard => "draw card",
            Operation::WritePage => "write page",
        })
    }
}
