// The cases of the file one after another, those of one operation compared and counted. Assumes nothing.
ghost use Rattle.std.specs.Prelude.{◌≤◌, ◌+◌, ◌<◌, ◌≡◌};

use crate::calls::equal;
use crate::operations::Operation;
use test_case_file::{Cases, count};

// How many cases, how many of them are refusals, and how many are equal.
#[derive(Clone, Copy, Default)]
pub struct Tally {
    pub cases: u32,
    pub refused: u32,
    pub equal: u32,
}

impl Tally {
    // Counts one more case.
    fn add(&mut self, refused: bool, equal: bool)
        requires { (self.old.cases < 4294967295) × (self.old.refused < 4294967295) × (self.old.equal < 4294967295) }
        ensures { (self.new.cases ≡ self.old.cases + 1) × (self.new.refused ≤ self.old.refused + 1) × (self.new.equal ≤ self.old.equal + 1) }
    {
        self.cases += 1;
        self.refused += u32::from(refused);
        self.equal += u32::from(equal);
    }
}

// A file that is none has 0 cases here, and the file has 0 for a call that is not refused.
// All cases of one operation. `output` is scratch.
pub(super) fn compare(
    rt: &impl Print,
    file: &[u8],
    operation: Operation,
    output: &mut [u8],
) -> std::io::Result<Tally> {
    let mut tally = Tally::default();
    let mut cases = Cases::of(file);
    let count = count(file).unwrap_or(0);
    for number in 0..count {
        let case = cases.following();
        if case.head.operation == operation as u8 {
            let same = equal(operation, case, output);
            if !same {
                println!(rt; "DIFFERENT case {number}")?;
            }
            tally.add(case.head.refusal != 0, same);
        }
    }
    Ok(tally)
}
