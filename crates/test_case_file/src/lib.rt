// Reading the file of cases, whose format is reference/FORMAT.md. Every reader is total: a byte past the end is 0, and a part is cut where
// the bytes end. So nothing has to be known of a file before it is read, and a damaged one gives cases that differ. Assumes nothing.
#![tactic(auto)]

ghost use Rattle.std.specs.Prelude.{◌≡◌, ◌+◌, ◌<◌, sum, take, drop};
ghost use Rattle.test_case_file.specs.File.{number_in, number_at, four_numbers_at, five_numbers_at, case_head, inputs_from, behind_inputs};

use reader::{byte, part_from};

// What the file begins with, and where the number of its cases and its length stand behind that.
const NAME: &[u8] = b"NGCASES1";

// Four offsets of the file's own head, each read once.
const FILE_CASES: usize = 8;

const FILE_LENGTH: usize = 20;

// The bytes of the file's first part, and of a case's.
const FILE_HEAD_BYTES: usize = 24;

const HEAD_BYTES: usize = 68;

// The bytes as they stand in the file (reference/FORMAT.md): a refusal is a number there, 0 for none, and `kept` is no flag of other fields.
// A case's first part: the numbers that go into the call and those that come out, and how long its inputs, the lent output and the answer are.
#[derive(Clone, Copy)]
pub struct Head {
    pub operation: u8,
    pub refusal: u8,
    pub fill: u8,
    pub kept: bool,
    pub numbers: [u32; 5],
    pub results: [u32; 5],
    pub inputs: [u32; 4],
    pub lent: u32,
    pub answer: u32,
}

// A case: its head, its inputs one behind another, which may be those of a case before it, and the answer's bytes.
#[derive(Clone, Copy)]
pub struct Case<'a> {
    pub head: Head,
    pub inputs: &'a [u8],
    pub answer: &'a [u8],
}

// The cases of a file, read one behind another: the bytes behind the last one, and those from the last inputs on that were a case's own.
#[derive(Drop)]
pub struct Cases<'a> {
    pub rest: &'a [u8],
    pub inputs: &'a [u8],
}

// The first bytes, so many or all where there are fewer, and those behind them.
pub fn cut(bytes: &[u8], count: usize) -> (&[u8], &[u8])
    ensures { (result.0.now ≡ take count bytes.now) × (result.1.now ≡ drop count bytes.now) }
{
    if count < bytes.len() {
        bytes.split_at(count)
    } else {
        (bytes, &[])
    }
}

// The first bytes, or all where there are fewer.
pub fn front(bytes: &[u8], count: usize) -> &[u8]
    ensures { result.now ≡ take count bytes.now }
{
    cut(bytes, count).0
}

// The number that bytes begin with.
fn number(bytes: &[u8]) -> u32
    ensures { result ≡ number_in bytes.now }
{
    u32::from_le_bytes([
        byte(bytes, 0),
        byte(bytes, 1),
        byte(bytes, 2),
        byte(bytes, 3),
    ])
}

// The number at a place.
pub fn number_at(bytes: &[u8], at: usize) -> u32
    ensures { result ≡ number_at bytes.now at }
{
    number(part_from(bytes, at))
}

// Four numbers from a place on.
fn four_numbers_at(bytes: &[u8], at: usize) -> [u32; 4]
    requires { at < 68 }
    ensures { result ≡ four_numbers_at bytes.now at }
{
    [
        number_at(bytes, at),
        number_at(bytes, at + 4),
        number_at(bytes, at + 8),
        number_at(bytes, at + 12),
    ]
}

// Five of them.
fn five_numbers_at(bytes: &[u8], at: usize) -> [u32; 5]
    requires { at < 64 }
    ensures { result ≡ five_numbers_at bytes.now at }
{
    let [second, third, fourth, fifth] = four_numbers_at(bytes, at + 4);
    [number_at(bytes, at), second, third, fourth, fifth]
}

// How many cases the file says it has; none where it is no file of cases, is not whole, or has no room for so many.
pub fn count(file: &[u8]) -> Option<u32> {
    let whole = file.starts_with(NAME) && number_at(file, FILE_LENGTH) as usize == file.len();
    let cases = number_at(file, FILE_CASES);
    if whole && cases as usize <= file.len() / HEAD_BYTES {
        Some(cases)
    } else {
        None
    }
}

impl Head {
    // What the bytes of a head say.
    pub fn read(bytes: &[u8]) -> Head
        ensures { result ≡ case_head bytes.now }
    {
        Head {
            operation: byte(bytes, 0),
            refusal: byte(bytes, 1),
            fill: byte(bytes, 2),
            kept: byte(bytes, 3) == 1,
            numbers: five_numbers_at(bytes, 4),
            results: five_numbers_at(bytes, 24),
            inputs: four_numbers_at(bytes, 44),
            lent: number_at(bytes, 60),
            answer: number_at(bytes, 64),
        }
    }

    // Bytes of its inputs together.
    pub fn inputs_length(&self) -> usize
        ensures { result ≡ sum self.now.inputs }
    {
        let [first, second, third, fourth] = self.inputs;
        first as usize + second as usize + third as usize + fourth as usize
    }
}

impl<'a> Cases<'a> {
    // Those of a file, from its first on.
    pub fn of(file: &'a [u8]) -> Cases<'a>
        ensures { (result.rest.now ≡ drop 24 file.now) × (result.inputs.now ≡ drop 24 file.now) }
    {
        let cases = part_from(file, FILE_HEAD_BYTES);
        Cases {
            rest: cases,
            inputs: cases,
        }
    }

    // The next one. Behind the last all bytes are 0, and all parts are empty.
    pub fn following(&mut self) -> Case<'a>
        ensures head { result.head ≡ case_head (take 68 self.old.rest.now) }
        ensures inputs_are { self.new.inputs.now ≡ inputs_from result.head self.old.inputs.now self.old.rest.now }
        ensures inputs { result.inputs.now ≡ take (sum result.head.inputs) self.new.inputs.now }
        ensures answer { result.answer.now ≡ take result.head.answer (behind_inputs result.head self.old.rest.now) }
        ensures rest { self.new.rest.now ≡ drop result.head.answer (behind_inputs result.head self.old.rest.now) }
    {
        let (head, body) = cut(self.rest, HEAD_BYTES);
        let head = Head::read(head);
        let length = head.inputs_length();
        let mut behind = body;
        if !head.kept {
            self.inputs = body;
            behind = part_from(body, length);
        }
        let (answer, rest) = cut(behind, head.answer as usize);
        self.rest = rest;
        Case {
            head,
            inputs: front(self.inputs, length),
            answer,
        }
    }
}

// Adler-32 of RFC 1950: two sums modulo 65521, which no change of one byte leaves as they are.
pub fn checksum(bytes: &[u8]) -> u32 {
    let mut sum: u32 = 1;
    let mut sums: u32 = 0;
    for byte in bytes {
        sum = (sum + u32::from(*byte)) % 65521;
        sums = (sums + sum) % 65521;
    }
    sums * 65536 + sum
}
