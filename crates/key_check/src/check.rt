// The check of a key: bytes of every kind are read, and the first number that fits is answered.
ghost use Rattle.std.specs.Prelude.{◌≡◌};
ghost use Rattle.keys.specs.Keys.{key_refusal};
ghost use Rattle.key_header.specs.Answers.{checked_by, check_of};

use key_header::{Heading, check_header};
use key_lengths::key_length;
use key_marks::marks_good;
use reader::part_from;
use refusal::Refusal;

// 10, 1 to 5, 11, 12, 13: the first that fits; or the header, and where it ends.
pub fn check_key(key: &[u8]) -> Result<Heading, Refusal>
    ensures { check_of result ≡ checked_by (key_refusal key.now) key.now }
{
    let heading = check_header(key)?;
    let board = heading.board;
    if key.len() != key_length(board) {
        return Err(Refusal::Length);
    }
    if !marks_good(part_from(key, heading.end), board) {
        return Err(Refusal::Marks);
    }
    Ok(heading)
}
