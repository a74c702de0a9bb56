// Opening one square of a key. Assumes nothing.
ghost use Rattle.refusal.specs.Refusing.{answer_number};
ghost use Rattle.call_answers.specs.Answers.{OpenOneSays};

use key_check::body::check_body;
use refusal::Refusal;

// Key, position and output one by one: the operation's arguments, as C and the papers have them.
// OPEN ONE: Check key's numbers, 14, 9; writes the share of one square, from the part of the key that begins at its grid row.
pub fn open_one(key: &[u8], position: u32, output: &mut [u8]) -> Result<(), Refusal>
    ensures { OpenOneSays key.now position (answer_number result) output.old output.new }
{
    let (_, body) = check_body(key)?;
    let share = body.board.value_bytes as usize;
    if body.board.positions <= position {
        return Err(Refusal::Position);
    }
    if output.len() < share {
        return Err(Refusal::Room);
    }
    open_key::open_square(&body, position, output);
    Ok(())
}
