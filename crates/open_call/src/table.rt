// Opening every square of a key. Assumes nothing.
ghost use Rattle.refusal.specs.Refusing.{answer_number};
ghost use Rattle.call_answers.specs.Answers.{OpenAllSays};

use key_check::body::check_body;
use refusal::Refusal;

// OPEN ALL: Check key's numbers, 9; writes the full table.
pub fn open_all(key: &[u8], output: &mut [u8]) -> Result<(), Refusal>
    ensures { OpenAllSays key.now (answer_number result) output.old output.new }
{
    let (_, body) = check_body(key)?;
    let table = body.board.table_length();
    if output.len() < table {
        return Err(Refusal::Room);
    }
    open_key::open_table(&body, output);
    Ok(())
}
