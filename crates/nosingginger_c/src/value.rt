// A value through a pointer: what every C function that has one does with an operation's answer. Assumes nothing.
// Refusals are answered by number: C has numbers, and no `Result`.
ghost use Rattle.call_answers.specs.Answers.{answer_told};
ghost use Rattle.nosingginger_c.specs.C.{ValuePut};

use nosingginger::Refusal;

// A number and a value beside it, and no `Result`: its clause speaks of every number and every value.
// Writes the value where the number is 0; answers the number.
pub fn put_value(refusal: u32, value: u32, place: &mut u32) -> u32
    ensures { ValuePut refusal value result place.old place.new }
{
    if refusal != 0 {
        return refusal;
    }
    *place = value;
    0
}

// So of an operation's answer.
pub fn put_answer(answer: Result<u32, Refusal>, place: &mut u32) -> u32
    ensures { ValuePut (answer_told answer).refusal (answer_told answer).value result place.old place.new }
{
    match answer {
        Ok(value) => put_value(0, value, place),
        Err(refusal) => put_value(refusal.number(), 0, place),
    }
}
