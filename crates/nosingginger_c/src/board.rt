// What a board's numbers ask for, before anything is dealt: Choose width, Key length and Sensor position as C functions,
// each value through a pointer. Assumes nothing.
// Refusals are answered by number: C has numbers, and no `Result`.
ghost use Rattle.call_answers.specs.Answers.{LongSays, WidthSays, SensorSays};
ghost use Rattle.nosingginger_c.specs.C.{Through};

use crate::value::put_answer;

// CHOOSE WIDTH.
#[unsafe(no_mangle)]
pub extern "C" fn nsg_choose_width(
    players: u32,
    positions: u32,
    value_bytes: u32,
    width: &mut u32,
) -> u32
    ensures { Through (λ a. WidthSays players positions value_bytes a) result width.old width.new }
{
    put_answer(
        nosingginger::choose_width(players, positions, value_bytes),
        width,
    )
}

// KEY LENGTH: the bytes of each player's key.
#[unsafe(no_mangle)]
pub extern "C" fn nsg_key_length(
    players: u32,
    positions: u32,
    width: u32,
    value_bytes: u32,
    length: &mut u32,
) -> u32
    ensures { Through (λ a. LongSays players positions width value_bytes a) result length.old length.new }
{
    put_answer(
        nosingginger::key_length(players, positions, width, value_bytes),
        length,
    )
}

// SENSOR POSITION.
#[unsafe(no_mangle)]
pub extern "C" fn nsg_sensor_position(sensor: u32, position: &mut u32) -> u32
    ensures { Through (λ a. SensorSays sensor a) result position.old position.new }
{
    put_answer(nosingginger::sensor_position(sensor), position)
}
