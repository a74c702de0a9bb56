// The positions of the spring board's sensors: nine lines of eight, wired to and fro, as a constant table.
// The rule of the table is proved once, over all its entries.
ghost use Rattle.std.specs.Prelude.{◌≡◌, ◌<◌};
ghost use Rattle.grid.specs.Sensors.{sensor_position};

pub const SENSORS: u32 = 72;

const PLACES: [u32; 72] = [
    0, 1, 2, 3, 4, 5, 6, 7, 15, 14, 13, 12, 11, 10, 9, 8, 16, 17, 18, 19, 20, 21, 22, 23, 31, 30,
    29, 28, 27, 26, 25, 24, 32, 33, 34, 35, 36, 37, 38, 39, 47, 46, 45, 44, 43, 42, 41, 40, 48, 49,
    50, 51, 52, 53, 54, 55, 63, 62, 61, 60, 59, 58, 57, 56, 64, 65, 66, 67, 68, 69, 70, 71,
];

// The position of a sensor below 72.
pub fn sensor_place(sensor: u32) -> u32
    requires { sensor < 72 }
    ensures { result ≡ sensor_position sensor }
{
    PLACES[sensor as usize]
}
