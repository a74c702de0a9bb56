// Test vectors: RFC 8439's quarter round (2.1.1), block (2.3.2) and key streams (A.1), as the RFC prints them, expansions of two seeds, from
// the start and from later bytes on, against the key streams that OpenSSL wrote into data/ (make-data.sh), and those lines of document 01
// that are not marked †. Each is compared as the program runs, and a line says whether they are equal. Assumes nothing.
#![tactic(auto)]

ghost use Rattle.std.specs.Prelude.{◌+◌, ◌≤◌, length};

use full_read::{opened, read_full};
use grid::board::Board;
use key_header::numbers::Reader;
use refusal::answer_number;
use std::io::Eprint;
use std::rt::Files;

// One block by key, counter and nonce, as the RFC prints it.
#[derive(Clone, Copy)]
struct Vector {
    name: &'static str,
    key: &'static [u8; 32],
    counter: u32,
    nonce: &'static [u8; 12],
    expected: &'static [u8; 64],
}

const VECTORS: [Vector; 6] = [
    Vector {
        name: "block 2.3.2",
        key: b"\x00\x01\x02\x03\x04\x05\x06\x07\x08\x09\x0a\x0b\x0c\x0d\x0e\x0f\x10\x11\x12\x13\x14\x15\x16\x17\x18\x19\x1a\x1b\x1c\x1d\x1e\x1f",
        counter: 1,
        nonce: b"\x00\x00\x00\x09\x00\x00\x00\x4a\x00\x00\x00\x00",
        expected: b"\x10\xf1\xe7\xe4\xd1\x3b\x59\x15\x50\x0f\xdd\x1f\xa3\x20\x71\xc4\xc7\xd1\xf4\xc7\x33\xc0\x68\x03\x04\x22\xaa\x9a\xc3\xd4\x6c\x4e\
            \xd2\x82\x64\x46\x07\x9f\xaa\x09\x14\xc2\xd7\x05\xd9\x8b\x02\xa2\xb5\x12\x9c\xd1\xde\x16\x4e\xb9\xcb\xd0\x83\xe8\xa2\x50\x3c\x4e",
    },
    Vector {
        name: "key stream A.1 #1",
        key: b"\x00\x00\x00\x00\x00\x00\x00\x00\x00\x00\x00\x00\x00\x00\x00\x00\x00\x00\x00\x00\x00\x00\x00\x00\x00\x00\x00\x00\x00\x00\x00\x00",
        counter: 0,
        nonce: b"\x00\x00\x00\x00\x00\x00\x00\x00\x00\x00\x00\x00",
        expected: b"\x76\xb8\xe0\xad\xa0\xf1\x3d\x90\x40\x5d\x6a\xe5\x53\x86\xbd\x28\xbd\xd2\x19\xb8\xa0\x8d\xed\x1a\xa8\x36\xef\xcc\x8b\x77\x0d\xc7\
            \xda\x41\x59\x7c\x51\x57\x48\x8d\x77\x24\xe0\x3f\xb8\xd8\x4a\x37\x6a\x43\xb8\xf4\x15\x18\xa1\x1c\xc3\x87\xb6\x69\xb2\xee\x65\x86",
    },
    Vector {
        name: "key stream A.1 #2",
        key: b"\x00\x00\x00\x00\x00\x00\x00\x00\x00\x00\x00\x00\x00\x00\x00\x00\x00\x00\x00\x00\x00\x00\x00\x00\x00\x00\x00\x00\x00\x00\x00\x00",
        counter: 1,
        nonce: b"\x00\x00\x00\x00\x00\x00\x00\x00\x00\x00\x00\x00",
        expected: b"\x9f\x07\xe7\xbe\x55\x51\x38\x7a\x98\xba\x97\x7c\x73\x2d\x08\x0d\xcb\x0f\x29\xa0\x48\xe3\x65\x69\x12\xc6\x53\x3e\x32\xee\x7a\xed\
            \x29\xb7\x21\x76\x9c\xe6\x4e\x43\xd5\x71\x33\xb0\x74\xd8\x39\xd5\x31\xed\x1f\x28\x51\x0a\xfb\x45\xac\xe1\x0a\x1f\x4b\x79\x4d\x6f",
    },
    Vector {
        name: "key stream A.1 #3",
        key: b"\x00\x00\x00\x00\x00\x00\x00\x00\x00\x00\x00\x00\x00\x00\x00\x00\x00\x00\x00\x00\x00\x00\x00\x00\x00\x00\x00\x00\x00\x00\x00\x01",
        counter: 1,
        nonce: b"\x00\x00\x00\x00\x00\x00\x00\x00\x00\x00\x00\x00",
        expected: b"\x3a\xeb\x52\x24\xec\xf8\x49\x92\x9b\x9d\x82\x8d\xb1\xce\xd4\xdd\x83\x20\x25\xe8\x01\x8b\x81\x60\xb8\x22\x84\xf3\xc9\x49\xaa\x5a\
            \x8e\xca\x00\xbb\xb4\xa7\x3b\xda\xd1\x92\xb5\xc4\x2f\x73\xf2\xfd\x4e\x27\x36\x44\xc8\xb3\x61\x25\xa6\x4a\xdd\xeb\x00\x6c\x13\xa0",
    },
    Vector {
        name: "key stream A.1 #4",
        key: b"\x00\xff\x00\x00\x00\x00\x00\x00\x00\x00\x00\x00\x00\x00\x00\x00\x00\x00\x00\x00\x00\x00\x00\x00\x00\x00\x00\x00\x00\x00\x00\x00",
        counter: 2,
        nonce: b"\x00\x00\x00\x00\x00\x00\x00\x00\x00\x00\x00\x00",
        expected: b"\x72\xd5\x4d\xfb\xf1\x2e\xc4\x4b\x36\x26\x92\xdf\x94\x13\x7f\x32\x8f\xea\x8d\xa7\x39\x90\x26\x5e\xc1\xbb\xbe\xa1\xae\x9a\xf0\xca\
            \x13\xb2\x5a\xa2\x6c\xb4\xa6\x48\xcb\x9b\x9d\x1b\xe6\x5b\x2c\x09\x24\xa6\x6c\x54\xd5\x45\xec\x1b\x73\x74\xf4\x87\x2e\x99\xf0\x96",
    },
    Vector {
        name: "key stream A.1 #5",
        key: b"\x00\x00\x00\x00\x00\x00\x00\x00\x00\x00\x00\x00\x00\x00\x00\x00\x00\x00\x00\x00\x00\x00\x00\x00\x00\x00\x00\x00\x00\x00\x00\x00",
        counter: 0,
        nonce: b"\x00\x00\x00\x00\x00\x00\x00\x00\x00\x00\x00\x02",
        expected: b"\xc2\xc6\x4d\x37\x8c\xd5\x36\x37\x4a\xe2\x04\xb9\xef\x93\x3f\xcd\x1a\x8b\x22\x88\xb3\xdf\xa4\x96\x72\xab\x76\x5b\x54\xee\x27\xc7\
            \x8a\x97\x0e\x0e\x95\x5c\x14\xf3\xa8\x8e\x74\x1b\x97\xc2\x86\xf7\x5f\x8f\xc2\x99\xe8\x14\x83\x62\xfa\x19\x8a\x39\x53\x1b\xed\x6d",
    },
];

// The bytes of a seed's key stream that are tried: from which one, and up to which.
const STRETCHES: [(usize, usize); 14] = [
    (0, 0),
    (0, 1),
    (0, 63),
    (0, 64),
    (0, 65),
    (0, 4095),
    (0, 4096),
    (1, 64),
    (63, 65),
    (64, 128),
    (65, 4096),
    (4080, 4096),
    (4095, 4096),
    (4096, 4096),
];

// What a comparison has found.
fn found(equal: bool) -> &'static str {
    if equal { "equal" } else { "DIFFERENT" }
}

// RFC 8439, 2.1.1: the four words at the places of the first quarter round, the others zero before and after.
fn quarter_round(rt: &impl Print) -> std::io::Result<()> {
    let state = [
        0x11111111, 0, 0, 0, 0x01020304, 0, 0, 0, 0x9b8d6f43, 0, 0, 0, 0x01234567, 0, 0, 0,
    ];
    let expected = [
        0xea2a92f4, 0, 0, 0, 0xcb1cf8ce, 0, 0, 0, 0x4581472e, 0, 0, 0, 0x5881c4bb, 0, 0, 0,
    ];
    let equal = chacha20::quarter_round(state, [0, 4, 8, 12]) == expected;
    println!(rt; "RFC 8439 quarter round 2.1.1: {}", found(equal))
}

// A block, against the RFC's.
fn block(rt: &impl Print, vector: Vector) -> std::io::Result<()> {
    let Vector {
        name,
        key,
        counter,
        nonce,
        expected,
    } = vector;
    let mut out = [0; 64];
    chacha20_blocks::block(key, counter, nonce, &mut out);
    println!(rt; "RFC 8439 {name}: {}", found(out == *expected))
}

// The bytes of a file of data/, as many as `out` has room for.
fn read(rt: &(impl Eprint + Files), path: &str, out: &mut [u8]) -> std::io::Result<()> {
    let mut file = opened(rt, path)?;
    read_full(&mut file, out)?;
    Ok(())
}

// Whether the expansion from byte `start` on has these bytes of the seed's key stream.
fn expands(seed: &[u8; 32], start: usize, stream: &[u8]) -> bool
    requires { start + length stream.now ≤ 4096 }
{
    let mut out = io::buffer();
    let out = &mut out[..stream.len()];
    seed_row::expand(seed, start, out);
    stream == &*out
}

// All stretches, by the files of a seed and its key stream. One that lies outside of the stream differs.
fn expansions(
    rt: &(impl Eprint + Files + Print),
    name: &str,
    seed_path: &str,
    stream_path: &str,
) -> std::io::Result<()> {
    let mut seed = [0; 32];
    read(rt, seed_path, &mut seed)?;
    let mut stream = io::buffer();
    read(rt, stream_path, &mut stream)?;
    for (start, end) in STRETCHES {
        match stream.get(start..end) {
            Some(stretch) => {
                let count = stretch.len();
                let equal = expands(&seed, start, stretch);
                println!(rt;
                    "{name} seed, from {start}, bytes {count}: {}",
                    found(equal)
                )?;
            }
            None => println!(rt; "{name} seed, from {start} to {end}: {}", found(false))?,
        }
    }
    Ok(())
}

// A line of document 01, and whether it holds.
fn document_01(rt: &impl Print, line: &str, holds: bool) -> std::io::Result<()> {
    println!(rt; "document 01, {line}: {}", found(holds))
}

// The header number, in groups of seven bits, that bytes begin with.
fn number_in(bytes: &[u8]) -> Option<u32> {
    let (value, _) = (Reader { at: 0 }).number(bytes)?;
    Some(value)
}

fn numbers_of_document_01(rt: &impl Print) -> std::io::Result<()> {
    document_01(rt, "72 is 48", number_in(b"\x48") == Some(72))?;
    document_01(rt, "128 is 80 01", number_in(b"\x80\x01") == Some(128))?;
    document_01(
        rt,
        "65536 is 80 80 04",
        number_in(b"\x80\x80\x04") == Some(65536),
    )
}

// The largest board has 256 grid rows at the largest width.
fn grid_rows_of_document_01(rt: &impl Print) -> std::io::Result<()> {
    let board = Board::new(2, 65536, 256, 1);
    document_01(
        rt,
        "65536 positions at width 256 have 256 grid rows",
        board.is_ok_and(|board| board.grid_rows() == 256),
    )
}

fn answers_of_document_01(rt: &impl Print) -> std::io::Result<()> {
    document_01(
        rt,
        "65536 positions at width 255 are refused by 5",
        answer_number(nosingginger::key_length(2, 65536, 255, 1)) == 5,
    )?;
    document_01(
        rt,
        "sensor 8 is 15",
        nosingginger::sensor_position(8) == Ok(15),
    )?;
    document_01(
        rt,
        "sensor 71 is 71",
        nosingginger::sensor_position(71) == Ok(71),
    )?;
    document_01(
        rt,
        "sensor 72 is refused by 17",
        answer_number(nosingginger::sensor_position(72)) == 17,
    )
}

fn main(rt: HostRuntime) -> std::io::Result<()> {
    quarter_round(&rt)?;
    for vector in VECTORS {
        block(&rt, vector)?;
    }
    expansions(&rt, "first", "first.seed", "first.stream")?;
    expansions(&rt, "second", "second.seed", "second.stream")?;
    numbers_of_document_01(&rt)?;
    grid_rows_of_document_01(&rt)?;
    answers_of_document_01(&rt)
}
