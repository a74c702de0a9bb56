// Two functions over the library's public calls alone, whose contracts are promises. `deal_open_join` deals, gives each
// key to Open all and XORs the tables, and what it shows is the table with the value at the point and zeros on every
// other square; `open_both_ways` opens a square of a key by Open one and the whole key by Open all, and both give the
// square the same bytes. The contracts say every lent byte afterwards, of refused calls too. The proofs use the calls'
// contracts and nothing else of their code. No part of the shipped library. Assumes nothing.
#![tactic(auto)]

ghost use Rattle.std.specs.Prelude.{◌≡◌, length};
ghost use Rattle.refusal.specs.Refusing.{answer_number};
ghost use Rattle.grid.specs.Grid.{board};
ghost use Rattle.keys.specs.Keys.{lent};
ghost use Rattle.witness.specs.Witness.{ShowsThePiece, BothWays};
ghost use Rattle.witness.specs.Witness.{keys_lent, OpensEach, tables_joined, last_table};

use nosingginger::{Refusal, deal, key_length, open_all, open_one};
use writer::clear;
use xor::xor_into;

// How many bytes of the keys Deal is lent: all, or none where a table has no room. Lent none, Deal answers its own
// number or 9 and writes nothing.
#[tactic(auto, unfolding(crate::specs::Witness::keys_lent))]
fn keys_lent(keys: usize, table: usize, joined: usize, size: usize) -> usize
    ensures { result ≡ keys_lent keys table joined size }
{
    if table < size || joined < size {
        0
    } else {
        keys
    }
}

// Fills `joined` with the XOR of the tables of all keys. Each key is opened into `table`, where the last one's stays.
fn join_tables(keys: &[u8], key_bytes: usize, players: usize, table: &mut [u8], joined: &mut [u8])
    requires opens_each { OpensEach keys.now key_bytes players (length table.old) }
    requires joined_len { length joined.old ≡ length table.old }
    ensures joined_after { joined.new
        ≡ tables_joined players key_bytes (length table.old) keys.now }
    ensures table_after { table.new
        ≡ last_table players key_bytes keys.now table.old }
{
    clear(joined);
    let size = table.len();
    for player in 0..players {
        let from = player * key_bytes;
        open_all(&keys[from..from + key_bytes], table).unwrap();
        xor_into(joined, &table[..size]);
    }
}

// Deals, opens every key and joins the tables, into three lent outputs: the keys, one table in turn, the tables joined.
// Its first nine parameters are Deal's, one by one, as it speaks of the deals that Deal refuses too.
pub fn deal_open_join(
    players: u32,
    positions: u32,
    width: u32,
    value_bytes: u32,
    point: u32,
    value: &[u8],
    arrays: &[u8],
    seeds: &[u8],
    words: &[u8],
    keys: &mut [u8],
    table: &mut [u8],
    joined: &mut [u8],
) -> Result<(), Refusal>
    ensures { ShowsThePiece (board players positions width value_bytes)
        (lent point value.now arrays.now seeds.now words.now)
        keys.old table.old joined.old (answer_number result)
        keys.new table.new joined.new }
{
    let size = positions as usize * value_bytes as usize;
    let room = keys_lent(keys.len(), table.len(), joined.len(), size);
    deal(
        players,
        positions,
        width,
        value_bytes,
        point,
        value,
        arrays,
        seeds,
        words,
        &mut keys[..room],
    )?;
    let key_bytes = key_length(players, positions, width, value_bytes)?;
    join_tables(
        &keys[..],
        key_bytes as usize,
        players as usize,
        &mut table[..size],
        &mut joined[..size],
    );
    Ok(())
}

// Opens one square of a key alone, and then the whole key.
pub fn open_both_ways(
    key: &[u8],
    position: u32,
    one: &mut [u8],
    all: &mut [u8],
) -> Result<(), Refusal>
    ensures { BothWays key.now position one.old all.old (answer_number result)
        one.new all.new }
{
    open_one(key, position, one)?;
    open_all(key, all)
}
