// Draw card: Check key's numbers, 21, 22 and 9, and the XOR of the cards at which the entries of a key's full table are
// odd (field: the answer of one server in private information retrieval). No table is kept: the entries are worked out
// one grid row at a time. Assumes nothing.
#![tactic(auto)]

mod asked;

ghost use Rattle.std.specs.Prelude.{◌≡◌, ◌*◌, ◌≤◌, ◌<◌, length};
ghost use Rattle.xor.specs.Xor.{xors};
ghost use Rattle.seed_rows.specs.Rows.{rule};
ghost use Rattle.refusal.specs.Refusing.{answer_number};
ghost use Rattle.grid.specs.Grid.{grid_rows};
ghost use Rattle.grid.specs.Code.{board_of};
ghost use Rattle.open_key.specs.Opened.{table_of, entries_long, entries_of};
ghost use Rattle.cards.specs.Cards.{picked};
ghost use Rattle.call_answers.specs.Answers.{DrawSays};

use asked::draw_refusal;
use cards::{add_cards, make_masks};
use key_check::body::{Body, check_body};
use open_key::add_entries;
use refusal::Refusal;

// XORs into `sum`, which has a card's length, what the entries of one grid row pick of the cards, which begin with that
// grid row's first. `shares` is lent to work in, a byte for each entry.
fn add_grid_row(body: &Body<'_>, grid_row: usize, shares: &mut [u8], cards: &[u8], sum: &mut [u8])
    requires { (grid_row < grid_rows (board_of body.now.board))
        × (length shares.old ≡ entries_long (board_of body.now.board) grid_row)
        × (length shares.old * length sum.old ≤ length cards.now) }
    ensures { sum.new ≡ xors sum.old (picked (length sum.old)
        (entries_of (board_of body.now.board) (rule (board_of body.now.board)) body.now.bytes.now grid_row) cards.now) }
{
    shares.fill(0);
    add_entries(body, grid_row, shares);
    make_masks(shares);
    add_cards(shares, cards, sum);
}

// XORs into `sum`, which has a card's length, what the full table picks of the deck, grid row by grid row. `shares` is
// lent to work in.
fn add_deck(body: &Body<'_>, deck: &[u8], shares: &mut [u8], sum: &mut [u8])
    requires { (body.now.board.value_bytes ≡ 1)
        × (length deck.now ≡ body.now.board.positions * length sum.old) × (length shares.old ≡ 256) }
    ensures { sum.new ≡ xors sum.old (picked (length sum.old)
        (table_of (board_of body.now.board) (rule (board_of body.now.board)) body.now.bytes.now) deck.now) }
{
    let card = sum.len();
    let width = body.board.width as usize;
    let positions = body.board.positions as usize;
    for grid_row in 0..body.board.grid_rows() {
        let at = grid_row * width;
        let count = width.min(positions - at);
        add_grid_row(
            body,
            grid_row,
            &mut shares[..count],
            &deck[at * card..],
            sum,
        );
    }
}

// Fills `out`, which has a card's length, with what the full table picks of the deck. The sum is kept here until it is
// whole: of bytes that nobody lent the compiler knows that no card stands among them.
fn fill_drawn(body: &Body<'_>, deck: &[u8], out: &mut [u8])
    requires { (body.now.board.value_bytes ≡ 1)
        × (length deck.now ≡ body.now.board.positions * length out.old) × (length out.old ≤ 256) }
    ensures { out.new ≡ picked (length out.old)
        (table_of (board_of body.now.board) (rule (board_of body.now.board)) body.now.bytes.now) deck.now }
{
    let card = out.len();
    let mut shares = [0u8; 256];
    let mut sum = [0u8; 256];
    add_deck(body, deck, &mut shares, &mut sum[..card]);
    writer::put(out, 0, &sum[..card]);
}

// DRAW CARD: Check key's numbers, 21, 22, 9; writes the XOR of the cards at which the key's entries are odd.
pub fn draw_card(key: &[u8], deck: &[u8], card_bytes: u32, output: &mut [u8]) -> Result<(), Refusal>
    ensures { DrawSays key.now deck.now card_bytes (answer_number result)
        output.old output.new }
{
    let (_, body) = check_body(key)?;
    draw_refusal(body.board, card_bytes, deck.len(), output.len())?;
    fill_drawn(&body, deck, &mut output[..card_bytes as usize]);
    Ok(())
}
