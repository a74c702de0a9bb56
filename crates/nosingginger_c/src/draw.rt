// Drawing a card: Draw card as a C function. Assumes nothing.
// Refusals are answered by number: C has numbers, and no `Result`.
ghost use Rattle.call_answers.specs.Answers.{DrawSays};

use refusal::answer_number;

// DRAW CARD: the XOR of the cards at which the key's entries are odd.
#[unsafe(no_mangle)]
pub extern "C" fn nsg_draw_card(key: &[u8], deck: &[u8], card_bytes: u32, out: &mut [u8]) -> u32
    ensures { DrawSays key.now deck.now card_bytes result
        out.old out.new }
{
    answer_number(nosingginger::draw_card(key, deck, card_bytes, out))
}
