// What shares pick of a deck: the XOR of the cards at which a share of one byte has its lowest bit set. Half of the
// shares have, at random, and which ones is secret: so no card is asked whether it is wanted. The shares are made
// masks, and every byte of every card is XORed under its mask, two cards in one pass over the sum. Assumes nothing.
#![tactic(auto)]

ghost use Rattle.std.specs.Prelude.{◌≡◌, ◌+◌, ◌*◌, ◌≤◌, length, take, drop};
ghost use Rattle.xor.specs.Xor.{xors};
ghost use Rattle.cards.specs.Cards.{at_share, picked, mask, masks};

// So many bytes of a card are gone over at once: as many as one register takes (seen with rt's compiler on x86-64).
const AT_ONCE: usize = 16;

// Makes shares masks. They stand in memory as masks before a card is read by one: of a mask that it sees made of a
// single bit rt's compiler makes a branch (seen on x86-64).
pub fn make_masks(shares: &mut [u8])
    ensures { shares.new ≡ masks shares.old }
{
    for share in shares.iter_mut() {
        *share = (*share & 1) * 255;
    }
}

// XORs one card into `sum` under its mask.
fn add_card(wanted: u8, card: &[u8], sum: &mut [u8])
    requires { (mask wanted ≡ wanted) × (length sum.old ≡ length card.now) }
    ensures { sum.new ≡ xors sum.old
        (at_share (length sum.old) wanted card.now) }
{
    for (i, byte) in sum.iter_mut().enumerate() {
        *byte = *byte ^ card[i] & wanted;
    }
}

// Two names and no pattern: a slice's pattern would need a way for other lengths, which there are none of.
// XORs into `sum` a stretch of what two masks pick of the first two cards, which have `card` bytes each: from byte
// `from` on, as many as `sum` has.
fn add_stretch(wanted: &[u8], cards: &[u8], card: usize, from: usize, sum: &mut [u8])
    requires { (masks wanted.now ≡ wanted.now) × (length wanted.now ≡ 2) × (2 * card ≤ length cards.now)
        × (from + length sum.old ≤ card) }
    ensures { sum.new ≡ xors sum.old
        (take (length sum.old) (drop from (picked card wanted.now cards.now))) }
{
    let first = wanted[0];
    let second = wanted[1];
    let next = card + from;
    for (i, byte) in sum.iter_mut().enumerate() {
        *byte = *byte ^ cards[from + i] & first ^ cards[next + i] & second;
    }
}

// XORs into `sum`, which has a card's length, what two masks pick of the first two cards.
fn add_two(wanted: &[u8], cards: &[u8], sum: &mut [u8])
    requires { (masks wanted.now ≡ wanted.now) × (length wanted.now ≡ 2)
        × (2 * length sum.old ≤ length cards.now) }
    ensures { sum.new ≡ xors sum.old
        (picked (length sum.old) wanted.now cards.now) }
{
    let card = sum.len();
    let whole = card / AT_ONCE * AT_ONCE;
    // Tried: a `for` over the stretches takes 1.13 of this time where cards have 16 bytes.
    let mut done: usize = 0;
    while done < whole {
        let end = done + AT_ONCE;
        add_stretch(wanted, cards, card, done, &mut sum[done..end]);
        done = end;
    }
    add_stretch(wanted, cards, card, whole, &mut sum[whole..]);
}

// Masks and cards stay two: the masks are this call's scratch, the deck is lent by the caller.
// XORs into `sum`, which has a card's length, what the masks pick of the cards. Each mask has its card.
pub fn add_cards(wanted: &[u8], cards: &[u8], sum: &mut [u8])
    requires { (masks wanted.now ≡ wanted.now) × (length wanted.now * length sum.old ≤ length cards.now) }
    ensures { sum.new ≡ xors sum.old
        (picked (length sum.old) wanted.now cards.now) }
{
    let card = sum.len();
    // Tried: a `for` over the pairs takes 1.09 of this time where cards have 16 bytes.
    let mut at: usize = 0;
    while 2 <= wanted.len() - at {
        let end = at + 2;
        add_two(&wanted[at..end], &cards[at * card..], sum);
        at = end;
    }
    if at == wanted.len() {
        return;
    }
    let start = at * card;
    let end = start + card;
    add_card(wanted[at], &cards[start..end], sum);
}
