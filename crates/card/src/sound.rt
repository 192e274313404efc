// When a card is sound: SPEC 2.4. It is tested at each call, the cheap tests first.
ghost use Rattle.std.specs.Prelude.{◌≡◌, true, ◌+◌, ◌≤◌, ◌<◌, eqb, length};
ghost use Rattle.theory.specs.Bytes.{bytes_at};
ghost use Rattle.protocol.specs.Opcodes.{supported_only};
ghost use Rattle.member.specs.Record.{member_size};
ghost use Rattle.card.specs.Layout.{card_header_size, card_size, setup_of, in_use_of};
ghost use Rattle.card.specs.Sound.{sound_setup, IsMost, sound_for, sound_up_to};

use super::{CARD_HEADER_SIZE, FEATURES_AT, GETS_AT, IN_USE_AT, MEMBERS_AT, RECORD_SIZE, SETS_AT};
use objects::IDS;

pub fn is_setup_sound(card: &[u8]) -> bool
    requires { card_header_size ≤ length card.now }
    ensures { result ≡ sound_setup (setup_of card.now) }
{
    setups::in_ranges(
        super::wide(card[MEMBERS_AT]),
        super::wide(card[GETS_AT]),
        super::wide(card[SETS_AT]),
    )
}

// Whether the member whose bytes stand at a place is sound. Most holds what each object byte may be at most.
fn is_sound_at(card: &[u8], at: usize, most: &[u8; IDS]) -> bool
    requires { (card_header_size ≤ length card.now) × (at + member_size ≤ length card.now) × IsMost (setup_of card.now) most.now }
    ensures { result ≡ sound_for (setup_of card.now) (bytes_at at member_size card.now) }
{
    member::is_sound_record(
        wire::part(card, at),
        card[GETS_AT],
        card[SETS_AT],
        most,
        &card[FEATURES_AT..IN_USE_AT],
    )
}

// One pass over the members, the last one first: it steps from record to record, which is cheaper than to work out the
// place of each. A `while`: of a `for` over numbers the compiler keeps a test that has it load the features anew for each member.
fn is_each_sound(card: &[u8], most: &[u8; IDS]) -> bool
    requires { (length card.now ≡ card_size (setup_of card.now).members) × IsMost (setup_of card.now) most.now }
    ensures { result ≡ sound_up_to (setup_of card.now) card.now (setup_of card.now).members }
{
    let mut m = super::wide(card[MEMBERS_AT]);
    let mut at = card.len();
    while 0 < m {
        at -= RECORD_SIZE;
        if !is_sound_at(card, at, most) {
            return false;
        }
        m -= 1;
    }
    true
}

// What each object byte may be at most is the same for all members.
pub fn are_members_sound(card: &[u8]) -> bool
    requires { (length card.now ≡ card_size (setup_of card.now).members) × (sound_setup (setup_of card.now) ≡ true) }
    ensures { result ≡ sound_up_to (setup_of card.now) card.now (setup_of card.now).members }
{
    let table = objects::MOST;
    let ids = super::wide(card[GETS_AT]) + super::wide(card[SETS_AT]);
    let other = IDS - ids as usize;
    is_each_sound(card, wire::part(&table, other))
}

pub fn is_length_right(card: &[u8]) -> bool
    ensures { result ≡ eqb (length card.now) (card_size (setup_of card.now).members) }
{
    if card.len() < CARD_HEADER_SIZE {
        return false;
    }
    card.len() == CARD_HEADER_SIZE + RECORD_SIZE * (super::wide(card[MEMBERS_AT]) as usize)
}

pub fn is_use_supported(card: &[u8]) -> bool
    requires { card_header_size ≤ length card.now }
    ensures { result ≡ supported_only (in_use_of card.now) }
{
    protocol::supported_only(super::in_use(card))
}
