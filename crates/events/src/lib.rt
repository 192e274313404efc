// Setup, hand back, wipe, card reset and card store: SPEC 7.
#![tactic(auto)]

ghost use Rattle.std.specs.Prelude.{◌≡◌, ◌≤◌, eqb, length, OnOk};
ghost use Rattle.theory.specs.Logic.{◌and◌};
ghost use Rattle.theory.specs.Bytes.{put};
ghost use Rattle.member.specs.Member.{features_size};
ghost use Rattle.card.specs.Layout.{card_header_size, card_size, HasRecord, counts_from, fresh_header, fresh_records, fresh_card, setup_of};
ghost use Rattle.setups.specs.Setup.{most_members, in_numbers};
ghost use Rattle.events.specs.Events.{InBounds, setup_with, refused_setup, set_up, set_up_of, set_up_from, member_answer, with_handed_back, hand_back, wipe, reset_card, store_in, store};

use card::{FEATURES_AT, IN_USE_AT, Setup};
use member::{FEATURES_SIZE, Member};
use protocol::{EventRefusal, FRESH_MASK};

// ---- setup ----

// The header of a fresh card.
fn write_header(card: &mut [u8], s: Setup)
    requires { card_header_size ≤ length card.old }
    ensures { card.new ≡ put 0 (fresh_header s) card.old }
{
    let numbers = [s.members, s.gets, s.sets];
    wire::copy(card, 0, &numbers);
    wire::copy(card, FEATURES_AT, &s.features);
    wire::write(card, IN_USE_AT, 8, FRESH_MASK);
}

// The records of fresh members with these queue counts, on a new card.
fn write_members(card: &mut [u8], queues: &[u8], features: [u8; FEATURES_SIZE])
    requires { length card.old ≡ card_size (length queues.now) }
    ensures { card.new ≡ put card_header_size (fresh_records features 0 queues.now) card.old }
{
    for (m, count) in queues.iter().enumerate() {
        card::write_record(card, m as u64 + 1, Member::fresh(*count, features), 0);
    }
}

// Every byte of a new card.
fn write_fresh(card: &mut [u8], s: Setup, queues: &[u8])
    requires { length card.old ≡ card_size (length queues.now) }
    ensures { card.new ≡ fresh_card s queues.now 0 }
{
    write_header(card, s);
    write_members(card, queues, s.features);
}

// A setup that is refused: the buffer becomes zeros.
fn refuse_setup(card: &mut [u8]) -> Result<(), EventRefusal>
    ensures { (result, card.new) ≡ refused_setup card.old }
{
    wire::zero(card);
    Err(EventRefusal::BadSetup)
}

// The setup with these numbers, which fit its bytes.
fn setup_with(members: u64, gets: u64, sets: u64, features: &[u8]) -> Setup
    requires { InBounds members gets sets × (length features.now ≡ features_size) }
    ensures { result ≡ setup_with members gets sets features.now }
{
    let mut own = [0u8; FEATURES_SIZE];
    wire::copy(&mut own, 0, features);
    Setup {
        members: members as u8,
        gets: gets as u8,
        sets: sets as u8,
        features: own,
    }
}

// Setup: a fresh card, or where it is refused a buffer of zeros. There is one queue count for each member; the features are 16
// bytes, and the buffer is one card long.
pub fn set_up(
    card: &mut [u8],
    members: u64,
    queues: &[u8],
    gets: u64,
    sets: u64,
    features: &[u8],
) -> Result<(), EventRefusal>
    ensures { (result, card.new) ≡ set_up card.old members queues.now gets sets features.now }
{
    if !setups::in_numbers(members, queues, gets, sets) {
        return refuse_setup(card);
    }
    if features.len() != FEATURES_SIZE {
        return refuse_setup(card);
    }
    if card.len() != card::card_bytes(members) {
        return refuse_setup(card);
    }
    let made = setup_with(members, gets, sets, features);
    write_fresh(card, made, queues);
    Ok(())
}

// Setup by value, whose counts past the last member's are not read.
fn set_up_of(card: &mut [u8], s: setups::Setup) -> Result<(), EventRefusal>
    requires { s.members ≤ most_members }
    ensures { (result, card.new) ≡ set_up_of card.old s }
{
    set_up(
        card,
        s.members as u64,
        &s.queues[0..s.members as usize],
        s.gets as u64,
        s.sets as u64,
        &s.features,
    )
}

// Setup of the bytes of a packed setup, of either version.
pub fn set_up_from(card: &mut [u8], setup: &[u8]) -> Result<(), EventRefusal>
    ensures { (result, card.new) ≡ set_up_from card.old setup.now }
{
    match setups::read(setup) {
        Ok(s) => set_up_of(card, s),
        Err(_) => refuse_setup(card),
    }
}

// ---- events ----

// An event for one member: the first refusal that applies.
pub fn member_answer(card: &[u8], m: u64) -> Result<(), EventRefusal>
    ensures answer { result ≡ member_answer card.now m }
    ensures whole { OnOk result (length card.now ≡ card_size (setup_of card.now).members) }
    ensures has { OnOk result (HasRecord card.now m) }
{
    if !card::is_sound(card) {
        return Err(EventRefusal::NotSound);
    }
    if !card::is_member(card, m) {
        return Err(EventRefusal::NoMember);
    }
    Ok(())
}

// Member m is handed back, and nothing of its holding place is left.
fn end_member(card: &mut [u8], m: u64)
    requires { HasRecord card.old m }
    ensures { card.new ≡ with_handed_back card.old m }
{
    let x = card::load_member(card, m).hand_back();
    card::save_member(card, m, x);
    card::zero_holding(card, m);
}

// Hand back, the first half of a reset: the member lets go of its guest, whose parts stay until the wipe.
pub fn hand_back(card: &mut [u8], m: u64) -> Result<(), EventRefusal>
    ensures { (result, card.new) ≡ hand_back card.old m }
{
    member_answer(card, m)?;
    if card::is_marked(card, m) {
        return Err(EventRefusal::WrongMark);
    }
    end_member(card, m);
    Ok(())
}

// Wipe, the second half: a marked member is fresh, with its queue count and this generation, and nothing else changes.
pub fn wipe(card: &mut [u8], m: u64, generation: u32) -> Result<(), EventRefusal>
    ensures { (result, card.new) ≡ wipe card.old m generation }
{
    member_answer(card, m)?;
    if !card::is_marked(card, m) {
        return Err(EventRefusal::WrongMark);
    }
    let s = card::setup_of(card);
    card::reset_record(card, m, s.features, generation);
    Ok(())
}

// The records of members 1 to n become fresh, each with the queue count that it has.
fn reset_members(card: &mut [u8], n: u64, features: [u8; FEATURES_SIZE], generation: u32)
    requires { length card.old ≡ card_size n }
    ensures { card.new ≡ put card_header_size (fresh_records features generation (counts_from card.old 1 n)) card.old }
{
    for m in 0..n {
        card::reset_record(card, m + 1, features, generation);
    }
}

// Every byte of a card with this setup, which holds the queue counts of its members.
fn rewrite(card: &mut [u8], s: Setup, generation: u32)
    requires { length card.old ≡ card_size s.members }
    ensures { card.new ≡ fresh_card s (counts_from card.old 1 s.members) generation }
{
    write_header(card, s);
    reset_members(card, s.members as u64, s.features, generation);
}

// Reset of the whole card: as after setup, with this generation for all members.
pub fn reset_card(card: &mut [u8], generation: u32) -> Result<(), EventRefusal>
    ensures { (result, card.new) ≡ reset_card card.old generation }
{
    if !card::is_sound(card) {
        return Err(EventRefusal::NotSound);
    }
    let s = card::setup_of(card);
    rewrite(card, s, generation);
    Ok(())
}

// One part of member m is set, with the selector bytes that its type names.
fn store_in(
    card: &mut [u8],
    m: u64,
    t: u16,
    selector: u64,
    value: &[u8],
) -> Result<(), EventRefusal>
    requires { HasRecord card.old m }
    ensures { (result, card.new) ≡ store_in card.old m t selector value.now }
{
    let x = card::load_member(card, m);
    values::store_answer(x.queues, t, selector, value)?;
    card::save_member(card, m, x.store(t, selector, value));
    Ok(())
}

// A card store, SPEC 7.5: the data path sets one part of one member, in either mode.
pub fn store(
    card: &mut [u8],
    m: u64,
    t: u16,
    selector: u64,
    value: &[u8],
) -> Result<(), EventRefusal>
    ensures { (result, card.new) ≡ store card.old m t selector value.now }
{
    member_answer(card, m)?;
    store_in(card, m, t, inventory::selector_of(t, selector), value)
}
