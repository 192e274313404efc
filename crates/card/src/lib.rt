// The card as lent bytes: its layout, SPEC 2.7, and soundness, SPEC 2.4.
#![tactic(auto)]

mod sound;

ghost use Rattle.std.specs.Prelude.{◌≡◌, ◌+◌, ◌^◌, ◌≤◌, ◌<◌, length};
ghost use Rattle.theory.specs.Bytes.{put};
ghost use Rattle.member.specs.Record.{holding_size};
ghost use Rattle.card.specs.Layout.{card_header_size, card_size, card_bytes, setup_of, in_use_of, with_in_use, is_member, record_at, HasRecord, member_bytes_in, member_in, with_member, is_marked, configuration_size, configuration_in, generation_in, with_configuration, no_configuration, holding_in, with_holding, no_bytes, with_record, with_fresh};
ghost use Rattle.card.specs.Sound.{is_sound};

use member::{FEATURES_SIZE, HOLDING_SIZE, MEMBER_SIZE, Member};

// A card's setup, from its header; the queue counts stand in the members' records.
#[derive(Clone, Copy)]
pub struct Setup {
    pub members: u8,
    pub gets: u8,
    pub sets: u8,
    pub features: [u8; FEATURES_SIZE],
}

// Raised whenever a card's bytes change their meaning.
pub const VERSION: u32 = 5;

// Header: N, G, S 1 byte each, device features 16, list in use 8; then a record for each member.
const MEMBERS_AT: usize = 0;

const GETS_AT: usize = 1;

const SETS_AT: usize = 2;

pub const FEATURES_AT: usize = 3;

pub const IN_USE_AT: usize = 19;

const CARD_HEADER_SIZE: usize = 27;

// A record: the bytes of its member, its configuration and generation, the bytes of its holding place.
const CONFIGURATION_AT: usize = MEMBER_SIZE;

pub const CONFIGURATION_SIZE: usize = 12;

const GENERATION_AT: usize = CONFIGURATION_AT + CONFIGURATION_SIZE;

const GENERATION_SIZE: usize = 4;

const HOLDING_AT: usize = GENERATION_AT + GENERATION_SIZE;

const RECORD_SIZE: usize = HOLDING_AT + HOLDING_SIZE;

const MOST_MEMBERS: u64 = 16;

// ---- the layout ----

// A byte as a number of the width that members are counted in.
fn wide(b: u8) -> u64
    ensures { (result ≡ b) × (result < 256) }
{
    b as u64
}

// The exact length of a card in bytes, 0 if there is none with so many members.
pub fn card_bytes(members: u64) -> usize
    ensures { result ≡ card_bytes members }
{
    if members < 1 {
        return 0;
    }
    if members <= MOST_MEMBERS {
        return CARD_HEADER_SIZE + RECORD_SIZE * (members as usize);
    }
    0
}

// The setup that a card's header holds.
pub fn setup_of(card: &[u8]) -> Setup
    requires { card_header_size ≤ length card.now }
    ensures { result ≡ setup_of card.now }
{
    let mut features = [0u8; FEATURES_SIZE];
    wire::copy(&mut features, 0, &card[FEATURES_AT..IN_USE_AT]);
    Setup {
        members: card[MEMBERS_AT],
        gets: card[GETS_AT],
        sets: card[SETS_AT],
        features,
    }
}

// The list of commands in use.
pub fn in_use(card: &[u8]) -> u64
    requires { card_header_size ≤ length card.now }
    ensures { result ≡ in_use_of card.now }
{
    wire::read_u64(card, IN_USE_AT)
}

pub fn set_in_use(card: &mut [u8], mask: u64)
    requires { card_header_size ≤ length card.old }
    ensures { card.new ≡ with_in_use card.old mask }
{
    wire::write(card, IN_USE_AT, 8, mask);
}

// Members are identified 1 to N.
pub fn is_member(card: &[u8], m: u64) -> bool
    requires { card_header_size ≤ length card.now }
    ensures { result ≡ is_member card.now m }
{
    if m < 1 {
        return false;
    }
    m <= wide(card[MEMBERS_AT])
}

// The place of member m's record.
fn record_at(m: u64) -> usize
    requires { (1 ≤ m) × (record_at m < 2 ^ 64) }
    ensures { result ≡ record_at m }
{
    CARD_HEADER_SIZE + RECORD_SIZE * (m as usize - 1)
}

// The bytes of member m, where they stand.
pub fn member_bytes(card: &[u8], m: u64) -> &[u8; MEMBER_SIZE]
    requires { HasRecord card.now m }
    ensures { result.now ≡ member_bytes_in card.now m }
{
    wire::part(card, record_at(m))
}

// Member m by value, and the card with another member m.
pub fn load_member(card: &[u8], m: u64) -> Member
    requires { HasRecord card.now m }
    ensures { result ≡ member_in card.now m }
{
    member::load(member_bytes(card, m))
}

pub fn save_member(card: &mut [u8], m: u64, x: Member)
    requires { HasRecord card.old m }
    ensures { card.new ≡ with_member card.old m x }
{
    let at = record_at(m);
    member::save(x, &mut card[at..at + MEMBER_SIZE]);
}

// Whether m is a member that is marked: handed back and not yet wiped.
pub fn is_marked(card: &[u8], m: u64) -> bool
    requires { length card.now ≡ card_size (setup_of card.now).members }
    ensures { result ≡ is_marked card.now m }
{
    if !is_member(card, m) {
        return false;
    }
    member::is_marked(member_bytes(card, m))
}

// The record of member m becomes x's, with this generation and zeros in the rest.
pub fn write_record(card: &mut [u8], m: u64, x: Member, generation: u32)
    requires { HasRecord card.old m }
    ensures { card.new ≡ with_record card.old m x generation }
{
    save_member(card, m, x);
    reset_configuration(card, m, generation);
    zero_holding(card, m);
}

// It becomes a fresh member's, with the queue count that it has, whatever else it holds.
pub fn reset_record(card: &mut [u8], m: u64, features: [u8; FEATURES_SIZE], generation: u32)
    requires { HasRecord card.old m }
    ensures { card.new ≡ with_fresh card.old m features generation }
{
    let x = load_member(card, m).wiped(features);
    write_record(card, m, x, generation);
}

// The configuration bytes of member m, where they stand.
pub fn configuration(card: &[u8], m: u64) -> &[u8]
    requires { HasRecord card.now m }
    ensures { result.now ≡ configuration_in card.now m }
{
    let at = record_at(m) + CONFIGURATION_AT;
    &card[at..at + CONFIGURATION_SIZE]
}

pub fn generation(card: &[u8], m: u64) -> u32
    requires { HasRecord card.now m }
    ensures { result ≡ generation_in card.now m }
{
    wire::read_u32(card, record_at(m) + GENERATION_AT)
}

// Bytes are written into its configuration from an offset on, and this becomes its generation.
pub fn write_configuration(card: &mut [u8], m: u64, offset: usize, bytes: &[u8], generation: u32)
    requires { HasRecord card.old m × (offset + length bytes.now ≤ configuration_size) }
    ensures { card.new ≡ with_configuration card.old m (put offset bytes.now (configuration_in card.old m)) generation }
{
    let at = record_at(m) + CONFIGURATION_AT;
    wire::copy(card, at + offset, bytes);
    wire::write(
        card,
        at + CONFIGURATION_SIZE,
        GENERATION_SIZE,
        generation as u64,
    );
}

// All of its configuration becomes zero.
fn reset_configuration(card: &mut [u8], m: u64, generation: u32)
    requires { HasRecord card.old m }
    ensures { card.new ≡ with_configuration card.old m no_configuration generation }
{
    let none = [0u8; CONFIGURATION_SIZE];
    write_configuration(card, m, 0, &none, generation);
}

// The bytes of member m's holding place, where they stand.
pub fn holding(card: &[u8], m: u64) -> &[u8]
    requires { HasRecord card.now m }
    ensures { result.now ≡ holding_in card.now m }
{
    let at = record_at(m) + HOLDING_AT;
    &card[at..at + HOLDING_SIZE]
}

// Bytes are written into it from a place on.
pub fn write_holding(card: &mut [u8], m: u64, from: usize, bytes: &[u8])
    requires { HasRecord card.old m × (from + length bytes.now ≤ holding_size) }
    ensures { card.new ≡ with_holding card.old m (put from bytes.now (holding_in card.old m)) }
{
    let at = record_at(m) + HOLDING_AT;
    wire::copy(card, at + from, bytes);
}

// All of them become zero.
pub fn zero_holding(card: &mut [u8], m: u64)
    requires { HasRecord card.old m }
    ensures { card.new ≡ with_holding card.old m no_bytes }
{
    let at = record_at(m) + HOLDING_AT;
    wire::zero(&mut card[at..at + HOLDING_SIZE]);
}

// ---- soundness ----

// Whether the card is sound: tried at each command, the cheap tests first.
pub fn is_sound(card: &[u8]) -> bool
    ensures { result ≡ is_sound card.now }
{
    if !sound::is_length_right(card) {
        return false;
    }
    if !sound::is_setup_sound(card) {
        return false;
    }
    if !sound::is_use_supported(card) {
        return false;
    }
    sound::are_members_sound(card)
}
