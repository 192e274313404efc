// Restore in fragments, SPEC 13.6: begin, feed, finish and drop of a member's holding place (02's term).
#![tactic(auto)]

ghost use Rattle.std.specs.Prelude.{◌≡◌, true, ◌+◌, ◌≤◌, length, take};
ghost use Rattle.theory.specs.Bytes.{put};
ghost use Rattle.member.specs.Record.{holding_size};
ghost use Rattle.member.specs.Member.{with_held};
ghost use Rattle.card.specs.Layout.{HasRecord, is_member, with_member, holding_in, with_holding, no_bytes};
ghost use Rattle.card.specs.Sound.{is_sound};
ghost use Rattle.staging.specs.SetSteps.{set_into};
ghost use Rattle.staging.specs.Staging.{answer_number, member_refusal, open_refusal, begin_of, feed_of, finish_of, drop_of};

use member::{HOLDING_SIZE, Member};
use protocol::{ChangeOp, Refusal};

const NOT_SOUND: u32 = 9;

const PARTS_SET: usize = 0x10;

// ---- the answers ----

// Why a call is refused: the card is not sound, or as a command is.
#[derive(Clone, Copy, Debug, PartialEq, Eq)]
pub enum RestoreError {
    NotSound,
    Refused(Refusal),
}

// 0 for a success, 9 for an unsound card, and status + 65,536 x qualifier for a refusal.
pub fn number(answer: Result<(), RestoreError>) -> u32
    ensures { result ≡ answer_number answer }
{
    let Err(error) = answer else {
        return 0;
    };
    let RestoreError::Refused(refusal) = error else {
        return NOT_SOUND;
    };
    protocol::status(Err(refusal)) as u32 + 65536 * (protocol::qualifier(Err(refusal)) as u32)
}

// A call for one member: the first refusal that applies.
fn check_member(card: &[u8], m: u64) -> Result<(), RestoreError>
    ensures { result ≡ member_refusal card.now m }
{
    if !card::is_sound(card) {
        return Err(RestoreError::NotSound);
    }
    if !card::is_member(card, m) {
        return Err(RestoreError::Refused(Refusal::NoMember));
    }
    if card::is_marked(card, m) {
        return Err(RestoreError::Refused(Refusal::Marked));
    }
    Ok(())
}

// A call for one member that has begun a restore: the first refusal that applies.
fn check_open(card: &[u8], m: u64) -> Result<(), RestoreError>
    ensures { result ≡ open_refusal card.now m }
{
    check_member(card, m)?;
    let x = card::load_member(card, m);
    let held = x.held;
    if held == 0 {
        return Err(RestoreError::Refused(Refusal::NotLive));
    }
    Ok(())
}

// ---- the calls ----

// The holding place is gone, and nothing of its bytes is left; x is the member.
fn end(card: &mut [u8], m: u64, x: Member)
    requires { HasRecord card.old m }
    ensures { card.new ≡ with_holding (with_member card.old m (with_held x 0)) m no_bytes }
{
    card::save_member(card, m, x.with_held(0));
    card::zero_holding(card, m);
}

// An empty holding place is opened.
pub fn begin(card: &mut [u8], m: u64) -> Result<(), RestoreError>
    ensures { (answer_number result, card.new) ≡ begin_of card.old m }
{
    check_member(card, m)?;
    let x = card::load_member(card, m);
    let held = x.held;
    if held != 0 {
        return Err(RestoreError::Refused(Refusal::Exists));
    }
    card::save_member(card, m, x.with_held(1));
    Ok(())
}

// The holding place has these bytes from a place on; x is the member.
fn hold(card: &mut [u8], m: u64, x: Member, from: usize, bytes: &[u8])
    requires { HasRecord card.old m × (from + length bytes.now ≤ holding_size) }
    ensures { card.new ≡ with_holding (with_member card.old m x) m (put from bytes.now (holding_in card.old m)) }
{
    card::save_member(card, m, x);
    card::write_holding(card, m, from, bytes);
}

// A fragment goes behind the bytes that are held; one that does not fit ends the holding place.
pub fn feed(card: &mut [u8], m: u64, fragment: &[u8]) -> Result<(), RestoreError>
    ensures { (answer_number result, card.new) ≡ feed_of card.old m fragment.now }
{
    check_open(card, m)?;
    let x = card::load_member(card, m);
    let held = x.held;
    let from = held as usize - 1;
    if HOLDING_SIZE - from < fragment.len() {
        end(card, m, x);
        return Err(RestoreError::Refused(Refusal::BadLength));
    }
    let more = x.with_held(held + fragment.len() as u16);
    hold(card, m, more, from, fragment);
    Ok(())
}

fn first(bytes: &[u8], k: usize) -> &[u8]
    requires { k ≤ length bytes.now }
    ensures { result.now ≡ take k bytes.now }
{
    &bytes[0..k]
}

// What a parts set of the first k bytes of the holding place comes to, read where they stand; x is the member.
fn set_held(card: &[u8], m: u64, x: Member, id: u32, k: usize) -> Result<Member, Refusal>
    requires { (is_sound card.now ≡ true) × (is_member card.now m ≡ true) × (k ≤ holding_size) }
    ensures { result ≡ set_into card.now id (take k (holding_in card.now m)) x }
{
    if !protocol::bit(card::in_use(card), PARTS_SET) {
        return Err(Refusal::BadOpcode);
    }
    let s = card::setup_of(card);
    let ids = s.gets + s.sets;
    if ids as u32 <= id {
        return Err(Refusal::BadField);
    }
    let list = first(card::holding(card, m), k);
    changes::change(x, ChangeOp::SetParts(id as usize), s.gets, s.sets, list)
}

// One parts set of the bytes held, through the set object of this id; then the holding place ends, whatever the answer.
pub fn finish(card: &mut [u8], m: u64, id: u32) -> Result<(), RestoreError>
    ensures { (answer_number result, card.new) ≡ finish_of card.old m id }
{
    check_open(card, m)?;
    let before = card::load_member(card, m);
    let held = before.held;
    match set_held(card, m, before, id, held as usize - 1) {
        Ok(after) => {
            end(card, m, after);
            Ok(())
        }
        Err(refusal) => {
            end(card, m, before);
            Err(RestoreError::Refused(refusal))
        }
    }
}

// The holding place ends.
pub fn discard(card: &mut [u8], m: u64) -> Result<(), RestoreError>
    ensures { (answer_number result, card.new) ≡ drop_of card.old m }
{
    check_open(card, m)?;
    end(card, m, card::load_member(card, m));
    Ok(())
}
