// What the card's own firmware reads of it, SPEC 14: a part, a member, its configuration, the setup. The card is lent and
// stays as it is; no host reaches these.
#![tactic(auto)]

ghost use Rattle.std.specs.Prelude.{◌≡◌, true, map, ◌≤◌, length};
ghost use Rattle.member.specs.Record.{member_of};
ghost use Rattle.setups.specs.Setup.{most_members, sixteen};
ghost use Rattle.card.specs.Layout.{card_size, counts_from};
ghost use Rattle.loads.specs.Loads.{part_of, load_in, load, lent, state_of, state_number, summary_of, member_told, configuration_told, setup_of_card};

use card::CONFIGURATION_SIZE;
use member::{MEMBER_SIZE, Member};
use protocol::{EventRefusal, Mode};
use setups::MOST_MEMBERS;

// A member runs, or is stopped; one that was handed back is marked too.
#[derive(Clone, Copy, Debug, PartialEq, Eq)]
pub enum State {
    Running,
    Stopped,
    Marked,
}

// A member in short: its state; its queue count; its live get and set objects; 0, or one more than the bytes in its open holding
// place.
#[derive(Clone, Copy)]
pub struct Summary {
    pub state: State,
    pub queues: u8,
    pub gets: u8,
    pub sets: u8,
    pub held: u16,
}

// ---- a part ----

// The value of a part, among a member's bytes; an empty slice where the member has not got the part.
fn part_in<'a>(bytes: &'a [u8; MEMBER_SIZE], t: u16, selector: u64) -> &'a [u8]
    ensures { result.now ≡ part_of (member_of bytes.now) t selector }
{
    let Some(i) = inventory::place_of(member::queues_of(bytes), t, selector) else {
        return &bytes[0..0];
    };
    let values = member::values_of(bytes);
    let from = inventory::offset_of(i);
    &values[from..from + inventory::size_of(i)]
}

// It is copied out where the buffer is as long. No part's value is empty.
fn load_in(
    bytes: &[u8; MEMBER_SIZE],
    t: u16,
    selector: u64,
    value: &mut [u8],
) -> Result<(), EventRefusal>
    ensures { (result, value.new) ≡ load_in (member_of bytes.now) t selector value.old }
{
    let own = part_in(bytes, t, selector);
    if own.len() == 0 {
        return Err(EventRefusal::NoPart);
    }
    if value.len() != own.len() {
        return Err(EventRefusal::WrongLength);
    }
    wire::copy(value, 0, own);
    Ok(())
}

// One part of one member, whatever its state is; selector is the eight selector bytes as a number.
pub fn load(
    card: &[u8],
    m: u64,
    t: u16,
    selector: u64,
    value: &mut [u8],
) -> Result<(), EventRefusal>
    ensures { (result, value.new) ≡ load card.now m t selector value.old }
{
    events::member_answer(card, m)?;
    load_in(
        card::member_bytes(card, m),
        t,
        inventory::selector_of(t, selector),
        value,
    )
}

// The same value where it stands in the card, with no copy; an empty slice where there is no such part.
pub fn lend<'a>(card: &'a [u8], m: u64, t: u16, selector: u64) -> &'a [u8]
    ensures { result.now ≡ lent card.now m t selector }
{
    if events::member_answer(card, m).is_err() {
        return &card[0..0];
    }
    part_in(
        card::member_bytes(card, m),
        t,
        inventory::selector_of(t, selector),
    )
}

// ---- a member ----

fn state_of(mode: Mode, marked: bool) -> State
    ensures { result ≡ state_of mode marked }
{
    if marked {
        return State::Marked;
    }
    match mode {
        Mode::Running => State::Running,
        Mode::Stopped => State::Stopped,
    }
}

// A state as its number.
fn state_number(state: State) -> u8
    ensures { result ≡ state_number state }
{
    match state {
        State::Running => 0,
        State::Stopped => 1,
        State::Marked => 2,
    }
}

fn summary_of(x: Member) -> Summary
    ensures { result ≡ summary_of x }
{
    let bytes = objects::object_bytes(x.objects);
    Summary {
        state: state_of(x.mode, x.marked),
        queues: x.queues,
        gets: objects::count_of(1, &bytes),
        sets: objects::count_of(2, &bytes),
        held: x.held,
    }
}

// A member in numbers.
pub fn member(
    card: &[u8],
    m: u64,
    state: &mut u8,
    queues: &mut u8,
    gets: &mut u8,
    sets: &mut u8,
    held: &mut u16,
) -> Result<(), EventRefusal>
    ensures { (result, (state.new, (queues.new, (gets.new, (sets.new, held.new))))) ≡ member_told card.now m (state.old, (queues.old, (gets.old, (sets.old, held.old)))) }
{
    events::member_answer(card, m)?;
    let s = summary_of(card::load_member(card, m));
    *state = state_number(s.state);
    *queues = s.queues;
    *gets = s.gets;
    *sets = s.sets;
    *held = s.held;
    Ok(())
}

// ---- its configuration ----

// The twelve bytes and the generation.
pub fn configuration(
    card: &[u8],
    m: u64,
    bytes: &mut [u8],
    generation: &mut u32,
) -> Result<(), EventRefusal>
    ensures { (result, (bytes.new, generation.new)) ≡ configuration_told card.now m (bytes.old, generation.old) }
{
    events::member_answer(card, m)?;
    if bytes.len() != CONFIGURATION_SIZE {
        return Err(EventRefusal::WrongLength);
    }
    wire::copy(bytes, 0, card::configuration(card, m));
    *generation = card::generation(card, m);
    Ok(())
}

// ---- the setup ----

// The queue counts of members 1 to n.
fn counts_of(card: &[u8], n: u64) -> [u8; MOST_MEMBERS]
    requires { (length card.now ≡ card_size n) × (n ≤ most_members) }
    ensures { result ≡ sixteen (counts_from card.now 1 n) }
{
    let mut counts = [0u8; MOST_MEMBERS];
    for i in 0..n {
        counts[i as usize] = member::queues_of(card::member_bytes(card, i + 1));
    }
    counts
}

// The card's setup, packed at the front of `setup`, and how many bytes that is; 0, with nothing written, where the card is not
// sound or `setup` too short.
pub fn setup_of(card: &[u8], setup: &mut [u8]) -> usize
    ensures { (result, setup.new) ≡ setup_of_card card.now setup.old }
{
    if !card::is_sound(card) {
        return 0;
    }
    let s = card::setup_of(card);
    let counts = counts_of(card, s.members as u64);
    setups::write(
        setup,
        s.members as u64,
        &counts[0..s.members as usize],
        s.gets as u64,
        s.sets as u64,
        &s.features,
    )
}
