// The functions that kajurnat_c exports for C: SPEC 1.2. A card is a buffer that the caller lends; each function is one call,
// and its contract is one equation: what it answers and leaves is what a definition gives of what it was lent.
#![tactic(auto)]

ghost use Rattle.std.specs.Prelude.{◌≡◌, []};
ghost use Rattle.theory.specs.Logic.{indicator};
ghost use Rattle.card.specs.Layout.{version, card_bytes};
ghost use Rattle.card.specs.Sound.{is_sound};
ghost use Rattle.setups.specs.Reading.{read_version1, read_setup};
ghost use Rattle.setups.specs.Member.{member_setup};
ghost use Rattle.setups.specs.Writing.{written};
ghost use Rattle.events.specs.Events.{numbered, set_up, set_up_from, hand_back, wipe, reset_card, store};
ghost use Rattle.loads.specs.Loads.{numbered_of, load, member_told, configuration_told, setup_of_card};
ghost use Rattle.admin.specs.Command.{command_of};
ghost use Rattle.host.specs.Request.{built};
ghost use Rattle.host.specs.Reply.{read_reply};
ghost use Rattle.staging.specs.Staging.{begin_of, feed_of, finish_of, drop_of};
ghost use Rattle.message.specs.Message.{message_of};
ghost use Rattle.difference.specs.Difference.{lookup_told};
ghost use Rattle.difference.specs.Under.{lookup_under, merge_under};
ghost use Rattle.salvage.specs.Salvage.{salvage, salvage_under};
ghost use Rattle.kajurnat.specs.Told.{told};
ghost use Rattle.kajurnat.specs.SetupTold.{setup_told};

use host::Command;
use setups::{ReadRefusal, Setup};

// Raised whenever a card's bytes change their meaning: a card that was kept is for the same version.
pub fn kajurnat_version() -> u32
    ensures { result ≡ version }
{
    card::VERSION
}

// Whether the bytes are a sound card: 1, or 0.
pub fn kajurnat_is_sound(card: &[u8]) -> u8
    ensures { result ≡ indicator (is_sound card.now) }
{
    card::is_sound(card) as u8
}

// The exact length of a card, 0 if members is not 1 to 16.
pub fn kajurnat_card_bytes(members: u64) -> usize
    ensures { result ≡ card_bytes members }
{
    card::card_bytes(members)
}

// Makes the buffer a fresh card; refused, every byte of it is zero. There is one queue count for each member.
pub fn kajurnat_setup(
    card: &mut [u8],
    members: u64,
    queues: &[u8],
    gets: u64,
    sets: u64,
    features: &[u8],
) -> u8
    ensures { (result, card.new) ≡ numbered (set_up card.old members queues.now gets sets features.now) }
{
    protocol::event_number(events::set_up(card, members, queues, gets, sets, features))
}

// The same of a packed setup, of either version.
pub fn kajurnat_setup_from(card: &mut [u8], setup: &[u8]) -> u8
    ensures { (result, card.new) ≡ numbered (set_up_from card.old setup.now) }
{
    protocol::event_number(events::set_up_from(card, setup))
}

// Packs a setup at the front of the buffer and answers its length; 0, with nothing written, where it is bad or the buffer too
// short.
pub fn kajurnat_setup_write(
    setup: &mut [u8],
    members: u64,
    queues: &[u8],
    gets: u64,
    sets: u64,
    features: &[u8],
) -> usize
    ensures { (result, setup.new) ≡ written setup.old members queues.now gets sets features.now }
{
    setups::write(setup, members, queues, gets, sets, features)
}

// What was read of a packed setup, in buffers of 16 bytes for the queue counts and the features: 0, or the number of the
// refusal and nothing written.
fn tell_setup(
    read: Result<Setup, ReadRefusal>,
    members: &mut u8,
    queues: &mut [u8],
    gets: &mut u8,
    sets: &mut u8,
    features: &mut [u8],
) -> u8
    ensures { (result, (members.new, (queues.new, (gets.new, (sets.new, features.new))))) ≡ setup_told read members.old queues.old gets.old sets.old features.old }
{
    let s = match read {
        Ok(s) => s,
        Err(refusal) => return setups::read_number(Err(refusal)),
    };
    if queues.len() != setups::MOST_MEMBERS {
        return setups::read_number(Err(ReadRefusal::Malformed));
    }
    if features.len() != setups::FEATURES_SIZE {
        return setups::read_number(Err(ReadRefusal::Malformed));
    }
    let counts = s.queues;
    let own = s.features;
    *members = s.members;
    wire::copy(queues, 0, &counts);
    *gets = s.gets;
    *sets = s.sets;
    wire::copy(features, 0, &own);
    0
}

// Reads a packed setup of either version: 0, with the setup, or 2 for one that is refused, and nothing written. The counts of
// members past the last are 0.
pub fn kajurnat_setup_read(
    setup: &[u8],
    members: &mut u8,
    queues: &mut [u8],
    gets: &mut u8,
    sets: &mut u8,
    features: &mut [u8],
) -> u8
    ensures { (result, (members.new, (queues.new, (gets.new, (sets.new, features.new))))) ≡ setup_told (read_setup setup.now) members.old queues.old gets.old sets.old features.old }
{
    tell_setup(setups::read(setup), members, queues, gets, sets, features)
}

// Reads one of version 1, and answers 1 for any of version 2.
pub fn kajurnat_setup_read_v1(
    setup: &[u8],
    members: &mut u8,
    queues: &mut [u8],
    gets: &mut u8,
    sets: &mut u8,
    features: &mut [u8],
) -> u8
    ensures { (result, (members.new, (queues.new, (gets.new, (sets.new, features.new))))) ≡ setup_told (read_version1 setup.now) members.old queues.old gets.old sets.old features.old }
{
    tell_setup(
        setups::read_version_1(setup),
        members,
        queues,
        gets,
        sets,
        features,
    )
}

// One group administration command: the bytes written to the reply, the card and the reply buffer after it.
pub fn kajurnat_command(card: &mut [u8], request: &[u8], reply: &mut [u8]) -> usize
    ensures { (result, (card.new, reply.new)) ≡ command_of card.old request.now reply.old }
{
    admin::command(card, request, reply)
}

// The two halves of a member reset: hand back, which the data path answers by letting go of the guest, and wipe. A wipe and a
// card reset are given the generation that the member, or every member, starts from.
pub fn kajurnat_hand_back(card: &mut [u8], member: u64) -> u8
    ensures { (result, card.new) ≡ numbered (hand_back card.old member) }
{
    protocol::event_number(events::hand_back(card, member))
}

pub fn kajurnat_wipe(card: &mut [u8], member: u64, generation: u32) -> u8
    ensures { (result, card.new) ≡ numbered (wipe card.old member generation) }
{
    protocol::event_number(events::wipe(card, member, generation))
}

pub fn kajurnat_reset_card(card: &mut [u8], generation: u32) -> u8
    ensures { (result, card.new) ≡ numbered (reset_card card.old generation) }
{
    protocol::event_number(events::reset_card(card, generation))
}

// The data path sets one part of a member; selector is the eight selector bytes as a little-endian number.
pub fn kajurnat_store(
    card: &mut [u8],
    member: u64,
    part_type: u16,
    selector: u64,
    value: &[u8],
) -> u8
    ensures { (result, card.new) ≡ numbered (store card.old member part_type selector value.now) }
{
    protocol::event_number(events::store(card, member, part_type, selector, value))
}

// What the card's own firmware reads, SPEC 14: these four change nothing, and no host reaches them. A part of a member, running,
// stopped or marked, into a buffer of its length; it answers as a card store does, and refused, nothing is written.
pub fn kajurnat_load(
    card: &[u8],
    member: u64,
    part_type: u16,
    selector: u64,
    value: &mut [u8],
) -> u8
    ensures { (result, value.new) ≡ numbered_of (load card.now member part_type selector value.old) }
{
    protocol::event_number(loads::load(card, member, part_type, selector, value))
}

// A member in numbers: 0 running, 1 stopped, 2 marked; its queue count; its live get and set objects; 0, or 1 more than the
// bytes in its open holding place.
pub fn kajurnat_member(
    card: &[u8],
    member: u64,
    state: &mut u8,
    queues: &mut u8,
    gets: &mut u8,
    sets: &mut u8,
    held: &mut u16,
) -> u8
    ensures { (result, (state.new, (queues.new, (gets.new, (sets.new, held.new))))) ≡ numbered_of (member_told card.now member (state.old, (queues.old, (gets.old, (sets.old, held.old))))) }
{
    protocol::event_number(loads::member(card, member, state, queues, gets, sets, held))
}

// Its configuration, into 12 bytes, and the generation.
pub fn kajurnat_configuration(
    card: &[u8],
    member: u64,
    bytes: &mut [u8],
    generation: &mut u32,
) -> u8
    ensures { (result, (bytes.new, generation.new)) ≡ numbered_of (configuration_told card.now member (bytes.old, generation.old)) }
{
    protocol::event_number(loads::configuration(card, member, bytes, generation))
}

// The card's setup, packed as kajurnat_setup_write packs it: its length; 0, with nothing written, where the card is not sound or
// the buffer too short.
pub fn kajurnat_setup_of(card: &[u8], setup: &mut [u8]) -> usize
    ensures { (result, setup.new) ≡ setup_of_card card.now setup.old }
{
    loads::setup_of(card, setup)
}

// The host's half. Each builder writes the request of its command at the front of the buffer and answers its length; 0,
// with nothing written, where it is over 4,096 bytes or too long for the buffer.
pub fn kajurnat_request_list_query(request: &mut [u8]) -> usize
    ensures { (result, request.new) ≡ built Command.ListQuery [] request.old }
{
    host::list_query(request)
}

pub fn kajurnat_request_list_use(request: &mut [u8], mask: u64) -> usize
    ensures { (result, request.new) ≡ built (Command.ListUse mask) [] request.old }
{
    host::list_use(request, mask)
}

pub fn kajurnat_request_create(request: &mut [u8], member: u64, id: u32, kind: u8) -> usize
    ensures { (result, request.new) ≡ built (Command.Create member id kind) [] request.old }
{
    host::create(request, member, id, kind)
}

pub fn kajurnat_request_modify(request: &mut [u8], member: u64, id: u32, kind: u8) -> usize
    ensures { (result, request.new) ≡ built (Command.Modify member id kind) [] request.old }
{
    host::modify(request, member, id, kind)
}

pub fn kajurnat_request_query(request: &mut [u8], member: u64, id: u32) -> usize
    ensures { (result, request.new) ≡ built (Command.Query member id) [] request.old }
{
    host::query(request, member, id)
}

pub fn kajurnat_request_destroy(request: &mut [u8], member: u64, id: u32) -> usize
    ensures { (result, request.new) ≡ built (Command.Destroy member id) [] request.old }
{
    host::destroy(request, member, id)
}

pub fn kajurnat_request_metadata(request: &mut [u8], member: u64, id: u32, what: u8) -> usize
    ensures { (result, request.new) ≡ built (Command.Metadata member id what) [] request.old }
{
    host::metadata(request, member, id, what)
}

pub fn kajurnat_request_get(
    request: &mut [u8],
    member: u64,
    id: u32,
    which: u8,
    headers: &[u8],
) -> usize
    ensures { (result, request.new) ≡ built (Command.Get member id which) headers.now request.old }
{
    host::get(request, member, id, which, headers)
}

pub fn kajurnat_request_set(request: &mut [u8], member: u64, id: u32, list: &[u8]) -> usize
    ensures { (result, request.new) ≡ built (Command.Set member id) list.now request.old }
{
    host::set(request, member, id, list)
}

pub fn kajurnat_request_mode(request: &mut [u8], member: u64, mode: u8) -> usize
    ensures { (result, request.new) ≡ built (Command.SetMode member mode) [] request.old }
{
    host::set_mode(request, member, mode)
}

// The answer to the command sent, by its opcode and, of a metadata command, its type byte: 0, with the status and the
// qualifier to act on and both as they were sent, or 1 for a reply that is refused, and nothing written. The result is
// the reply from byte 8.
pub fn kajurnat_reply_read(
    opcode: u16,
    what: u8,
    reply: &[u8],
    status: &mut u16,
    qualifier: &mut u16,
    sent_status: &mut u16,
    sent_qualifier: &mut u16,
) -> u8
    ensures { (result, (status.new, (qualifier.new, (sent_status.new, sent_qualifier.new)))) ≡ told (read_reply opcode what reply.now) status.old qualifier.old sent_status.old sent_qualifier.old }
{
    match host::read_reply(opcode, what, reply) {
        None => 1,
        Some(h) => {
            *status = h.status;
            *qualifier = h.qualifier;
            *sent_status = h.sent_status;
            *sent_qualifier = h.sent_qualifier;
            0
        }
    }
}

// A restore in fragments: a holding place is opened for the member. This and the next three answer status + 65,536 x
// qualifier, and 9 for an unsound card.
pub fn kajurnat_restore_begin(card: &mut [u8], member: u64) -> u32
    ensures { (result, card.new) ≡ begin_of card.old member }
{
    staging::number(staging::begin(card, member))
}

// A fragment, of any length, goes behind those that were fed; over 1,024 bytes in all end the holding place.
pub fn kajurnat_restore_feed(card: &mut [u8], member: u64, fragment: &[u8]) -> u32
    ensures { (result, card.new) ≡ feed_of card.old member fragment.now }
{
    staging::number(staging::feed(card, member, fragment))
}

// One parts set of the bytes that were fed, through the set object of this id; then the holding place is gone.
pub fn kajurnat_restore_finish(card: &mut [u8], member: u64, id: u32) -> u32
    ensures { (result, card.new) ≡ finish_of card.old member id }
{
    staging::number(staging::finish(card, member, id))
}

// The holding place is gone, and nothing is set.
pub fn kajurnat_restore_drop(card: &mut [u8], member: u64) -> u32
    ensures { (result, card.new) ≡ drop_of card.old member }
{
    staging::number(staging::discard(card, member))
}

// Configuration by message, SPEC 13.3: the bytes of the response, 0 in the bus outcome, the card and the reply buffer after it.
pub fn kajurnat_message(card: &mut [u8], message: &[u8], reply: &mut [u8]) -> usize
    ensures { (result, (card.new, reply.new)) ≡ message_of card.old message.now reply.old }
{
    message::message(card, message, reply)
}

// One part looked up in a full capture and a later list of what changed, under a packed setup and for one member of it: 0, with
// the list, 0 the full capture or 1 the later list, and the value's place and length in it; or the number of the refusal, and
// zeros.
pub fn kajurnat_difference_find(
    setup: &[u8],
    member: u64,
    full: &[u8],
    later: &[u8],
    part_type: u16,
    selector: u64,
    list: &mut u8,
    at: &mut u64,
    len: &mut u64,
) -> u8
    ensures { (result, (list.new, (at.new, len.new))) ≡ lookup_told (lookup_under (member_setup setup.now member) full.now later.now part_type selector) }
{
    difference::find_place(
        setup, member, full, later, part_type, selector, list, at, len,
    )
}

// One list made of the two, at the front of the buffer: 0 and its bytes; or the number of the refusal and 0, and nothing
// written.
pub fn kajurnat_difference_merge<'a>(
    setup: &[u8],
    member: u64,
    full: &'a [u8],
    later: &'a [u8],
    merged: &mut [u8],
    written: &mut u64,
) -> u8
    ensures { (result, (written.new, merged.new)) ≡ merge_under (member_setup setup.now member) full.now later.now merged.old }
{
    difference::merge(setup, member, full, later, merged, written)
}

// A damaged list made into one that a member of the setup takes, with a report of what was kept, what was dropped and what was
// left over: the bytes written, or 0 where it is refused, and nothing written.
pub fn kajurnat_salvage(
    setup: &[u8],
    member: u64,
    damaged: &[u8],
    list: &mut [u8],
    kept: &mut [u8],
    dropped: &mut [u32],
    left: &mut u32,
) -> usize
    ensures { salvage result list.new kept.new dropped.new left.new ≡ salvage_under (member_setup setup.now member) damaged.now (salvage 0 list.old kept.old dropped.old left.old) }
{
    salvage::salvage(setup, member, damaged, list, kept, dropped, left)
}
