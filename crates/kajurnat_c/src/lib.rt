// The exported functions for C, include/kajurnat.h: each is the function of the library `kajurnat` of the same name, with the
// same contract. What each does is said there.
#![tactic(auto)]

ghost use Rattle.std.specs.Prelude.{◌≡◌, []};
ghost use Rattle.theory.specs.Logic.{indicator};
ghost use Rattle.card.specs.Layout.{version, card_bytes};
ghost use Rattle.card.specs.Sound.{is_sound};
ghost use Rattle.setups.specs.Reading.{read_version1, read_setup};
ghost use Rattle.setups.specs.Member.{member_setup};
ghost use Rattle.setups.specs.Writing.{written};
ghost use Rattle.events.specs.Events.{numbered, set_up, set_up_from, hand_back, wipe, reset_card, store};
ghost use Rattle.loads.specs.Loads.{numbered_of, load, member_told, configuration_told, setup_of_card};
ghost use Rattle.admin.specs.Command.{command_of};
ghost use Rattle.host.specs.Request.{built};
ghost use Rattle.host.specs.Reply.{read_reply};
ghost use Rattle.staging.specs.Staging.{begin_of, feed_of, finish_of, drop_of};
ghost use Rattle.message.specs.Message.{message_of};
ghost use Rattle.difference.specs.Difference.{lookup_told};
ghost use Rattle.difference.specs.Under.{lookup_under, merge_under};
ghost use Rattle.salvage.specs.Salvage.{salvage, salvage_under};
ghost use Rattle.kajurnat.specs.Told.{told};
ghost use Rattle.kajurnat.specs.SetupTold.{setup_told};

use host::Command;

#[unsafe(no_mangle)]
pub extern "C" fn kajurnat_version() -> u32
    ensures { result ≡ version }
{
    kajurnat::kajurnat_version()
}

#[unsafe(no_mangle)]
pub extern "C" fn kajurnat_is_sound(card: &[u8]) -> u8
    ensures { result ≡ indicator (is_sound card.now) }
{
    kajurnat::kajurnat_is_sound(card)
}

#[unsafe(no_mangle)]
pub extern "C" fn kajurnat_card_bytes(members: u64) -> usize
    ensures { result ≡ card_bytes members }
{
    kajurnat::kajurnat_card_bytes(members)
}

#[unsafe(no_mangle)]
pub extern "C" fn kajurnat_setup(
    card: &mut [u8],
    members: u64,
    queues: &[u8],
    gets: u64,
    sets: u64,
    features: &[u8],
) -> u8
    ensures { (result, card.new) ≡ numbered (set_up card.old members queues.now gets sets features.now) }
{
    kajurnat::kajurnat_setup(card, members, queues, gets, sets, features)
}

#[unsafe(no_mangle)]
pub extern "C" fn kajurnat_setup_from(card: &mut [u8], setup: &[u8]) -> u8
    ensures { (result, card.new) ≡ numbered (set_up_from card.old setup.now) }
{
    kajurnat::kajurnat_setup_from(card, setup)
}

#[unsafe(no_mangle)]
pub extern "C" fn kajurnat_setup_write(
    setup: &mut [u8],
    members: u64,
    queues: &[u8],
    gets: u64,
    sets: u64,
    features: &[u8],
) -> usize
    ensures { (result, setup.new) ≡ written setup.old members queues.now gets sets features.now }
{
    kajurnat::kajurnat_setup_write(setup, members, queues, gets, sets, features)
}

#[unsafe(no_mangle)]
pub extern "C" fn kajurnat_setup_read(
    setup: &[u8],
    members: &mut u8,
    queues: &mut [u8],
    gets: &mut u8,
    sets: &mut u8,
    features: &mut [u8],
) -> u8
    ensures { (result, (members.new, (queues.new, (gets.new, (sets.new, features.new))))) ≡ setup_told (read_setup setup.now) members.old queues.old gets.old sets.old features.old }
{
    kajurnat::kajurnat_setup_read(setup, members, queues, gets, sets, features)
}

#[unsafe(no_mangle)]
pub extern "C" fn kajurnat_setup_read_v1(
    setup: &[u8],
    members: &mut u8,
    queues: &mut [u8],
    gets: &mut u8,
    sets: &mut u8,
    features: &mut [u8],
) -> u8
    ensures { (result, (members.new, (queues.new, (gets.new, (sets.new, features.new))))) ≡ setup_told (read_version1 setup.now) members.old queues.old gets.old sets.old features.old }
{
    kajurnat::kajurnat_setup_read_v1(setup, members, queues, gets, sets, features)
}

#[unsafe(no_mangle)]
pub extern "C" fn kajurnat_command(card: &mut [u8], request: &[u8], reply: &mut [u8]) -> usize
    ensures { (result, (card.new, reply.new)) ≡ command_of card.old request.now reply.old }
{
    kajurnat::kajurnat_command(card, request, reply)
}

#[unsafe(no_mangle)]
pub extern "C" fn kajurnat_hand_back(card: &mut [u8], member: u64) -> u8
    ensures { (result, card.new) ≡ numbered (hand_back card.old member) }
{
    kajurnat::kajurnat_hand_back(card, member)
}

#[unsafe(no_mangle)]
pub extern "C" fn kajurnat_wipe(card: &mut [u8], member: u64, generation: u32) -> u8
    ensures { (result, card.new) ≡ numbered (wipe card.old member generation) }
{
    kajurnat::kajurnat_wipe(card, member, generation)
}

#[unsafe(no_mangle)]
pub extern "C" fn kajurnat_reset_card(card: &mut [u8], generation: u32) -> u8
    ensures { (result, card.new) ≡ numbered (reset_card card.old generation) }
{
    kajurnat::kajurnat_reset_card(card, generation)
}

#[unsafe(no_mangle)]
pub extern "C" fn kajurnat_store(
    card: &mut [u8],
    member: u64,
    part_type: u16,
    selector: u64,
    value: &[u8],
) -> u8
    ensures { (result, card.new) ≡ numbered (store card.old member part_type selector value.now) }
{
    kajurnat::kajurnat_store(card, member, part_type, selector, value)
}

#[unsafe(no_mangle)]
pub extern "C" fn kajurnat_load(
    card: &[u8],
    member: u64,
    part_type: u16,
    selector: u64,
    value: &mut [u8],
) -> u8
    ensures { (result, value.new) ≡ numbered_of (load card.now member part_type selector value.old) }
{
    kajurnat::kajurnat_load(card, member, part_type, selector, value)
}

#[unsafe(no_mangle)]
pub extern "C" fn kajurnat_member(
    card: &[u8],
    member: u64,
    state: &mut u8,
    queues: &mut u8,
    gets: &mut u8,
    sets: &mut u8,
    held: &mut u16,
) -> u8
    ensures { (result, (state.new, (queues.new, (gets.new, (sets.new, held.new))))) ≡ numbered_of (member_told card.now member (state.old, (queues.old, (gets.old, (sets.old, held.old))))) }
{
    kajurnat::kajurnat_member(card, member, state, queues, gets, sets, held)
}

#[unsafe(no_mangle)]
pub extern "C" fn kajurnat_configuration(
    card: &[u8],
    member: u64,
    bytes: &mut [u8],
    generation: &mut u32,
) -> u8
    ensures { (result, (bytes.new, generation.new)) ≡ numbered_of (configuration_told card.now member (bytes.old, generation.old)) }
{
    kajurnat::kajurnat_configuration(card, member, bytes, generation)
}

#[unsafe(no_mangle)]
pub extern "C" fn kajurnat_setup_of(card: &[u8], setup: &mut [u8]) -> usize
    ensures { (result, setup.new) ≡ setup_of_card card.now setup.old }
{
    kajurnat::kajurnat_setup_of(card, setup)
}

#[unsafe(no_mangle)]
pub extern "C" fn kajurnat_request_list_query(request: &mut [u8]) -> usize
    ensures { (result, request.new) ≡ built Command.ListQuery [] request.old }
{
    kajurnat::kajurnat_request_list_query(request)
}

#[unsafe(no_mangle)]
pub extern "C" fn kajurnat_request_list_use(request: &mut [u8], mask: u64) -> usize
    ensures { (result, request.new) ≡ built (Command.ListUse mask) [] request.old }
{
    kajurnat::kajurnat_request_list_use(request, mask)
}

#[unsafe(no_mangle)]
pub extern "C" fn kajurnat_request_create(
    request: &mut [u8],
    member: u64,
    id: u32,
    kind: u8,
) -> usize
    ensures { (result, request.new) ≡ built (Command.Create member id kind) [] request.old }
{
    kajurnat::kajurnat_request_create(request, member, id, kind)
}

#[unsafe(no_mangle)]
pub extern "C" fn kajurnat_request_modify(
    request: &mut [u8],
    member: u64,
    id: u32,
    kind: u8,
) -> usize
    ensures { (result, request.new) ≡ built (Command.Modify member id kind) [] request.old }
{
    kajurnat::kajurnat_request_modify(request, member, id, kind)
}

#[unsafe(no_mangle)]
pub extern "C" fn kajurnat_request_query(request: &mut [u8], member: u64, id: u32) -> usize
    ensures { (result, request.new) ≡ built (Command.Query member id) [] request.old }
{
    kajurnat::kajurnat_request_query(request, member, id)
}

#[unsafe(no_mangle)]
pub extern "C" fn kajurnat_request_destroy(request: &mut [u8], member: u64, id: u32) -> usize
    ensures { (result, request.new) ≡ built (Command.Destroy member id) [] request.old }
{
    kajurnat::kajurnat_request_destroy(request, member, id)
}

#[unsafe(no_mangle)]
pub extern "C" fn kajurnat_request_metadata(
    request: &mut [u8],
    member: u64,
    id: u32,
    what: u8,
) -> usize
    ensures { (result, request.new) ≡ built (Command.Metadata member id what) [] request.old }
{
    kajurnat::kajurnat_request_metadata(request, member, id, what)
}

#[unsafe(no_mangle)]
pub extern "C" fn kajurnat_request_get(
    request: &mut [u8],
    member: u64,
    id: u32,
    which: u8,
    headers: &[u8],
) -> usize
    ensures { (result, request.new) ≡ built (Command.Get member id which) headers.now request.old }
{
    kajurnat::kajurnat_request_get(request, member, id, which, headers)
}

#[unsafe(no_mangle)]
pub extern "C" fn kajurnat_request_set(
    request: &mut [u8],
    member: u64,
    id: u32,
    list: &[u8],
) -> usize
    ensures { (result, request.new) ≡ built (Command.Set member id) list.now request.old }
{
    kajurnat::kajurnat_request_set(request, member, id, list)
}

#[unsafe(no_mangle)]
pub extern "C" fn kajurnat_request_mode(request: &mut [u8], member: u64, mode: u8) -> usize
    ensures { (result, request.new) ≡ built (Command.SetMode member mode) [] request.old }
{
    kajurnat::kajurnat_request_mode(request, member, mode)
}

#[unsafe(no_mangle)]
pub extern "C" fn kajurnat_reply_read(
    opcode: u16,
    what: u8,
    reply: &[u8],
    status: &mut u16,
    qualifier: &mut u16,
    sent_status: &mut u16,
    sent_qualifier: &mut u16,
) -> u8
    ensures { (result, (status.new, (qualifier.new, (sent_status.new, sent_qualifier.new)))) ≡ told (read_reply opcode what reply.now) status.old qualifier.old sent_status.old sent_qualifier.old }
{
    kajurnat::kajurnat_reply_read(
        opcode,
        what,
        reply,
        status,
        qualifier,
        sent_status,
        sent_qualifier,
    )
}

#[unsafe(no_mangle)]
pub extern "C" fn kajurnat_restore_begin(card: &mut [u8], member: u64) -> u32
    ensures { (result, card.new) ≡ begin_of card.old member }
{
    kajurnat::kajurnat_restore_begin(card, member)
}

#[unsafe(no_mangle)]
pub extern "C" fn kajurnat_restore_feed(card: &mut [u8], member: u64, fragment: &[u8]) -> u32
    ensures { (result, card.new) ≡ feed_of card.old member fragment.now }
{
    kajurnat::kajurnat_restore_feed(card, member, fragment)
}

#[unsafe(no_mangle)]
pub extern "C" fn kajurnat_restore_finish(card: &mut [u8], member: u64, id: u32) -> u32
    ensures { (result, card.new) ≡ finish_of card.old member id }
{
    kajurnat::kajurnat_restore_finish(card, member, id)
}

#[unsafe(no_mangle)]
pub extern "C" fn kajurnat_restore_drop(card: &mut [u8], member: u64) -> u32
    ensures { (result, card.new) ≡ drop_of card.old member }
{
    kajurnat::kajurnat_restore_drop(card, member)
}

#[unsafe(no_mangle)]
pub extern "C" fn kajurnat_message(card: &mut [u8], message: &[u8], reply: &mut [u8]) -> usize
    ensures { (result, (card.new, reply.new)) ≡ message_of card.old message.now reply.old }
{
    kajurnat::kajurnat_message(card, message, reply)
}

#[unsafe(no_mangle)]
pub extern "C" fn kajurnat_difference_find(
    setup: &[u8],
    member: u64,
    full: &[u8],
    later: &[u8],
    part_type: u16,
    selector: u64,
    list: &mut u8,
    at: &mut u64,
    len: &mut u64,
) -> u8
    ensures { (result, (list.new, (at.new, len.new))) ≡ lookup_told (lookup_under (member_setup setup.now member) full.now later.now part_type selector) }
{
    kajurnat::kajurnat_difference_find(
        setup, member, full, later, part_type, selector, list, at, len,
    )
}

#[unsafe(no_mangle)]
pub extern "C" fn kajurnat_difference_merge<'a>(
    setup: &[u8],
    member: u64,
    full: &'a [u8],
    later: &'a [u8],
    merged: &mut [u8],
    written: &mut u64,
) -> u8
    ensures { (result, (written.new, merged.new)) ≡ merge_under (member_setup setup.now member) full.now later.now merged.old }
{
    kajurnat::kajurnat_difference_merge(setup, member, full, later, merged, written)
}

#[unsafe(no_mangle)]
pub extern "C" fn kajurnat_salvage(
    setup: &[u8],
    member: u64,
    damaged: &[u8],
    list: &mut [u8],
    kept: &mut [u8],
    dropped: &mut [u32],
    left: &mut u32,
) -> usize
    ensures { salvage result list.new kept.new dropped.new left.new ≡ salvage_under (member_setup setup.now member) damaged.now (salvage 0 list.old kept.old dropped.old left.old) }
{
    kajurnat::kajurnat_salvage(setup, member, damaged, list, kept, dropped, left)
}
