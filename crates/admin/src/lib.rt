// A command, whole: SPEC 6.1.
#![tactic(auto)]

ghost use Rattle.std.specs.Prelude.{◌≡◌, true, ◌≤◌, length, drop};
ghost use Rattle.card.specs.Layout.{is_member};
ghost use Rattle.card.specs.Sound.{is_sound};
ghost use Rattle.reply.specs.Reply.{head_size};
ghost use Rattle.admin.specs.Command.{ask_in, perform, conclude, delivered, command_of};

use frame::Ask;
use protocol::{ChangeOp, ReadOp, Refusal};

// Steps 2 to 7: what a request asks of this card.
fn asked(card: &[u8], request: &[u8]) -> Result<Ask, Refusal>
    requires { is_sound card.now ≡ true }
    ensures { result ≡ ask_in card.now request.now }
{
    let s = card::setup_of(card);
    let ids = s.gets + s.sets;
    let marked = card::is_marked(card, frame::member_of(request));
    frame::decode(s.members, ids, card::in_use(card), marked, request)
}

// A request from a place on; nothing where it is shorter.
fn from(request: &[u8], at: usize) -> &[u8]
    ensures { result.now ≡ drop at request.now }
{
    if request.len() < at {
        let end = request.len();
        return &request[end..];
    }
    &request[at..]
}

// Steps 8 to 12 of a command that reads a member.
fn read_member(card: &[u8], m: u64, op: ReadOp, request: &[u8], reply: &mut [u8]) -> usize
    requires { (is_sound card.now ≡ true) × (is_member card.now m ≡ true) × (head_size ≤ length reply.old) }
    ensures { (result, (card.now, reply.new)) ≡ delivered (conclude card.now (length reply.old) (perform card.now request.now (Ok (Ask.Read m op)))) reply.old }
{
    let bytes = card::member_bytes(card, m);
    let list = from(request, frame::ASKED_AT);
    let reading = reads::read(bytes, op, list);
    let queues = member::queues_of(bytes);
    let values = member::values_of(bytes);
    reply::write_reading(reading, queues, list, values, reply)
}

// Steps 8 to 12 of a command that changes a member.
fn change_member(card: &mut [u8], m: u64, op: ChangeOp, request: &[u8], reply: &mut [u8]) -> usize
    requires { (is_sound card.old ≡ true) × (is_member card.old m ≡ true) × (head_size ≤ length reply.old) }
    ensures { (result, (card.new, reply.new)) ≡ delivered (conclude card.old (length reply.old) (perform card.old request.now (Ok (Ask.Change m op)))) reply.old }
{
    let s = card::setup_of(card);
    let before = card::load_member(card, m);
    match changes::change(before, op, s.gets, s.sets, from(request, frame::GIVEN_AT)) {
        Ok(after) => {
            card::save_member(card, m, after);
            reply::write_answer(Ok(()), reply)
        }
        Err(refusal) => reply::write_answer(Err(refusal), reply),
    }
}

// List use: always a success, since its reply is 8 bytes.
fn use_list(card: &mut [u8], mask: u64, request: &[u8], reply: &mut [u8]) -> usize
    requires { (is_sound card.old ≡ true) × (head_size ≤ length reply.old) }
    ensures { (result, (card.new, reply.new)) ≡ delivered (conclude card.old (length reply.old) (perform card.old request.now (Ok (Ask.UseList mask)))) reply.old }
{
    card::set_in_use(card, mask);
    reply::write_answer(Ok(()), reply)
}

// Steps 8 to 12 of what a request asks.
fn obey(card: &mut [u8], ask: Ask, request: &[u8], reply: &mut [u8]) -> usize
    requires { (is_sound card.old ≡ true) × (ask_in card.old request.now ≡ Ok ask) × (head_size ≤ length reply.old) }
    ensures { (result, (card.new, reply.new)) ≡ delivered (conclude card.old (length reply.old) (perform card.old request.now (Ok ask))) reply.old }
{
    match ask {
        Ask::QueryList => reply::write_mask(protocol::SUPPORTED_MASK, reply),
        Ask::UseList(mask) => use_list(card, mask, request, reply),
        Ask::Read(m, op) => read_member(card, m, op, request, reply),
        Ask::Change(m, op) => change_member(card, m, op, request, reply),
    }
}

// One command, whole.
pub fn command(card: &mut [u8], request: &[u8], reply: &mut [u8]) -> usize
    ensures { (result, (card.new, reply.new)) ≡ command_of card.old request.now reply.old }
{
    if reply.len() < reply::HEAD_SIZE {
        return 0;
    }
    if !card::is_sound(card) {
        return 0;
    }
    match asked(card, request) {
        Ok(ask) => obey(card, ask, request, reply),
        Err(refusal) => reply::write_answer(Err(refusal), reply),
    }
}
