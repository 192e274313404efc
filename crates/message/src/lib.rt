// Configuration by message, SPEC 13.3: the front of source 003 for GET_CONFIG and SET_CONFIG, strict profile. A message is
// decoded, then acted on, then answered.
#![tactic(auto)]

ghost use Rattle.std.specs.Prelude.{◌≡◌, ◌+◌, ◌≤◌, length};
ghost use Rattle.theory.specs.Bytes.{put};
ghost use Rattle.card.specs.Layout.{configuration_size, card_size, setup_of, HasRecord};
ghost use Rattle.message.specs.Format.{header_size, member_for, data_at, data_of, response_header, response_fields, response_of};
ghost use Rattle.message.specs.Access.{is_request, read_in, write_in};
ghost use Rattle.message.specs.Message.{access_in, is_inside, readable, is_applied, applied_to, act_of, fitting, delivered, message_of, sent_in};

use card::CONFIGURATION_SIZE;

// The header: type 1 byte, msg_id 1, dev_num 2, token 2, msg_size 2.
const MSG_ID_AT: usize = 1;

const DEV_NUM_AT: usize = 2;

const TOKEN_AT: usize = 4;

const MSG_SIZE_AT: usize = 6;

const HEADER_SIZE: usize = 8;

// A read request goes on with offset 4 and length 4; a write request, and a response, with generation 4, offset 4, length 4
// and the data.
const READ_OFFSET_AT: usize = HEADER_SIZE;

const READ_LENGTH_AT: usize = READ_OFFSET_AT + 4;

const READ_SIZE: usize = READ_LENGTH_AT + 4;

const GENERATION_AT: usize = HEADER_SIZE;

const OFFSET_AT: usize = GENERATION_AT + 4;

const LENGTH_AT: usize = OFFSET_AT + 4;

const DATA_AT: usize = LENGTH_AT + 4;

// The kinds that are answered are bytes of a message, which may be any: an enum would be made to be matched once.
const GET_CONFIG: u8 = 0x05;

const SET_CONFIG: u8 = 0x06;

// The type of a response to a device's request.
const RESPONSE: u64 = 1;

// What a message asks: bytes of a member's configuration, or to write them, with the generation that the driver saw. The data
// stands in the message.
#[derive(Clone, Copy, Debug, PartialEq, Eq)]
pub enum Access {
    Read {
        member: u64,
        offset: u32,
        length: u32,
    },
    Write {
        member: u64,
        generation: u32,
        offset: u32,
        length: u32,
    },
}

// ---- decode ----

// A whole header of a request to a device, and msg_size the bytes handed over.
fn is_request(message: &[u8]) -> bool
    ensures { result ≡ is_request message.now }
{
    if message.len() < HEADER_SIZE {
        return false;
    }
    if message[0] % 4 != 0 {
        return false;
    }
    wire::read_u16(message, MSG_SIZE_AT) as usize == message.len()
}

// Device number d speaks for member d + 1.
fn member_of(message: &[u8]) -> u64
    requires { header_size ≤ length message.now }
    ensures { result ≡ member_for message.now }
{
    wire::read_u16(message, DEV_NUM_AT) as u64 + 1
}

fn read_in(message: &[u8]) -> Option<Access>
    ensures { result ≡ read_in message.now }
{
    if message.len() != READ_SIZE {
        return None;
    }
    Some(Access::Read {
        member: member_of(message),
        offset: wire::read_u32(message, READ_OFFSET_AT),
        length: wire::read_u32(message, READ_LENGTH_AT),
    })
}

// The data is as long as the length field says.
fn write_in(message: &[u8]) -> Option<Access>
    ensures { result ≡ write_in message.now }
{
    if message.len() < DATA_AT {
        return None;
    }
    let length = wire::read_u32(message, LENGTH_AT);
    if message.len() - DATA_AT != length as usize {
        return None;
    }
    Some(Access::Write {
        member: member_of(message),
        generation: wire::read_u32(message, GENERATION_AT),
        offset: wire::read_u32(message, OFFSET_AT),
        length,
    })
}

// One whole request of the two kinds, for a device number below N whose member is not marked.
fn decode(card: &[u8], message: &[u8]) -> Option<Access>
    requires { length card.now ≡ card_size (setup_of card.now).members }
    ensures { result ≡ access_in card.now message.now }
{
    if !is_request(message) {
        return None;
    }
    let m = member_of(message);
    if !card::is_member(card, m) {
        return None;
    }
    if card::is_marked(card, m) {
        return None;
    }
    match message[MSG_ID_AT] {
        GET_CONFIG => read_in(message),
        SET_CONFIG => write_in(message),
        _ => None,
    }
}

// ---- respond ----

// The header of a response to this message, of so many bytes in all.
fn write_header(reply: &mut [u8], message: &[u8], size: usize)
    requires { (header_size ≤ length message.now) × (header_size ≤ length reply.old) }
    ensures { reply.new ≡ put 0 (response_header message.now size) reply.old }
{
    wire::write(reply, 0, 1, RESPONSE);
    wire::write(reply, MSG_ID_AT, 1, message[MSG_ID_AT] as u64);
    wire::write(
        reply,
        DEV_NUM_AT,
        2,
        wire::read_u16(message, DEV_NUM_AT) as u64,
    );
    wire::write(reply, TOKEN_AT, 2, wire::read_u16(message, TOKEN_AT) as u64);
    wire::write(reply, MSG_SIZE_AT, 2, size as u64);
}

fn write_fields(reply: &mut [u8], generation: u32, offset: u32, n: usize)
    requires { data_at ≤ length reply.old }
    ensures { reply.new ≡ put header_size (response_fields generation offset n) reply.old }
{
    wire::write(reply, GENERATION_AT, 4, generation as u64);
    wire::write(reply, OFFSET_AT, 4, offset as u64);
    wire::write(reply, LENGTH_AT, 4, n as u64);
}

// The response to a message and its length; where it does not fit the buffer, 0, and nothing is written.
fn write_response(
    message: &[u8],
    generation: u32,
    offset: u32,
    bytes: &[u8],
    reply: &mut [u8],
) -> usize
    requires { (header_size ≤ length message.now) × (length bytes.now ≤ configuration_size) }
    ensures { (result, reply.new) ≡ sent_in (response_of message.now generation offset bytes.now) reply.old }
{
    let size = DATA_AT + bytes.len();
    if reply.len() < size {
        return 0;
    }
    write_header(reply, message, size);
    write_fields(reply, generation, offset, bytes.len());
    wire::copy(reply, DATA_AT, bytes);
    size
}

// ---- act ----

// Bytes within the configuration; the sum does not wrap.
fn is_inside(offset: u32, n: u32) -> bool
    ensures { result ≡ is_inside offset n }
{
    offset as u64 + n as u64 <= CONFIGURATION_SIZE as u64
}

// Bytes of a configuration; none where they are not inside.
fn readable(configuration: &[u8], offset: u32, n: u32) -> &[u8]
    requires { length configuration.now ≡ configuration_size }
    ensures { result.now ≡ readable configuration.now offset n }
{
    if !is_inside(offset, n) {
        return &configuration[0..0];
    }
    let from = offset as usize;
    &configuration[from..from + n as usize]
}

// A write that has bytes, of the current generation, inside.
fn is_applied(current: u32, sent: u32, offset: u32, n: u32) -> bool
    ensures { result ≡ is_applied current sent offset n }
{
    if n < 1 {
        return false;
    }
    if sent != current {
        return false;
    }
    is_inside(offset, n)
}

fn read_config(card: &[u8], m: u64, offset: u32, n: u32, message: &[u8], reply: &mut [u8]) -> usize
    requires { HasRecord card.now m × (header_size ≤ length message.now) }
    ensures { (result, (card.now, reply.new)) ≡ delivered (fitting card.now (length reply.old) (act_of card.now message.now (Some (Access.Read m offset n)))) reply.old }
{
    let bytes = readable(card::configuration(card, m), offset, n);
    write_response(message, card::generation(card, m), offset, bytes, reply)
}

// A write that is applied. Its response is written first: where that does not fit, nothing is done.
fn apply(card: &mut [u8], m: u64, offset: u32, message: &[u8], reply: &mut [u8]) -> usize
    requires { HasRecord card.old m × (data_at ≤ length message.now) × (offset + length (data_of message.now) ≤ configuration_size) }
    ensures { (result, (card.new, reply.new)) ≡ delivered (fitting card.old (length reply.old) (applied_to card.old m message.now offset)) reply.old }
{
    let next = std::num::wrapping_add_u32(card::generation(card, m), 1);
    let bytes = &message[DATA_AT..];
    let size = write_response(message, next, offset, bytes, reply);
    if size == 0 {
        return 0;
    }
    card::write_configuration(card, m, offset as usize, bytes, next);
    size
}

fn write_config(
    card: &mut [u8],
    m: u64,
    sent: u32,
    offset: u32,
    n: u32,
    message: &[u8],
    reply: &mut [u8],
) -> usize
    requires { HasRecord card.old m × (data_at + n ≡ length message.now) }
    ensures { (result, (card.new, reply.new)) ≡ delivered (fitting card.old (length reply.old) (act_of card.old message.now (Some (Access.Write m sent offset n)))) reply.old }
{
    let current = card::generation(card, m);
    if is_applied(current, sent, offset, n) {
        return apply(card, m, offset, message, reply);
    }
    write_response(message, current, offset, &message[0..0], reply)
}

// One message, whole: the bytes of its response, or 0.
pub fn message(card: &mut [u8], message: &[u8], reply: &mut [u8]) -> usize
    ensures { (result, (card.new, reply.new)) ≡ message_of card.old message.now reply.old }
{
    if !card::is_sound(card) {
        return 0;
    }
    let Some(access) = decode(card, message) else {
        return 0;
    };
    match access {
        Access::Read {
            member,
            offset,
            length,
        } => read_config(card, member, offset, length, message, reply),
        Access::Write {
            member,
            generation,
            offset,
            length,
        } => write_config(card, member, generation, offset, length, message, reply),
    }
}
