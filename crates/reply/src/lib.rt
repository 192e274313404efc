// The reply to a command, SPEC 3.3: its head, its result in the lent tail, and steps 11 and 12 of SPEC 6.1.
#![tactic(auto)]

ghost use Rattle.std.specs.Prelude.{◌≡◌, ℕ, ◌+◌, ◌≤◌, ◌<◌, List, [], ◌++◌, length};
ghost use Rattle.theory.specs.Bytes.{put};
ghost use Rattle.wire.specs.Le.{bytes};
ghost use Rattle.protocol.specs.Answers.{outcome_of};
ghost use Rattle.inventory.specs.Inventory.{part_count, values_size};
ghost use Rattle.capture.specs.Capture.{headers_of};
ghost use Rattle.reply.specs.Result.{number_bytes, result_of, result_given};
ghost use Rattle.reply.specs.Reply.{head_size, head_of, final_of, reply_of, replied, written};

use protocol::{Body, Refusal};

// The head: status 2 bytes, qualifier 2, four zero bytes; the result follows.
const QUALIFIER_AT: usize = 2;

const ZEROS_AT: usize = 4;

pub const HEAD_SIZE: usize = 8;

// A mask in a result; a number, which is 4 bytes and 4 zero bytes.
const MASK_SIZE: usize = 8;

const NUMBER_SIZE: usize = 8;

fn write_head(answer: Result<(), Refusal>, out: &mut [u8])
    requires { head_size ≤ length out.old }
    ensures { out.new ≡ put 0 (head_of answer) out.old }
{
    wire::write(out, 0, 2, protocol::status(answer) as u64);
    wire::write(out, QUALIFIER_AT, 2, protocol::qualifier(answer) as u64);
    wire::write(out, ZEROS_AT, 4, 0);
}

// A reply with no result: the bytes written.
pub fn write_answer(answer: Result<(), Refusal>, reply: &mut [u8]) -> usize
    requires { head_size ≤ length reply.old }
    ensures { (result, reply.new) ≡ written (reply_of answer []) reply.old }
{
    write_head(answer, reply);
    HEAD_SIZE
}

// The reply to a list query: a mask of opcodes.
pub fn write_mask(mask: u64, reply: &mut [u8]) -> usize
    requires { head_size ≤ length reply.old }
    ensures { (result, reply.new) ≡ written (replied (Ok tt) (bytes 8 mask) (length reply.old)) reply.old }
{
    if reply.len() - HEAD_SIZE < MASK_SIZE {
        return write_answer(Err(Refusal::ShortReply), reply);
    }
    write_head(Ok(()), reply);
    wire::write(reply, HEAD_SIZE, MASK_SIZE, mask);
    HEAD_SIZE + MASK_SIZE
}

// The bytes of a result, whatever the values are.
fn result_bytes(body: Body, queues: u8, list: &[u8]) -> usize
    requires { queues < 5 }
    ensures { (values : List ℕ) → length values ≡ values_size → result ≡ length (result_of queues list.now values body) }
{
    match body {
        Body::Nothing => 0,
        Body::Kind(_) => 8,
        Body::Number(_) => NUMBER_SIZE,
        Body::Headers => NUMBER_SIZE + capture::headers_bytes(queues),
        Body::Selected => capture::asked_bytes(queues, list),
        Body::All => inventory::parts_size(queues) as usize,
    }
}

// A 4-byte number and 4 zero bytes, at the front of what is lent.
fn write_number(out: &mut [u8], n: u32)
    requires { 8 ≤ length out.old }
    ensures { out.new ≡ put 0 (number_bytes n) out.old }
{
    wire::write(out, 0, 4, n as u64);
    wire::write(out, 4, 4, 0);
}

// The count of the parts and their headers: a metadata list.
fn write_metadata_list(out: &mut [u8], queues: u8)
    requires { 8 + length (headers_of queues) ≤ length out.old }
    ensures { out.new ≡ put 0 (number_bytes (part_count queues) ++ headers_of queues) out.old }
{
    write_number(out, inventory::part_count(queues));
    capture::write_headers(&mut out[NUMBER_SIZE..], queues);
}

// The result, at the front of the lent tail.
fn write_result(body: Body, queues: u8, list: &[u8], values: &[u8], out: &mut [u8])
    requires { (queues < 5) × (length values.now ≡ values_size) × (length (result_of queues list.now values.now body) ≤ length out.old) }
    ensures { out.new ≡ put 0 (result_of queues list.now values.now body) out.old }
{
    match body {
        Body::Nothing => {}
        Body::Kind(kind) => write_number(out, u8::from(kind) as u32),
        Body::Number(n) => write_number(out, n),
        Body::Headers => write_metadata_list(out, queues),
        Body::Selected => capture::write_asked(out, values, queues, list),
        Body::All => capture::write_all(out, values, queues),
    }
}

// Steps 11 and 12 of a command with a result: the tail from byte 8 is lent to its writer.
pub fn write_reading(
    reading: Result<Body, Refusal>,
    queues: u8,
    list: &[u8],
    values: &[u8],
    reply: &mut [u8],
) -> usize
    requires { (queues < 5) × (length values.now ≡ values_size) × (head_size ≤ length reply.old) }
    ensures { (result, reply.new) ≡ written (replied (outcome_of reading) (result_given queues list.now values.now reading) (length reply.old)) reply.old }
{
    let body = match reading {
        Ok(body) => body,
        Err(refusal) => return write_answer(Err(refusal), reply),
    };
    let size = result_bytes(body, queues, list);
    if reply.len() - HEAD_SIZE < size {
        return write_answer(Err(Refusal::ShortReply), reply);
    }
    write_head(Ok(()), reply);
    write_result(body, queues, list, values, &mut reply[HEAD_SIZE..]);
    HEAD_SIZE + size
}
