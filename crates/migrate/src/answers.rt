// How commands, card events and restores went.
use std::fmt;
use transcript::Request;

// The status of a reply, if it is a reply to its request.
#[derive(Clone, Copy)]
pub struct Status(Option<u16>);

fn read_status(request: &Request, reply: &[u8]) -> Option<u16> {
    let opcode = request.as_slice().first_chunk::<2>()?;
    let head = host::read_reply(wire::read_u16(opcode, 0), 0, reply)?;
    Some(head.status)
}

impl Status {
    pub fn of_reply(request: &Request, reply: &[u8]) -> Status {
        Status(read_status(request, reply))
    }

    // The answer of a call of a restore is status + 65,536 x qualifier.
    pub fn of_answer(answer: u32) -> Status {
        Status(Some((answer % 0x1_0000) as u16))
    }
}

impl fmt::Display for Status {
    fn fmt<W: fmt::Write>(&self, f: &mut fmt::Formatter<W>) -> fmt::Result {
        f.write_str(match self.0 {
            None => "no reply to it",
            Some(0) => "OK",
            Some(6) => "ENXIO",
            Some(11) => "EAGAIN",
            Some(12) => "ENOMEM",
            Some(17) => "EEXIST",
            Some(22) => "EINVAL",
            Some(28) => "ENOSPC",
            Some(_) => "?",
        })
    }
}

// The answer to a setup or a card event.
#[derive(Clone, Copy)]
pub struct Event(pub u8);

impl fmt::Display for Event {
    fn fmt<W: fmt::Write>(&self, f: &mut fmt::Formatter<W>) -> fmt::Result {
        f.write_str(if self.0 == 0 { "DONE" } else { "REFUSED" })
    }
}
