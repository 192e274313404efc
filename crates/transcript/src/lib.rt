// For the programs: requests that the host's half builds, and bytes in hexadecimal.
#![tactic(auto)]

use std::fmt;

// There is room for a list of 472 bytes: a full capture of four queues fits.
const ROOM: usize = 512;

// A request that the host's half built. An ArrayVec in place of the room and its length would not be Copy.
#[derive(Clone, Copy)]
pub struct Request {
    pub bytes: [u8; ROOM],
    pub len: usize,
}

impl Request {
    // What is written at the front of the room; the writer answers how long that is.
    fn build<F: FnOnce(&mut [u8]) -> usize>(write: F) -> Request
        requires { F.IsAlwaysCallable write }
    {
        let mut bytes = [0u8; ROOM];
        let len = write(&mut bytes);
        Request { bytes, len }
    }

    pub fn list_query() -> Request {
        Request::build(|out| host::list_query(out))
    }

    pub fn list_use(mask: u64) -> Request {
        Request::build(|out| host::list_use(out, mask))
    }

    // A kind, a type and a mode go in as given, like all numbers: also one that the card refuses.
    pub fn create(member: u64, id: u32, kind: u8) -> Request {
        Request::build(|out| host::create(out, member, id, kind))
    }

    pub fn query(member: u64, id: u32) -> Request {
        Request::build(|out| host::query(out, member, id))
    }

    pub fn destroy(member: u64, id: u32) -> Request {
        Request::build(|out| host::destroy(out, member, id))
    }

    pub fn metadata(member: u64, id: u32, what: u8) -> Request {
        Request::build(|out| host::metadata(out, member, id, what))
    }

    // which: 0 the parts whose headers are given, 1 all.
    pub fn get(member: u64, id: u32, which: u8, headers: &[u8]) -> Request {
        Request::build(|out| host::get(out, member, id, which, headers))
    }

    // All parts of a member, through its get object 0.
    pub fn get_all(member: u64) -> Request {
        Request::get(member, 0, 1, &[])
    }

    pub fn set(member: u64, id: u32, list: &[u8]) -> Request {
        Request::build(|out| host::set(out, member, id, list))
    }

    pub fn mode_set(member: u64, mode: u8) -> Request {
        Request::build(|out| host::set_mode(out, member, mode))
    }

    // Without its last n bytes, if it has as many.
    pub fn cut(mut self, n: usize) -> Request {
        if n <= self.len {
            self.len -= n;
        }
        self
    }

    // With these bytes behind it, where there is room.
    pub fn more(mut self, end: &[u8]) -> Request {
        let at = self.len;
        if at <= ROOM && end.len() <= ROOM - at {
            wire::copy(&mut self.bytes, at, end);
            self.len = at + end.len();
        }
        self
    }

    // Its bytes; none where they are told to be more than there are.
    pub fn as_slice(&self) -> &[u8] {
        self.bytes.get(..self.len).unwrap_or(&[])
    }

    // Sends it to a card; answers the part of the reply that is written.
    pub fn send<'a>(&self, card: &mut [u8], reply: &'a mut [u8]) -> &'a [u8] {
        let Some(request) = self.bytes.get(..self.len) else {
            return &[];
        };
        let written = kajurnat::kajurnat_command(card, request, reply);
        reply.get(..written).unwrap_or(&[])
    }
}

// The bytes in hexadecimal, 16 to a line.
#[derive(Clone, Copy)]
pub struct Hex<'a>(pub &'a [u8]);

impl fmt::Display for Hex<'_> {
    fn fmt<W: fmt::Write>(&self, f: &mut fmt::Formatter<W>) -> fmt::Result {
        for line in self.0.chunks(16) {
            for (i, byte) in line.iter().enumerate() {
                let separator = if i == 0 { "" } else { " " };
                write!(f, "{separator}{byte:02x}")?;
            }
            writeln!(f)?;
        }
        Ok(())
    }
}
