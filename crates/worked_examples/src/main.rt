// The worked examples of SPEC 10, B1 to B12 and the metadata list, and L1 to L7 of requests of any length, through the
// exported library: each reply in hexadecimal under its name. Setup: two members, one queue, one get and one set object
// each, features all zero.
#![tactic(auto)]

use protocol::{Metadata, Mode, ObjectKind, SUPPORTED_MASK};
use std::io;
use transcript::{Hex, Request};

// A card of two members.
const CARD: usize = 2559;

// The card of the examples, and where its replies are shown.
#[derive(Drop)]
struct Session<'a, P> {
    rt: &'a P,
    card: [u8; CARD],
}

// The examples are of objects of member 1 alone.
fn create(id: u32, kind: ObjectKind) -> Request {
    Request::create(1, id, kind as u8)
}

fn metadata(what: Metadata) -> Request {
    Request::metadata(1, 0, what as u8)
}

// The headers of queue notify of queue 0 and of the device status: types 0x105 and 0x103.
fn two_headers() -> [u8; 32] {
    let mut list = [0u8; 32];
    wire::write(&mut list, 0, 2, 0x105);
    wire::write(&mut list, 16, 2, 0x103);
    list
}

// Driver features, type 0x101, of 16 bytes: the value 0x5aa5.
fn driver_features() -> [u8; 32] {
    let mut part = [0u8; 32];
    wire::write(&mut part, 0, 2, 0x101);
    wire::write(&mut part, 12, 4, 16);
    wire::write(&mut part, 16, 2, 0x5aa5);
    part
}

fn set_once() -> Request {
    Request::set(1, 1, &driver_features())
}

fn set_twice() -> Request {
    let mut list = [0u8; 64];
    wire::copy(&mut list, 0, &driver_features());
    wire::copy(&mut list, 32, &driver_features());
    Request::set(1, 1, &list)
}

// Group type 2 and opcode 0xffff.
fn no_command() -> [u8; 24] {
    let mut request = [0u8; 24];
    wire::write(&mut request, 0, 2, 0xffff);
    wire::write(&mut request, 2, 2, 2);
    request
}

// The header of the device status, and the first half of another one.
fn header_and_half() -> [u8; 24] {
    let mut list = [0u8; 24];
    wire::write(&mut list, 0, 2, 0x103);
    wire::write(&mut list, 16, 2, 0x105);
    list
}

impl<'a, P: Print> Session<'a, P> {
    fn new(rt: &'a P) -> Self {
        Session {
            rt,
            card: [0u8; CARD],
        }
    }

    fn print(&self, name: &str, reply: &[u8]) -> io::Result<()> {
        print!(self.rt; "{name}\n{}", Hex(reply))
    }

    // Sends a request, and shows its reply, which there is so much room for.
    fn show_in(&mut self, name: &str, request: Request, room: &mut [u8]) -> io::Result<()> {
        let reply = request.send(&mut self.card, room);
        self.print(name, reply)
    }

    fn show(&mut self, name: &str, request: Request) -> io::Result<()> {
        self.show_in(name, request, &mut [0u8; 512])
    }

    // Sends a request whose reply is not shown.
    fn send(&mut self, request: Request) {
        let mut reply = [0u8; 512];
        request.send(&mut self.card, &mut reply);
    }

    fn set_up(&mut self) {
        kajurnat::kajurnat_setup(&mut self.card, 2, &[1u8; 2], 1, 1, &[0u8; 16]);
    }

    // The opcode is no command's, so the host's half has no builder for it.
    fn show_no_command(&mut self, name: &str) -> io::Result<()> {
        let mut reply = [0u8; 512];
        let written = kajurnat::kajurnat_command(&mut self.card, &no_command(), &mut reply);
        self.print(name, reply.get(..written).unwrap_or(&[]))
    }

    // ---- B1 to B12, on one card ----

    fn before_use(&mut self) -> io::Result<()> {
        self.set_up();
        self.show("B1 list query", Request::list_query())?;
        self.show(
            "B2 object create, not in use",
            Request::create(0, 0, ObjectKind::Get as u8),
        )?;
        self.show_no_command("B3 group 2 and opcode 0xffff")?;
        self.send(Request::list_use(SUPPORTED_MASK));
        Ok(())
    }

    fn members(&mut self) -> io::Result<()> {
        self.show(
            "B4 mode set, member 0",
            Request::mode_set(0, Mode::Running as u8),
        )?;
        self.show(
            "B4 mode set, member 3",
            Request::mode_set(3, Mode::Running as u8),
        )?;
        self.show(
            "B4 mode set, member 2",
            Request::mode_set(2, Mode::Running as u8),
        )
    }

    fn objects(&mut self) -> io::Result<()> {
        self.show("B5 create get object 0", create(0, ObjectKind::Get))?;
        self.show("B5 again", create(0, ObjectKind::Get))?;
        self.show("B6 create get object 1", create(1, ObjectKind::Get))?;
        self.show("B6 create get object 2", create(2, ObjectKind::Get))?;
        self.show("B6 create set object 1", create(1, ObjectKind::Set))?;
        self.show("B7 destroy object 0", Request::destroy(1, 0))?;
        self.show("B7 create get object 0", create(0, ObjectKind::Get))?;
        self.show("B8 parts set, member running", set_once())
    }

    fn parts(&mut self) -> io::Result<()> {
        self.show("B9 count", metadata(Metadata::Count))?;
        self.show("B9 size", metadata(Metadata::Size))?;
        self.show(
            "B10 queue notify and device status",
            Request::get(1, 0, 0, &two_headers()),
        )
    }

    // A full capture of one queue is 8 + 229 bytes.
    fn stopped(&mut self) -> io::Result<()> {
        self.send(Request::mode_set(1, Mode::Stopped as u8));
        self.show("B11 driver features twice", set_twice())?;
        self.show("metadata list", metadata(Metadata::HeaderList))?;
        self.show_in(
            "B12 get all, room for 236",
            Request::get_all(1),
            &mut [0u8; 236],
        )?;
        self.show_in(
            "B12 get all, room for 237",
            Request::get_all(1),
            &mut [0u8; 237],
        )
    }

    // ---- L1 to L7, each on a card of its own: for member 1, built requests that are cut, or have bytes more ----

    fn use_all(&mut self) {
        self.set_up();
        self.send(Request::list_use(SUPPORTED_MASK));
    }

    fn create_both(&mut self) {
        self.use_all();
        self.send(create(0, ObjectKind::Get));
        self.send(create(1, ObjectKind::Set));
    }

    // The object header of the query ends after the first byte of its id.
    fn cut_create(&mut self) -> io::Result<()> {
        self.use_all();
        self.show("L1 create of 17 bytes", create(1, ObjectKind::Set).cut(7))?;
        self.show("L1 query of 5 bytes", Request::query(1, 1).cut(11))
    }

    fn long_create(&mut self) -> io::Result<()> {
        self.use_all();
        self.show(
            "L2 create of 30 bytes",
            create(0, ObjectKind::Get).more(&[0xff; 6]),
        )?;
        self.show("L2 query of no data", Request::query(1, 1).cut(16))
    }

    fn resumed(&mut self) -> io::Result<()> {
        self.create_both();
        self.send(Request::mode_set(1, Mode::Stopped as u8));
        self.show(
            "L3 mode set of no data",
            Request::mode_set(1, Mode::Stopped as u8).cut(1),
        )?;
        self.show("L3 parts set", set_once())
    }

    fn blocked(&mut self) -> io::Result<()> {
        self.use_all();
        self.show("L4 list use of no data", Request::list_use(3).cut(8))?;
        self.show("L4 list query", Request::list_query())
    }

    fn long_mask(&mut self) -> io::Result<()> {
        self.set_up();
        self.show(
            "L5 list use of 9 bytes, bit 64",
            Request::list_use(3).more(&[1]),
        )
    }

    fn lists(&mut self) -> io::Result<()> {
        self.use_all();
        self.show(
            "L6 get all, one byte past 16",
            Request::get_all(1).more(&[0]),
        )?;
        self.create_both();
        let request = Request::get(1, 0, 0, &header_and_half());
        self.show_in(
            "L7 one header and a half, room for 8",
            request,
            &mut [0u8; 8],
        )
    }
}

fn main(rt: HostRuntime) -> io::Result<()> {
    let mut session = Session::new(&rt);
    session.before_use()?;
    session.members()?;
    session.objects()?;
    session.parts()?;
    session.stopped()?;
    session.cut_create()?;
    session.long_create()?;
    session.resumed()?;
    session.blocked()?;
    session.long_mask()?;
    session.lists()
}
