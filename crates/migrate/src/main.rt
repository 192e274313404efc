// A guest moves between two cards that are set up from one packed setup: it is stopped and captured on the first, restored
// on the second from fragments and resumed there; its first place is handed back and wiped, and the next guest is shown to
// find nothing of it. At the end its capture is torn, and what is salvaged of it is set. A transcript goes to standard output.
#![tactic(auto)]

mod answers;
mod captures;

use answers::{Event, Status};
use captures::{CAPTURE, Capture, HEAD};
use inventory::{DEVICE_STATUS, DRIVER_FEATURES, PCI_COMMON, QUEUE};
use protocol::{Mode, ObjectKind, SUPPORTED_MASK};
use std::io;
use transcript::{Hex, Request};

// A card of four members; those of the story have two queues.
const MEMBERS: u64 = 4;

const QUEUES: [u8; 4] = [1, 2, 2, 4];

const CARD: usize = 5091;

// Its setup, packed, and what of it stands before the features: SPEC 13.9.
const SETUP: usize = 20;

const SETUP_FRONT: usize = 4;

// The one feature that the cards offer and the guest's driver takes.
const VERSION_1: [u8; 16] = [0, 0, 0, 0, 1, 0, 0, 0, 0, 0, 0, 0, 0, 0, 0, 0];

// A card, and where is told what becomes of it.
#[derive(Drop)]
struct Card<'a, P> {
    rt: &'a P,
    bytes: [u8; CARD],
}

// A queue of 256 entries, vector 1, enabled, with its three areas in the guest's memory.
fn queue() -> [u8; 32] {
    let mut value = [0u8; 32];
    wire::write(&mut value, 0, 2, 256);
    wire::write(&mut value, 2, 2, 1);
    wire::write(&mut value, 4, 2, 1);
    wire::write(&mut value, 8, 8, 0x7f0000);
    wire::write(&mut value, 16, 8, 0x7f1000);
    wire::write(&mut value, 24, 8, 0x7f2000);
    value
}

impl<'a, P: Print> Card<'a, P> {
    fn new(rt: &'a P) -> Self {
        Card {
            rt,
            bytes: [0u8; CARD],
        }
    }

    fn set_up(&mut self, setup: &[u8]) -> Event {
        Event(kajurnat::kajurnat_setup_from(&mut self.bytes, setup))
    }

    // Sends a command; answers its status alone.
    fn status(&mut self, request: Request) -> Status {
        let mut room = [0u8; CAPTURE];
        let reply = request.send(&mut self.bytes, &mut room);
        Status::of_reply(&request, reply)
    }

    // Sends a command and tells how it went; answers the reply, with zeros behind it.
    fn tell(&mut self, name: &str, request: Request) -> io::Result<Capture> {
        let mut room = [0u8; CAPTURE];
        let reply = request.send(&mut self.bytes, &mut room);
        let status = Status::of_reply(&request, reply);
        let (sent, written) = (request.as_slice().len(), reply.len());
        println!(self.rt; "  {name:<25} {sent} bytes -> {status}, {written} bytes")?;
        Ok(room)
    }

    fn get_all(&mut self, name: &str, member: u64) -> io::Result<Capture> {
        self.tell(name, Request::get_all(member))
    }

    // What makes a member ready for captures and restores: a get object 0 and a set object 1, and that it is stopped.
    fn prepare(&mut self, member: u64) -> io::Result<()> {
        let used = self.status(Request::list_use(SUPPORTED_MASK));
        let get = self.status(Request::create(member, 0, ObjectKind::Get as u8));
        let set = self.status(Request::create(member, 1, ObjectKind::Set as u8));
        let stopped = self.status(Request::mode_set(member, Mode::Stopped as u8));
        println!(self.rt;
            "  list use, create get 0, create set 1, mode set stop -> {used}, {get}, {set}, {stopped}"
        )
    }

    // The guest at work: its driver's features, the vector of configuration changes, the device status and a queue.
    fn work(&mut self, member: u64) {
        let card = &mut self.bytes;
        kajurnat::kajurnat_store(card, member, DRIVER_FEATURES, 0, &VERSION_1);
        kajurnat::kajurnat_store(card, member, PCI_COMMON, 16, &[1, 0]);
        kajurnat::kajurnat_store(card, member, DEVICE_STATUS, 0, &[0x0f]);
        kajurnat::kajurnat_store(card, member, QUEUE, 1, &queue());
    }

    fn feed(&mut self, member: u64, fragment: &[u8]) -> io::Result<()> {
        let answer = kajurnat::kajurnat_restore_feed(&mut self.bytes, member, fragment);
        print!(self.rt; ", feed {} {}", fragment.len(), Status::of_answer(answer))
    }

    // The list of a capture, as it comes in: the fragments end inside a header, inside a value and nowhere.
    fn restore(&mut self, member: u64, capture: &Capture) -> io::Result<()> {
        let begun = kajurnat::kajurnat_restore_begin(&mut self.bytes, member);
        print!(self.rt; "  restore begin {}", Status::of_answer(begun))?;
        self.feed(member, &capture[HEAD..9])?;
        self.feed(member, &capture[9..108])?;
        self.feed(member, &[])?;
        self.feed(member, &capture[108..])?;
        let finished = kajurnat::kajurnat_restore_finish(&mut self.bytes, member, 1);
        println!(self.rt; ", finish through set 1 {}", Status::of_answer(finished))
    }

    // Between the two halves of a reset a command is refused.
    fn reset(&mut self, member: u64) -> io::Result<()> {
        let handed_back = Event(kajurnat::kajurnat_hand_back(&mut self.bytes, member));
        println!(self.rt; "  {:<25} {handed_back}", "hand back")?;
        self.get_all("parts get, all", member)?;
        let wiped = Event(kajurnat::kajurnat_wipe(&mut self.bytes, member, 0));
        println!(self.rt; "  {:<25} {wiped}", "wipe")
    }

    // Member 2 of the first card, before the guest and with it at work.
    fn first_place(&mut self) -> io::Result<(Capture, Capture)> {
        println!(self.rt; "\nFirst card, member 2: fresh, and then with a guest at work")?;
        self.prepare(2)?;
        let unused = self.get_all("parts get, all: fresh", 2)?;
        self.work(2);
        let leaving = self.get_all("parts get, all: the guest", 2)?;
        captures::show_changes(self.rt, &unused, &leaving)?;
        Ok((unused, leaving))
    }

    // Member 3 of the second card takes the guest over.
    fn second_place(&mut self, leaving: &Capture) -> io::Result<Capture> {
        println!(self.rt; "\nSecond card, member 3: the guest arrives in fragments")?;
        self.prepare(3)?;
        self.restore(3, leaving)?;
        let arrived = self.get_all("parts get, all", 3)?;
        self.tell(
            "mode set, resume",
            Request::mode_set(3, Mode::Running as u8),
        )?;
        Ok(arrived)
    }

    // The first place again: handed back, wiped, and another guest.
    fn next_guest(&mut self) -> io::Result<Capture> {
        println!(self.rt; "\nFirst card, member 2: handed back, wiped, and the next guest")?;
        self.reset(2)?;
        self.prepare(2)?;
        self.get_all("parts get, all", 2)
    }

    // Member 2 of the second card takes what is salvaged; answers whether it then holds just that.
    fn torn_place(&mut self, setup: &[u8], leaving: &Capture) -> io::Result<bool> {
        println!(self.rt; "\nSecond card, member 2: the guest's capture, torn in the middle")?;
        self.prepare(2)?;
        let list = captures::salvage_torn(self.rt, setup, 2, leaving)?;
        self.tell("parts set, what was saved", Request::set(2, 1, &list))?;
        let taken = self.get_all("parts get, all", 2)?;
        Ok(taken.ends_with(&list))
    }
}

fn check(rt: &impl Print, what: &str, holds: bool) -> io::Result<()> {
    println!(rt; "  {what}: {}", if holds { "yes" } else { "NO" })
}

fn main(rt: HostRuntime) -> io::Result<()> {
    println!(rt;
        "Two cards of four members with 1, 2, 2 and 4 queues, set up from 20 packed bytes"
    )?;
    let mut setup = [0u8; SETUP];
    kajurnat::kajurnat_setup_write(&mut setup, MEMBERS, &QUEUES, 1, 1, &VERSION_1);
    let mut first = Card::new(&rt);
    let mut second = Card::new(&rt);
    let (from, to) = (first.set_up(&setup), second.set_up(&setup));
    let front = Hex(&setup[..SETUP_FRONT]);
    print!(rt;
        "  setup from: first card {from}, second card {to}; the bytes before the features: {front}"
    )?;

    let (unused, leaving) = first.first_place()?;
    let arrived = second.second_place(&leaving)?;
    let next = first.next_guest()?;
    let saved = second.torn_place(&setup, &leaving)?;

    println!(rt; "\nWhat was checked")?;
    check(&rt, "the guest had changed its member", unused != leaving)?;
    check(
        &rt,
        "it arrived with the very bytes it left with",
        arrived == leaving,
    )?;
    check(
        &rt,
        "the next guest finds what a fresh member holds, byte for byte",
        next == unused,
    )?;
    check(
        &rt,
        "a stopped member took the salvaged list and holds just that",
        saved,
    )
}
