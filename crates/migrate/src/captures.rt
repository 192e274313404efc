// Parts by name: what differs between two captures, and what is salvaged of a torn one.
ghost use Rattle.std.specs.Prelude.{length};
ghost use Rattle.std.specs.Iterator.{at_most};

use inventory::{
    DEVICE_FEATURES, DEVICE_STATUS, DRIVER_FEATURES, HEADER_SIZE, LENGTH_AT, PCI_COMMON, QUEUE,
    QUEUE_NOTIFY, SELECTOR_AT,
};
use std::{fmt, io};
use transcript::Hex;

// The list of all parts of two queues, and a full capture of them: the reply's head comes first.
pub const LIST: usize = 301;

pub const HEAD: usize = 8;

pub const CAPTURE: usize = HEAD + LIST;

pub type Capture = [u8; CAPTURE];

const PARTS: usize = 11;

// A list that is cut here is torn in the device status.
const TORN: usize = 150;

// One part of a list.
#[derive(Clone, Copy, PartialEq)]
struct Part<'a> {
    part_type: u16,
    selector: u64,
    value: &'a [u8],
}

// The parts of a list, to its end or to where no whole part stands.
#[derive(Clone, Copy)]
struct Parts<'a>(&'a [u8]);

impl<'a> Iterator for Parts<'a> {
    type Item = Part<'a>;

    ghost remaining = { λ s. at_most (length s.0.now) };

    fn next(&mut self) -> Option<Part<'a>> {
        let (header, rest) = self.0.split_first_chunk::<HEADER_SIZE>()?;
        let size = wire::read_u32(header, LENGTH_AT) as usize;
        let (value, rest) = rest.split_at_checked(size)?;
        self.0 = rest;
        Some(Part {
            part_type: wire::read_u16(header, 0),
            selector: wire::read_u64(header, SELECTOR_AT),
            value,
        })
    }
}

// The name of a part.
impl fmt::Display for Part<'_> {
    fn fmt<W: fmt::Write>(&self, f: &mut fmt::Formatter<W>) -> fmt::Result {
        match self.part_type {
            DEVICE_FEATURES => write!(f, "device features"),
            DRIVER_FEATURES => write!(f, "driver features"),
            PCI_COMMON => write!(f, "PCI field {}", self.selector),
            DEVICE_STATUS => write!(f, "device status"),
            QUEUE => write!(f, "queue {}", self.selector),
            QUEUE_NOTIFY => write!(f, "queue notify {}", self.selector),
            _ => write!(f, "?"),
        }
    }
}

// The value of a part, to the end of a line: of a queue by its fields, of another part in hexadecimal.
#[derive(Clone, Copy)]
struct Value<'a>(Part<'a>);

impl fmt::Display for Value<'_> {
    fn fmt<W: fmt::Write>(&self, f: &mut fmt::Formatter<W>) -> fmt::Result {
        match self.0.value.first_chunk::<32>() {
            Some(queue) if self.0.part_type == QUEUE => write_queue(f, queue),
            _ => write!(f, "{}", Hex(self.0.value)),
        }
    }
}

fn write_queue<W: fmt::Write>(f: &mut fmt::Formatter<W>, queue: &[u8; 32]) -> fmt::Result {
    let size = wire::read_u16(queue, 0);
    let vector = wire::read_u16(queue, 2);
    let enabled = wire::read_u16(queue, 4);
    writeln!(f, "size {size}, vector {vector}, enabled {enabled}")?;
    write!(f, "      areas")?;
    for at in [8, 16, 24] {
        write!(f, " {:#018x}", wire::read_u64(queue, at))?;
    }
    writeln!(f)
}

// The parts of two captures that differ.
pub fn show_changes(rt: &impl Print, before: &Capture, after: &Capture) -> io::Result<()> {
    println!(rt; "  changed:")?;
    let pairs = Parts(&before[HEAD..]).zip(Parts(&after[HEAD..]));
    for (_, part) in pairs.filter(|(before, after)| before != after) {
        print!(rt; "    {part}: {}", Value(part))?;
    }
    Ok(())
}

// ---- a torn capture ----

// The parts of the list that are kept, or those that are filled.
fn show_fate(
    rt: &impl Print,
    fate: &str,
    list: &[u8],
    kept: &[u8; PARTS],
    is_kept: bool,
) -> io::Result<()> {
    print!(rt; "    {fate}:")?;
    for (part, flag) in Parts(list).zip(kept) {
        if (*flag == 1) == is_kept {
            print!(rt; "  {part}")?;
        }
    }
    println!(rt)
}

// What the torn capture still holds, as a list for the member.
pub fn salvage_torn(
    rt: &impl Print,
    setup: &[u8],
    member: u64,
    capture: &Capture,
) -> io::Result<[u8; LIST]> {
    let torn = &capture[HEAD..HEAD + TORN];
    let mut list = [0u8; LIST];
    let mut kept = [0u8; PARTS];
    let mut dropped = [0u32; 4];
    let mut left = 0u32;
    let written = kajurnat::kajurnat_salvage(
        setup,
        member,
        torn,
        &mut list,
        &mut kept,
        &mut dropped,
        &mut left,
    );
    println!(rt;
        "  salvage                   {} bytes -> {written} bytes; left over at the end: {left}",
        torn.len()
    )?;
    show_fate(rt, "kept", &list, &kept, true)?;
    show_fate(rt, "filled", &list, &kept, false)?;
    Ok(list)
}
