// What is said on standard error: the report of a list that is written, or why none is.
use cause::Cause;
use inventory::{
    DEVICE_FEATURES, DEVICE_STATUS, DRIVER_FEATURES, INVENTORY, PCI_COMMON, QUEUE, ROWS, Row,
};
use std::{fmt, io};

// The causes for which a part is dropped.
const CAUSES: [&str; 4] = [
    "unknown",
    "copy of a kept part",
    "wrong length",
    "wrong value",
];

// ---- the report ----

// The part of a row, by its type and selector.
#[derive(Clone, Copy)]
struct Name(Row);

impl fmt::Display for Name {
    fn fmt<W: fmt::Write>(&self, f: &mut fmt::Formatter<W>) -> fmt::Result {
        let selector = self.0.selector;
        match self.0.part_type {
            DEVICE_FEATURES => write!(f, "device features"),
            DRIVER_FEATURES => write!(f, "driver features"),
            PCI_COMMON => write!(f, "PCI common field at {selector}"),
            DEVICE_STATUS => write!(f, "device status"),
            QUEUE => write!(f, "queue {selector}"),
            _ => write!(f, "queue notify {selector}"),
        }
    }
}

// Of a member with so many queues: whether each of its parts is kept, which is 1, how many parts are dropped for each cause,
// and the bytes left over.
#[derive(Clone, Copy)]
pub struct Report {
    pub queues: u8,
    pub kept: [u8; ROWS],
    pub dropped: [u32; CAUSES.len()],
    pub left: u32,
}

impl fmt::Display for Report {
    fn fmt<W: fmt::Write>(&self, f: &mut fmt::Formatter<W>) -> fmt::Result {
        let present = INVENTORY.iter().filter(|row| row.is_present(self.queues));
        for (row, flag) in present.zip(&self.kept) {
            let fate = if *flag == 1 { "kept" } else { "filled" };
            writeln!(f, "{}: {fate}", Name(*row))?;
        }
        for (cause, count) in CAUSES.iter().zip(&self.dropped) {
            writeln!(f, "dropped, {cause}: {count}")?;
        }
        writeln!(f, "bytes left over: {}", self.left)
    }
}

// ---- why no list is written ----

#[derive(Clone, Copy)]
pub enum Failure<'a> {
    Usage,
    NotRead(&'a [u8], io::Error),
    NoSetup(&'a [u8]),
    NoMember(u8),
    TooLong,
    NotWritten(io::Error),
}

impl Failure<'_> {
    // A name is printed as it is. It need not be text, so this is no Display.
    pub fn tell(&self, err: &impl Print) -> io::Result<()> {
        let program = "kajurnat-salvage";
        match self {
            Failure::Usage => println!(err; "usage: {program} SETUP MEMBER <DAMAGED >LIST"),
            Failure::NotRead(name, e) => {
                print!(err; "{program}: cannot read ")?;
                err.write_all(name)?;
                println!(err; ": {}", Cause(*e))
            }
            Failure::NoSetup(name) => {
                print!(err; "{program}: ")?;
                err.write_all(name)?;
                println!(err; " is not a packed setup of version 1 or 2")
            }
            Failure::NoMember(members) => {
                println!(err; "{program}: the member is a number from 1 to {members}")
            }
            Failure::TooLong => {
                println!(err; "{program}: the damaged list is longer than 4,064 bytes")
            }
            Failure::NotWritten(e) => {
                println!(err; "{program}: cannot write the list: {}", Cause(*e))
            }
        }
    }
}
