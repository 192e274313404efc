// Salvages a torn capture: 02, request 8. The arguments are the file of a packed setup and a member's number. The damaged
// list is read from standard input, the repaired one written to standard output, and a report to standard error.
#![tactic(auto)]

mod input;
mod report;

ghost use Rattle.salvage_file.specs.Counts.{IsPrefixLen};

use arrayvec::ArrayVec;
use inventory::ROWS;
use report::{Failure, Report};
use std::{fs, io};

// One byte more than the longest setup, of 16 members in version 2, and one more than the longest list: what is longer than
// these is refused for its length.
const SETUP_ROOM: usize = 24;

const DAMAGED_ROOM: usize = 4065;

// The list for a member with four queues.
const LIST_ROOM: usize = 445;

// The longest path, and the zero behind it.
const PATH_ROOM: usize = 4096;

// The longest text for a member's number.
const NUMBER_ROOM: usize = 20;

// The system's number for text that is none.
const EILSEQ: i32 = 84;

// std opens what is named in UTF-8 alone; another name is one that the system cannot read.
fn open_setup(rt: &HostRuntime, path: &[u8]) -> io::Result<fs::File> {
    let Ok(name) = str::from_utf8(path) else {
        return Err(io::Error::from_raw_os_error(EILSEQ));
    };
    fs::open(rt, name)
}

fn read_setup(file: &mut fs::File) -> io::Result<ArrayVec<u8, SETUP_ROOM>> {
    input::read_whole(file)
}

fn read_damaged(rt: &HostRuntime) -> io::Result<ArrayVec<u8, DAMAGED_ROOM>> {
    input::read_whole(&mut rt.stdin())
}

// A member's number, and how many queues it has.
fn find_member<'a>(
    rt: &HostRuntime,
    setup: &[u8],
    path: &'a [u8],
) -> Result<(u64, u8), Failure<'a>> {
    let Ok(read) = setups::read(setup) else {
        return Err(Failure::NoSetup(path));
    };
    let mut room = [0u8; NUMBER_ROOM];
    let Some(member) = input::argument(rt, 2, &mut room).and_then(input::number) else {
        return Err(Failure::NoMember(read.members));
    };
    let Some(m) = setups::member_setup(setup, member) else {
        return Err(Failure::NoMember(read.members));
    };
    Ok((member, m.queues))
}

// The library's call; what it writes is part of the list.
fn salvaged(
    setup: &[u8],
    member: u64,
    damaged: &[u8],
    list: &mut [u8],
    kept: &mut [u8],
    dropped: &mut [u32],
    left: &mut u32,
) -> usize
    ensures { IsPrefixLen result list.new }
{
    salvage::salvage(setup, member, damaged, list, kept, dropped, left)
}

// Writes what is salvaged.
fn repair<'a>(
    rt: &HostRuntime,
    setup: &[u8],
    member: u64,
    queues: u8,
    damaged: &[u8],
) -> Result<Report, Failure<'a>> {
    let mut list = [0u8; LIST_ROOM];
    let mut kept = [0u8; ROWS];
    let mut dropped = [0u32; 4];
    let mut left = 0u32;
    let n = salvaged(
        setup,
        member,
        damaged,
        &mut list,
        &mut kept,
        &mut dropped,
        &mut left,
    );
    if n == 0 {
        return Err(Failure::TooLong);
    }
    if let Err(e) = rt.write_all(&list[..n]) {
        return Err(Failure::NotWritten(e));
    }
    Ok(Report {
        queues,
        kept,
        dropped,
        left,
    })
}

fn run<'a>(rt: &HostRuntime, path: &'a [u8]) -> Result<Report, Failure<'a>> {
    let input: &[u8] = b"standard input";
    // The file stays open to the end.
    let mut file = open_setup(rt, path).map_err(|e| Failure::NotRead(path, e))?;
    let setup = read_setup(&mut file).map_err(|e| Failure::NotRead(path, e))?;
    let (member, queues) = find_member(rt, setup.as_slice(), path)?;
    let damaged = read_damaged(rt).map_err(|e| Failure::NotRead(input, e))?;
    repair(rt, setup.as_slice(), member, queues, damaged.as_slice())
}

fn main(rt: HostRuntime) -> io::Result<()> {
    let err = rt.stderr();
    if !input::has_argument(&rt, 2) || input::has_argument(&rt, 3) {
        return Failure::Usage.tell(&err);
    }
    let mut room = [0u8; PATH_ROOM];
    let path = input::argument(&rt, 1, &mut room).unwrap_or(&[]);
    match run(&rt, path) {
        Ok(report) => print!(err; "{report}"),
        Err(failure) => failure.tell(&err),
    }
}
