// A full capture and a later list of what changed, 02, request 7: one part looked up in the pair, and one list made of it.
#![tactic(auto)]

ghost use Rattle.std.specs.Prelude.{◌≡◌, ◌+◌, ◌<◌, ◌≤◌, length};
ghost use Rattle.theory.specs.Bytes.{put};
ghost use Rattle.parts.specs.List.{parts_of};
ghost use Rattle.rules.specs.Rules.{cause_of, is_accepted};
ghost use Rattle.capture.specs.Runs.{Wrote};
ghost use Rattle.setups.specs.Member.{member_setup};
ghost use Rattle.difference.specs.Difference.{span_of, place_in, has_row, is_full, verdict_of, code_of, lookup_of, lookup_told, made_part, made, merge_of};
ghost use Rattle.difference.specs.Under.{lookup_under, merge_under};
ghost use Rattle.difference.specs.Handed.{PartOf, Handed, Inside};

use inventory::{HEADER_SIZE, INVENTORY, Row};
use parts::ListForm;

// Where the value of a part stands in a list.
#[derive(Clone, Copy)]
struct Span {
    start: usize,
    len: usize,
}

// Why a call is refused: the first name that applies, in this order. A bad setup is refused where it is read.
#[derive(Clone, Copy)]
pub enum Refusal {
    BadSetup,
    BadFull,
    BadLater,
    LacksPart,
    OutsideInventory,
    ShortBuffer,
}

// Where the value of the part asked stands: in the later list, or in the full capture.
#[derive(Clone, Copy)]
pub enum Place {
    Later { start: usize, len: usize },
    Full { start: usize, len: usize },
}

// ---- where the value of a part stands ----

// In one list: the walk is that of a list that is set.
fn span_of(list: &[u8], t: u16, selector: u64) -> Option<Span>
    ensures { result ≡ span_of t selector list.now }
{
    for part in parts::read(ListForm::Parts, list) {
        let Ok(part) = part else {
            return None;
        };
        if part.is_named(t, selector) {
            return Some(Span {
                start: part.start,
                len: part.value.len(),
            });
        }
    }
    None
}

// In the later list, or else in the full capture.
fn place_in(full: &[u8], later: &[u8], t: u16, selector: u64) -> Result<Place, Refusal>
    ensures { result ≡ place_in full.now later.now t selector }
{
    if let Some(Span { start, len }) = span_of(later, t, selector) {
        return Ok(Place::Later { start, len });
    }
    if let Some(Span { start, len }) = span_of(full, t, selector) {
        return Ok(Place::Full { start, len });
    }
    Err(Refusal::LacksPart)
}

// So many bytes of a lent list, with no copy.
fn cut<'a>(list: &'a [u8], start: usize, len: usize) -> &'a [u8]
    requires { start + len ≤ length list.now }
    ensures { PartOf list.entry start len result }
{
    &list[start..start + len]
}

// The part that a lookup says; an empty one where it is refused.
fn part_at<'a>(full: &'a [u8], later: &'a [u8], found: Result<Place, Refusal>) -> &'a [u8]
    requires { Inside full.now later.now found }
    ensures { Handed full.entry later.entry found result }
{
    let Ok(place) = found else {
        return &full[0..0];
    };
    match place {
        Place::Later { start, len } => cut(later, start, len),
        Place::Full { start, len } => cut(full, start, len),
    }
}

// ---- the refusals ----

// Whether step 10 accepts a list.
fn is_good(queues: u8, features: &[u8], list: &[u8]) -> bool
    ensures { result ≡ is_accepted (cause_of queues features.now list.now) }
{
    rules::check_list(queues, features, list).is_ok()
}

// Whether a list has the part of a row, if a member with so many queues has it.
fn has_row(queues: u8, list: &[u8], row: Row) -> bool
    ensures { result ≡ has_row queues (parts_of ListForm.Parts list.now) row }
{
    if !row.is_present(queues) {
        return true;
    }
    parts::contains(ListForm::Parts, list, row.part_type, row.selector as u64)
}

// Whether a list lacks no part of the inventory.
fn is_full(queues: u8, list: &[u8]) -> bool
    ensures { result ≡ is_full queues list.now }
{
    for row in INVENTORY {
        if !has_row(queues, list, row) {
            return false;
        }
    }
    true
}

fn verdict_of(
    queues: u8,
    features: &[u8],
    full: &[u8],
    later: &[u8],
    asked: bool,
    room: bool,
) -> Result<(), Refusal>
    ensures { result ≡ verdict_of queues features.now full.now later.now asked room }
{
    if !is_good(queues, features, full) {
        return Err(Refusal::BadFull);
    }
    if !is_good(queues, features, later) {
        return Err(Refusal::BadLater);
    }
    if !is_full(queues, full) {
        return Err(Refusal::LacksPart);
    }
    if !asked {
        return Err(Refusal::OutsideInventory);
    }
    if !room {
        return Err(Refusal::ShortBuffer);
    }
    Ok(())
}

// 0, or the number of a refusal.
pub fn code(verdict: Result<(), Refusal>) -> u8
    ensures { result ≡ code_of verdict }
{
    match verdict {
        Ok(_) => 0,
        Err(Refusal::BadSetup) => 1,
        Err(Refusal::BadFull) => 2,
        Err(Refusal::BadLater) => 3,
        Err(Refusal::LacksPart) => 4,
        Err(Refusal::OutsideInventory) => 5,
        Err(Refusal::ShortBuffer) => 6,
    }
}

// ---- looking up one part ----

// Where the value of the part with this type and these selector bytes stands in the pair, or why the call is refused.
fn look_up_in(
    queues: u8,
    features: &[u8],
    full: &[u8],
    later: &[u8],
    part_type: u16,
    selector: u64,
) -> Result<Place, Refusal>
    ensures { result ≡ lookup_of queues features.now full.now later.now part_type selector }
{
    let named = inventory::selector_of(part_type, selector);
    let asked = rules::is_known(queues, part_type, named);
    verdict_of(queues, features, full, later, asked, true)?;
    place_in(full, later, part_type, named)
}

// The same under a packed setup, of one member of it.
pub fn look_up(
    setup: &[u8],
    member: u64,
    full: &[u8],
    later: &[u8],
    part_type: u16,
    selector: u64,
) -> Result<Place, Refusal>
    ensures { result ≡ lookup_under (member_setup setup.now member) full.now later.now part_type selector }
{
    match setups::member_setup(setup, member) {
        Some(m) => {
            let features = m.features;
            look_up_in(m.queues, &features, full, later, part_type, selector)
        }
        None => Err(Refusal::BadSetup),
    }
}

// The value itself, a part of one of the two lists; an empty part where the call is refused.
pub fn find<'a>(
    setup: &[u8],
    member: u64,
    full: &'a [u8],
    later: &'a [u8],
    part_type: u16,
    selector: u64,
) -> &'a [u8]
    ensures { Handed full.entry later.entry (lookup_under (member_setup setup.now member) full.now later.now part_type selector) result }
{
    part_at(
        full,
        later,
        look_up(setup, member, full, later, part_type, selector),
    )
}

// The same for C, to which no reference can be returned: 0, and the list, the value's place in it and its length; or the
// number of the refusal, and zeros.
pub fn find_place(
    setup: &[u8],
    member: u64,
    full: &[u8],
    later: &[u8],
    part_type: u16,
    selector: u64,
    list: &mut u8,
    at: &mut u64,
    len: &mut u64,
) -> u8
    ensures { (result, (list.new, (at.new, len.new))) ≡ lookup_told (lookup_under (member_setup setup.now member) full.now later.now part_type selector) }
{
    match look_up(setup, member, full, later, part_type, selector) {
        Ok(Place::Later { start, len: n }) => {
            *list = 1;
            *at = start as u64;
            *len = n as u64;
            0
        }
        Ok(Place::Full { start, len: n }) => {
            *list = 0;
            *at = start as u64;
            *len = n as u64;
            0
        }
        Err(refusal) => {
            *list = 0;
            *at = 0;
            *len = 0;
            code(Err(refusal))
        }
    }
}

// ---- making one list ----

// The part of a row, the table's header and the value looked up. Returns the place after it.
fn write_part<'a>(out: &mut [u8], at: usize, full: &'a [u8], later: &'a [u8], row: Row) -> usize
    requires { at + length (made_part full.now later.now row) ≤ length out.old }
    ensures { Wrote (made_part full.now later.now row) at out.old out.new result }
{
    row.write_header(out, at);
    let value = part_at(
        full,
        later,
        place_in(full, later, row.part_type, row.selector as u64),
    );
    wire::copy(out, at + HEADER_SIZE, value);
    at + HEADER_SIZE + value.len()
}

// The made list, at the front of what is lent.
fn write_made<'a>(out: &mut [u8], queues: u8, full: &'a [u8], later: &'a [u8])
    requires { length (made queues full.now later.now) ≤ length out.old }
    ensures { out.new ≡ put 0 (made queues full.now later.now) out.old }
{
    let mut at = 0;
    for row in INVENTORY {
        if row.is_present(queues) {
            at = write_part(out, at, full, later, row);
        }
    }
}

// The list made of the pair, at the front of `merged`: 0 and its bytes; or the number of the refusal and 0, and nothing
// written.
fn merge_in<'a>(
    queues: u8,
    features: &[u8],
    full: &'a [u8],
    later: &'a [u8],
    merged: &mut [u8],
    written: &mut u64,
) -> u8
    requires { queues < 5 }
    ensures { (result, (written.new, merged.new)) ≡ merge_of queues features.now full.now later.now merged.old }
{
    let size = inventory::parts_size(queues) as usize;
    let room = size <= merged.len();
    if let Err(refusal) = verdict_of(queues, features, full, later, true, room) {
        *written = 0;
        return code(Err(refusal));
    }
    write_made(merged, queues, full, later);
    *written = size as u64;
    0
}

// The same under a packed setup, for one member of it.
pub fn merge<'a>(
    setup: &[u8],
    member: u64,
    full: &'a [u8],
    later: &'a [u8],
    merged: &mut [u8],
    written: &mut u64,
) -> u8
    ensures { (result, (written.new, merged.new)) ≡ merge_under (member_setup setup.now member) full.now later.now merged.old }
{
    match setups::member_setup(setup, member) {
        Some(m) => {
            let features = m.features;
            merge_in(m.queues, &features, full, later, merged, written)
        }
        None => {
            *written = 0;
            code(Err(Refusal::BadSetup))
        }
    }
}
