// Step 10, a bad list, SPEC 5.5 and 5.6: the rules of one part, and of a list.
#![tactic(auto)]

ghost use Rattle.std.specs.Prelude.{◌≡◌, not, eqb};
ghost use Rattle.theory.specs.Logic.{◌or◌};
ghost use Rattle.theory.specs.Bytes.{same};
ghost use Rattle.inventory.specs.Inventory.{device_features};
ghost use Rattle.parts.specs.List.{parts_of};
ghost use Rattle.rules.specs.Rules.{known, asks_known, every, repeated, cause_of, asked_of};
ghost use Rattle.rules.specs.PartCauses.{absent_checked, row_checked, first_of, decided};

use inventory::{DEVICE_FEATURES, INVENTORY, ROWS};
use parts::ListForm;

// A part of this type or above is never skipped.
const NEVER_SKIPPED: u16 = 0x600;

// Why a list given to be set is refused, in the order of SPEC 5.5.
#[derive(Clone, Copy, PartialEq, Eq, PartialOrd, Ord)]
pub enum Cause {
    Cut,
    Unknown,
    Length,
    Size,
    Features,
    Twice,
}

// ---- the rules of one part ----

// Whether a member with so many queues has got this part.
#[tactic(auto, unfolding(crate::specs::Rules::known))]
pub fn is_known(queues: u8, t: u16, selector: u64) -> bool
    ensures { result ≡ known queues t selector }
{
    inventory::place_of(queues, t, selector).is_some()
}

// What is wrong with a part that the member has not got: nothing where it has the optional bit, bit 0 of the flags, and its type
// is low enough, so that it is skipped.
fn check_absent(t: u16, flags: u8) -> Result<(), Cause>
    ensures { result ≡ absent_checked t flags }
{
    if flags % 2 != 1 {
        return Err(Cause::Unknown);
    }
    if t < NEVER_SKIPPED {
        return Ok(());
    }
    Err(Cause::Unknown)
}

// Whether a value is the features, where the part is the device features.
fn is_features(t: u16, value: &[u8], features: &[u8]) -> bool
    ensures { result ≡ not (eqb t device_features) or same value.now features.now }
{
    if t != DEVICE_FEATURES {
        return true;
    }
    wire::equal(value, features)
}

// What is wrong with a part that the member has got, with the size of its row. Where its row has been seen before, it may be named
// twice.
fn check_row(size: u8, seen: bool, t: u16, value: &[u8], features: &[u8]) -> Result<(), Cause>
    ensures { result ≡ row_checked size seen t value.now features.now }
{
    if value.len() != size as usize {
        return Err(Cause::Length);
    }
    if !inventory::is_value_allowed(t, value) {
        return Err(Cause::Size);
    }
    if !is_features(t, value, features) {
        return Err(Cause::Features);
    }
    if seen {
        return Err(Cause::Twice);
    }
    Ok(())
}

// Whether every header asked for is of a part that the member has got.
fn every_known(list: &[u8], queues: u8) -> bool
    ensures { result ≡ every (asks_known queues) (parts_of ListForm.Headers list.now) }
{
    for header in parts::read(ListForm::Headers, list) {
        let Ok(header) = header else {
            return true;
        };
        if !is_known(queues, header.part_type, header.selector) {
            return false;
        }
    }
    true
}

// ---- the rules of a list ----

// Whether a known part is named twice.
fn repeats(form: ListForm, list: &[u8], queues: u8) -> bool
    ensures { result ≡ repeated queues (parts_of form list.now) }
{
    let mut reader = parts::read(form, list);
    // A `loop`, since a `for` would keep the reader, and the inner one starts where it stands.
    'parts: loop {
        let Some(part) = reader.next() else {
            return false;
        };
        let Ok(part) = part else {
            return false;
        };
        if !is_known(queues, part.part_type, part.selector) {
            continue 'parts;
        }
        'rest: for other in reader {
            let Ok(other) = other else {
                break 'rest;
            };
            if other.is_named(part.part_type, part.selector) {
                break 'parts;
            }
        }
    }
    true
}

// The first of two causes, if there is one.
fn first_of(a: Result<(), Cause>, b: Result<(), Cause>) -> Result<(), Cause>
    ensures { result ≡ first_of a b }
{
    let Err(x) = a else {
        return b;
    };
    let Err(y) = b else {
        return a;
    };
    Err(x.min(y))
}

// Why a list is refused, by the first cause of its parts. The nested loops tell a part that is named twice, and are spared where
// no row was seen again.
fn decide(first: Result<(), Cause>, list: &[u8], queues: u8) -> Result<(), Cause>
    ensures { result ≡ decided first (repeated queues (parts_of ListForm.Parts list.now)) }
{
    let Err(cause) = first else {
        return Ok(());
    };
    let Cause::Twice = cause else {
        return first;
    };
    if repeats(ListForm::Parts, list, queues) {
        return first;
    }
    Ok(())
}

// Why a list given to be set is refused, if it is: the first cause that occurs anywhere in it. One walk, which keeps the first
// cause of a part and the rows seen.
pub fn check_list(queues: u8, features: &[u8], list: &[u8]) -> Result<(), Cause>
    ensures { result ≡ cause_of queues features.now list.now }
{
    let rows = INVENTORY;
    let mut seen = [false; ROWS];
    let mut first = Ok(());
    for part in parts::read(ListForm::Parts, list) {
        let Ok(part) = part else {
            return Err(Cause::Cut);
        };
        let t = part.part_type;
        let Some(i) = inventory::place_of(queues, t, part.selector) else {
            first = first_of(first, check_absent(t, part.flags));
            continue;
        };
        first = first_of(
            first,
            check_row(rows[i].size, seen[i], t, part.value, features),
        );
        seen[i] = true;
    }
    decide(first, list, queues)
}

// Whether a list of headers can be asked for.
pub fn check_asked(queues: u8, list: &[u8]) -> bool
    ensures { result ≡ asked_of queues list.now }
{
    if !parts::is_whole(ListForm::Headers, list) {
        return false;
    }
    if !every_known(list, queues) {
        return false;
    }
    !repeats(ListForm::Headers, list, queues)
}
