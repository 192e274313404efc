// A list of parts, SPEC 5.4, and the walk over it.
#![tactic(auto)]

ghost use Rattle.std.specs.Prelude.{◌≡◌, ◌+◌, ◌-◌, ◌<◌, ◌≤◌, eqb, length};
ghost use Rattle.std.specs.Iterator.{at_most};
ghost use Rattle.theory.specs.Logic.{◌and◌};
ghost use Rattle.inventory.specs.Header.{header_size};
ghost use Rattle.parts.specs.List.{value_size, parts_of, whole, among};
ghost use Rattle.parts.specs.Reader.{Stands, Gives};

use inventory::{FLAGS_AT, HEADER_SIZE, LENGTH_AT, SELECTOR_AT};

// The longest list of parts that a request gives: 4,096 bytes, less its frame and the object header.
pub const LONGEST_LIST: usize = 4064;

// What a list holds: whole parts, or headers alone.
#[derive(Clone, Copy)]
pub enum ListForm {
    Parts,
    Headers,
}

// A part of a list: what its header says, and its value, which starts at `start`.
#[derive(Clone, Copy)]
pub struct Part<'a> {
    pub part_type: u16,
    pub flags: u8,
    pub selector: u64,
    pub start: usize,
    pub value: &'a [u8],
}

impl<'a> Part<'a> {
    // Whether it is the part of this type and selector.
    pub fn is_named(&self, t: u16, selector: u64) -> bool
        ensures { result ≡ eqb self.now.part_type t and eqb self.now.selector selector }
    {
        if self.part_type != t {
            return false;
        }
        self.selector == selector
    }
}

// A header or a value that runs past the end of its list.
#[derive(Clone, Copy)]
pub struct Cut;

// The reader of a list: the list, and a position in it.
#[derive(Clone, Copy)]
pub struct PartReader<'a> {
    form: ListForm,
    list: &'a [u8],
    at: usize,
}

// A reader at a position of a list, whatever stands there.
pub fn read_from<'a>(form: ListForm, list: &'a [u8], at: usize) -> PartReader<'a>
    ensures { (result.form ≡ form) × (result.list ≡ list.entry) × (result.at ≡ at) }
{
    PartReader { form, list, at }
}

// A reader at the start of a list.
pub fn read<'a>(form: ListForm, list: &'a [u8]) -> PartReader<'a>
    ensures { (result.form ≡ form) × (result.list ≡ list.entry) × (result.at ≡ 0) }
{
    read_from(form, list, 0)
}

// The bytes of the value that follows a header.
fn value_size(form: ListForm, list: &[u8], at: usize) -> usize
    requires { at + header_size ≤ length list.now }
    ensures { result ≡ value_size form list.now at }
{
    match form {
        ListForm::Parts => wire::read_u32(list, at + LENGTH_AT) as usize,
        ListForm::Headers => 0,
    }
}

// The part at a position before the end. A length is compared with the bytes left, so that no sum can overflow.
fn part_at<'a>(form: ListForm, list: &'a [u8], at: usize) -> Result<Part<'a>, Cut>
    requires { at < length list.now }
    ensures { Stands form list.now at result }
{
    if list.len() - at < HEADER_SIZE {
        return Err(Cut);
    }
    let len = value_size(form, list, at);
    let start = at + HEADER_SIZE;
    if list.len() - start < len {
        return Err(Cut);
    }
    let part_type = wire::read_u16(list, at);
    Ok(Part {
        part_type,
        flags: list[at + FLAGS_AT],
        selector: inventory::selector_of(part_type, wire::read_u64(list, at + SELECTOR_AT)),
        start,
        value: &list[start..start + len],
    })
}

// The parts one after the other. After one that is cut nothing follows.
impl<'a> Iterator for PartReader<'a> {
    type Item = Result<Part<'a>, Cut>;

    ghost next_gives = { Gives };

    ghost remaining = { λ s. at_most (length s.list.now - s.at) };

    fn next(&mut self) -> Option<Result<Part<'a>, Cut>> {
        if self.list.len() <= self.at {
            return None;
        }
        let Ok(part) = part_at(self.form, self.list, self.at) else {
            self.at = self.list.len();
            return Some(Err(Cut));
        };
        self.at = part.start + part.value.len();
        Some(Ok(part))
    }
}

// Whether no header and no value runs past the end.
pub fn is_whole(form: ListForm, list: &[u8]) -> bool
    ensures { result ≡ whole (parts_of form list.now) }
{
    for part in read(form, list) {
        match part {
            Ok(_) => {}
            Err(Cut) => return false,
        }
    }
    true
}

// Whether some part of the list has this type and selector.
pub fn contains(form: ListForm, list: &[u8], t: u16, selector: u64) -> bool
    ensures { result ≡ among t selector (parts_of form list.now) }
{
    for part in read(form, list) {
        let Ok(part) = part else {
            return false;
        };
        if part.is_named(t, selector) {
            return true;
        }
    }
    false
}
