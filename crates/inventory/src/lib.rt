// The inventory of a member's parts, SPEC 5.2: a constant table, and the place of a part in it.
#![tactic(auto)]

mod rings;

ghost use Rattle.std.specs.Prelude.{◌≡◌, ◌+◌, ◌*◌, ◌^◌, ◌≤◌, ◌<◌, eqb, length};
ghost use Rattle.theory.specs.Logic.{indicator};
ghost use Rattle.theory.specs.Bytes.{put};
ghost use Rattle.inventory.specs.Inventory.{row_at, row_count, device_features, offset_of, present, selector_of, place_of, part_count, parts_size, values_size};
ghost use Rattle.inventory.specs.Worked.{nth_of, field_at};
ghost use Rattle.inventory.specs.Header.{header_of, header_size};
ghost use Rattle.inventory.specs.Queue.{value_allowed, queues_allowed};

// The types of parts. Numbers, since a list may name any type, and step 10 compares them.
pub const DEVICE_FEATURES: u16 = 0x100;

pub const DRIVER_FEATURES: u16 = 0x101;

pub const PCI_COMMON: u16 = 0x102;

pub const DEVICE_STATUS: u16 = 0x103;

pub const QUEUE: u16 = 0x104;

pub const QUEUE_NOTIFY: u16 = 0x105;

// A part's header, SPEC 5.1: type 2 bytes, flags 1, reserved 1, selector 8, length 4.
pub const FLAGS_AT: usize = 2;

pub const SELECTOR_AT: usize = 4;

pub const LENGTH_AT: usize = 12;

pub const HEADER_SIZE: usize = 16;

// The numbers that two bytes can hold, and four.
const TWO_BYTES: u64 = 0x1_0000;

const FOUR_BYTES: u64 = 0x1_0000_0000;

// The most queues that a member has.
const MOST_QUEUES: u8 = 4;

// The table has a row for each part of a member with four queues.
pub const ROWS: usize = 15;

// The first row of each type.
pub const FEATURES_ROW: usize = 0;

const DRIVER_ROW: usize = 1;

const FIRST_FIELD: usize = 2;

const STATUS_ROW: usize = 6;

const FIRST_QUEUE: usize = 7;

const FIRST_NOTIFY: usize = 11;

// A part's type and selector, and where its value stands among a member's values: its size, and the sum of the sizes before it.
#[derive(Clone, Copy)]
pub struct Row {
    pub part_type: u16,
    pub size: u8,
    pub offset: u8,
    pub selector: u32,
}

// A row, written as type, selector, size and offset.
macro_rules! row {
    ($part_type:expr, $selector:expr, $size:expr, $offset:expr) => {
        Row {
            part_type: $part_type,
            size: $size,
            offset: $offset,
            selector: $selector,
        }
    };
}

pub const INVENTORY: [Row; ROWS] = [
    row!(DEVICE_FEATURES, 0, 16, 0),
    row!(DRIVER_FEATURES, 0, 16, 16),
    row!(PCI_COMMON, 0, 4, 32),
    row!(PCI_COMMON, 8, 4, 36),
    row!(PCI_COMMON, 16, 2, 40),
    row!(PCI_COMMON, 22, 2, 42),
    row!(DEVICE_STATUS, 0, 1, 44),
    row!(QUEUE, 0, 32, 45),
    row!(QUEUE, 1, 32, 77),
    row!(QUEUE, 2, 32, 109),
    row!(QUEUE, 3, 32, 141),
    row!(QUEUE_NOTIFY, 0, 8, 173),
    row!(QUEUE_NOTIFY, 1, 8, 181),
    row!(QUEUE_NOTIFY, 2, 8, 189),
    row!(QUEUE_NOTIFY, 3, 8, 197),
];

pub fn size_of(i: usize) -> usize
    requires { i < row_count }
    ensures { result ≡ (row_at i).size }
{
    INVENTORY[i].size as usize
}

pub fn offset_of(i: usize) -> usize
    requires { i < row_count }
    ensures { result ≡ offset_of i }
{
    INVENTORY[i].offset as usize
}

// Of the eight selector bytes those that the type names.
pub fn selector_of(t: u16, s: u64) -> u64
    ensures { result ≡ selector_of t s }
{
    if t == PCI_COMMON {
        return s % FOUR_BYTES;
    }
    if t == QUEUE {
        return s % TWO_BYTES;
    }
    if t == QUEUE_NOTIFY {
        return s % TWO_BYTES;
    }
    0
}

// The row of a type's rows, which stand one after another from the first, by its number among them; none past their count.
fn nth_of(first: usize, count: u8, n: u64) -> Option<usize>
    requires { first < row_count }
    ensures { result ≡ nth_of first count n }
{
    if n < count as u64 {
        return Some(first + n as usize);
    }
    None
}

// The row of a PCI common field, by its offset.
fn field_at(offset: u64) -> Option<usize>
    ensures { result ≡ field_at offset }
{
    match offset {
        0 => Some(FIRST_FIELD),
        8 => Some(FIRST_FIELD + 1),
        16 => Some(FIRST_FIELD + 2),
        22 => Some(FIRST_FIELD + 3),
        _ => None,
    }
}

// The row of a type and selector, if a member with so many queues has that part: worked out, with no search of the tables.
pub fn place_of(queues: u8, t: u16, selector: u64) -> Option<usize>
    ensures { result ≡ place_of queues t selector }
{
    let count = queues.min(MOST_QUEUES);
    match t {
        QUEUE => nth_of(FIRST_QUEUE, count, selector),
        QUEUE_NOTIFY => nth_of(FIRST_NOTIFY, count, selector),
        PCI_COMMON => field_at(selector),
        DEVICE_STATUS => nth_of(STATUS_ROW, 1, selector),
        DRIVER_FEATURES => nth_of(DRIVER_ROW, 1, selector),
        DEVICE_FEATURES => nth_of(FEATURES_ROW, 1, selector),
        _ => None,
    }
}

impl Row {
    // Whether a member with so many queues has the part of this row.
    pub fn is_present(self, queues: u8) -> bool
        ensures { result ≡ present queues self }
    {
        if self.part_type < QUEUE {
            return true;
        }
        self.selector < queues as u32
    }

    // The first eight bytes of its header, as a number: type, flags and selector, which takes no more than four of its bytes.
    fn first_word(self) -> u64
        ensures { result ≡ self.part_type + 2 ^ 16 * (indicator (eqb self.part_type device_features) + 2 ^ 16 * self.selector) }
    {
        let flags = (self.part_type == DEVICE_FEATURES) as u64;
        self.part_type as u64 + TWO_BYTES * (flags + TWO_BYTES * (self.selector as u64))
    }

    // Its header, written at a place: two words, the second first, since the compiler then needs fewer stores.
    pub fn write_header(self, out: &mut [u8], at: usize)
        requires { at + header_size ≤ length out.old }
        ensures { out.new ≡ put at (header_of self) out.old }
    {
        wire::write(out, at + 8, 8, FOUR_BYTES * (self.size as u64));
        wire::write(out, at, 8, self.first_word());
    }
}

// The number of parts that a member with so many queues has.
pub fn part_count(queues: u8) -> u32
    ensures { result ≡ part_count queues }
{
    7 + 2 * (queues as u32)
}

// Their bytes, headers included.
pub fn parts_size(queues: u8) -> u32
    ensures { result ≡ parts_size queues }
{
    157 + 72 * (queues as u32)
}

// ---- queue sizes, SPEC 13.5 ----

// The value of a queue.
const QUEUE_SIZE: usize = 32;

// Whether a part of this type may have this value.
pub fn is_value_allowed(t: u16, value: &[u8]) -> bool
    ensures { result ≡ value_allowed t value.now }
{
    if t != QUEUE {
        return true;
    }
    if value.len() != QUEUE_SIZE {
        return true;
    }
    rings::is_queue_allowed(value, 0)
}

// Whether the values of a member with so many queues have an allowed one for each. If there is no doubt of any of the four,
// which is so but for a size of 0 beside other bytes, it does not matter which of them are there.
pub fn are_queues_allowed(queues: u8, values: &[u8]) -> bool
    requires { length values.now ≡ values_size }
    ensures { result ≡ queues_allowed queues values.now }
{
    if rings::doubts(values) == 0 {
        return true;
    }
    rings::is_each_allowed(queues, values)
}
