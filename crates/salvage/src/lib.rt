// A damaged list of parts made into one that step 10 passes, with a report: 02, request 8.
#![tactic(auto)]

ghost use Rattle.std.specs.Prelude.{◌≡◌, ◌≤◌, length};
ghost use Rattle.theory.specs.Bytes.{put};
ghost use Rattle.parts.specs.List.{part_with, longest_list};
ghost use Rattle.setups.specs.Member.{member_setup};
ghost use Rattle.salvage.specs.Salvage.{value_right, salvage, salvaged, is_taken, salvage_of, salvage_under};
ghost use Rattle.salvage.specs.Walk.{counted, state, taken, Sized, Countable, Walked, Begins, flags_of, KeptFits, Fits};

use inventory::{DEVICE_FEATURES, HEADER_SIZE, INVENTORY, ROWS};
use member::{FEATURES_SIZE, VALUES_SIZE};
use parts::{LONGEST_LIST, ListForm};

// The causes for which parts are dropped, by their place in the report. Numbers, since they index what C lends.
const UNKNOWN: usize = 0;

const COPY: usize = 1;

const WRONG_SIZE: usize = 2;

const WRONG_VALUE: usize = 3;

const CAUSES: usize = 4;

// Whether a known part's value is right: a queue's size is one that a ring has, and device features are those given.
fn is_value_right(features: &[u8], t: u16, value: &[u8]) -> bool
    ensures { result ≡ value_right features.now (part_with t 0 0 value.now) }
{
    if !inventory::is_value_allowed(t, value) {
        return false;
    }
    if t != DEVICE_FEATURES {
        return true;
    }
    wire::equal(value, features)
}

// One more part is dropped for a cause.
fn count(dropped: &mut [u32], cause: usize)
    requires { Countable dropped.old cause }
    ensures { dropped.new ≡ counted dropped.old cause }
{
    dropped[cause] += 1;
}

// The next part: it is kept, or dropped for the first cause that applies. Its flags are not read.
fn take_part(
    values: &mut [u8],
    kept: &mut [u8],
    dropped: &mut [u32],
    queues: u8,
    features: &[u8],
    t: u16,
    selector: u64,
    value: &[u8],
)
    requires { Sized longest_list (state values.old kept.old dropped.old) }
    ensures { state values.new kept.new dropped.new ≡ taken queues features.now (part_with t 0 selector value.now) (state values.old kept.old dropped.old) }
{
    let Some(i) = inventory::place_of(queues, t, selector) else {
        count(dropped, UNKNOWN);
        return;
    };
    if kept[i] != 0 {
        count(dropped, COPY);
        return;
    }
    if value.len() != inventory::size_of(i) {
        count(dropped, WRONG_SIZE);
        return;
    }
    if !is_value_right(features, t, value) {
        count(dropped, WRONG_VALUE);
        return;
    }
    kept[i] = 1;
    wire::copy(values, inventory::offset_of(i), value);
}

// All parts of a damaged list, up to its end or a part that is cut. Returns where it stopped.
fn read_parts(
    values: &mut [u8],
    kept: &mut [u8],
    dropped: &mut [u32],
    queues: u8,
    features: &[u8],
    damaged: &[u8],
) -> usize
    requires { Begins (state values.old kept.old dropped.old) damaged.now }
    ensures { Walked queues features.now damaged.now (state values.old kept.old dropped.old) (state values.new kept.new dropped.new) result }
{
    let mut stop = 0;
    for part in parts::read(ListForm::Parts, damaged) {
        let Ok(part) = part else {
            return stop;
        };
        take_part(
            values,
            kept,
            dropped,
            queues,
            features,
            part.part_type,
            part.selector,
            part.value,
        );
        stop += HEADER_SIZE + part.value.len();
    }
    stop
}

// For every part of the inventory 1 if its row is kept, else 0. By index, since the rows and what is kept are two lists: of a zip
// an invariant has only what was yielded. The table is bound outside the loop, which would make it anew at each turn.
fn write_kept(out: &mut [u8], rows: &[u8], queues: u8)
    requires { KeptFits queues rows.now out.old }
    ensures { out.new ≡ put 0 (flags_of queues rows.now) out.old }
{
    let table = INVENTORY;
    let mut at = 0;
    for i in 0..ROWS {
        if table[i].is_present(queues) {
            out[at] = (rows[i] != 0) as u8;
            at += 1;
        }
    }
}

// The counts of the report, at the front of what is lent.
fn write_counts(out: &mut [u32], counts: [u32; CAUSES])
    requires { 4 ≤ length out.old }
    ensures { out.new ≡ put 0 counts out.old }
{
    out[UNKNOWN] = counts[UNKNOWN];
    out[COPY] = counts[COPY];
    out[WRONG_SIZE] = counts[WRONG_SIZE];
    out[WRONG_VALUE] = counts[WRONG_VALUE];
}

// The list and the report, of a list that is not refused. The values start as those of a fresh member.
fn repair(
    queues: u8,
    features: &[u8],
    damaged: &[u8],
    list: &mut [u8],
    kept: &mut [u8],
    dropped: &mut [u32],
    left: &mut u32,
) -> usize
    requires { Fits queues features.now damaged.now list.old kept.old dropped.old }
    ensures { salvage result list.new kept.new dropped.new left.new ≡ salvaged queues features.now damaged.now (salvage 0 list.old kept.old dropped.old left.old) }
{
    let mut values = [0u8; VALUES_SIZE];
    wire::copy(&mut values, 0, features);
    let mut rows = [0u8; ROWS];
    let mut counts = [0u32; CAUSES];
    let stop = read_parts(
        &mut values,
        &mut rows,
        &mut counts,
        queues,
        features,
        damaged,
    );
    capture::write_all(list, &values, queues);
    write_kept(kept, &rows, queues);
    write_counts(dropped, counts);
    *left = (damaged.len() - stop) as u32;
    inventory::parts_size(queues) as usize
}

// Whether a call is not refused, by the lengths of what is lent. No branch.
fn is_taken(
    queues: u8,
    features: usize,
    damaged: usize,
    list: usize,
    kept: usize,
    dropped: usize,
) -> bool
    ensures { result ≡ is_taken queues features damaged list kept dropped }
{
    let size = inventory::parts_size(queues) as usize;
    let count = inventory::part_count(queues) as usize;
    (1 <= queues)
        & (queues <= 4)
        & (features == FEATURES_SIZE)
        & (damaged <= LONGEST_LIST)
        & (size <= list)
        & (count <= kept)
        & (CAUSES <= dropped)
}

// The list that step 10 passes, and the report, of a damaged list for a member with so many queues and these device features:
// the bytes written, or 0 where it is refused.
fn salvage_in(
    queues: u8,
    features: &[u8],
    damaged: &[u8],
    list: &mut [u8],
    kept: &mut [u8],
    dropped: &mut [u32],
    left: &mut u32,
) -> usize
    ensures { salvage result list.new kept.new dropped.new left.new ≡ salvage_of queues features.now damaged.now (salvage 0 list.old kept.old dropped.old left.old) }
{
    if !is_taken(
        queues,
        features.len(),
        damaged.len(),
        list.len(),
        kept.len(),
        dropped.len(),
    ) {
        return 0;
    }
    repair(queues, features, damaged, list, kept, dropped, left)
}

// The same under a packed setup, for one member of it.
pub fn salvage(
    setup: &[u8],
    member: u64,
    damaged: &[u8],
    list: &mut [u8],
    kept: &mut [u8],
    dropped: &mut [u32],
    left: &mut u32,
) -> usize
    ensures { salvage result list.new kept.new dropped.new left.new ≡ salvage_under (member_setup setup.now member) damaged.now (salvage 0 list.old kept.old dropped.old left.old) }
{
    match setups::member_setup(setup, member) {
        Some(m) => {
            let features = m.features;
            salvage_in(m.queues, &features, damaged, list, kept, dropped, left)
        }
        None => 0,
    }
}
