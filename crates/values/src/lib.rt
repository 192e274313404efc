// What a card store sets, SPEC 7.5, and what an accepted list sets, SPEC 5.7.
#![tactic(auto)]

ghost use Rattle.std.specs.Prelude.{◌≡◌, length};
ghost use Rattle.inventory.specs.Inventory.{values_size};
ghost use Rattle.parts.specs.declared.ListForm.TheVariants.{Parts};
ghost use Rattle.parts.specs.List.{parts_of};
ghost use Rattle.values.specs.Apply.{storable, stored, applied};

use inventory::FEATURES_ROW;
use parts::ListForm;
use protocol::EventRefusal;

// Whether a value can be stored. Device features are never set.
pub fn store_answer(queues: u8, t: u16, selector: u64, value: &[u8]) -> Result<(), EventRefusal>
    ensures { result ≡ storable queues t selector value.now }
{
    let Some(i) = inventory::place_of(queues, t, selector) else {
        return Err(EventRefusal::NoPart);
    };
    if i == FEATURES_ROW {
        return Err(EventRefusal::NoPart);
    }
    if value.len() != inventory::size_of(i) {
        return Err(EventRefusal::WrongLength);
    }
    if !inventory::is_value_allowed(t, value) {
        return Err(EventRefusal::BadQueueSize);
    }
    Ok(())
}

// A value, stored where it can be.
pub fn store_part(values: &mut [u8], queues: u8, t: u16, selector: u64, value: &[u8])
    requires { length values.old ≡ values_size }
    ensures { values.new ≡ stored queues t selector value.now values.old }
{
    let Some(i) = inventory::place_of(queues, t, selector) else {
        return;
    };
    if i == FEATURES_ROW {
        return;
    }
    if value.len() != inventory::size_of(i) {
        return;
    }
    wire::copy(values, inventory::offset_of(i), value);
}

// The values of an accepted list, part by part.
pub fn apply(values: &mut [u8], queues: u8, list: &[u8])
    requires { length values.old ≡ values_size }
    ensures { values.new ≡ applied queues (parts_of Parts list.now) values.old }
{
    for part in parts::read(ListForm::Parts, list) {
        let Ok(part) = part else {
            return;
        };
        store_part(values, queues, part.part_type, part.selector, part.value);
    }
}
