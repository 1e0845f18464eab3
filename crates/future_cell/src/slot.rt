//! What is in a slot that the rule says the content of.
ghost use Rattle.std.specs.Prelude.{◌≡◌, None, Some};
ghost use Rattle.future_cell.specs.declared.stage.Item.TheVariants.{Value, Callback};

use crate::stage::Item;

/// Asserts that nothing is in the slot.
pub fn expect_empty<V, C>(item: Option<Item<V, C>>)
    requires { item ≡ None }
{
    match item {
        None => {}
        Some(_) => unreachable!(),
    }
}

/// Returns the value in the slot.
pub fn value_of<V, C>(item: Option<Item<V, C>>) -> V
    requires { (v : V) × (item ≡ Some (Value v)) }
    ensures { item ≡ Some (Value result) }
{
    match item {
        Some(Item::Value(value)) => value,
        _ => unreachable!(),
    }
}

/// Returns the callback in the slot.
pub fn callback_of<V, C>(item: Option<Item<V, C>>) -> C
    requires { (c : C) × (item ≡ Some (Callback c)) }
    ensures { item ≡ Some (Callback result) }
{
    match item {
        Some(Item::Callback(callback)) => callback,
        _ => unreachable!(),
    }
}

/// Puts a value, if there is one, where there was none.
pub fn refill<V>(place: &mut Option<V>, value: Option<V>)
    requires { place.old ≡ None }
    ensures { place.new ≡ value }
{
    match std::mem::replace(place, value) {
        None => {}
        Some(_) => unreachable!(),
    }
}
