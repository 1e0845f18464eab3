//! The rule of a cell's table, and what each step on it tells.
ghost use Rattle.future_cell.specs.Rule.{Ruled};
ghost use Rattle.future_cell.specs.Plays.{setter_in, waiter_in, value_in_hand, callback_in_hand, Reached, PublishedIn, HasFinished, Looked, Kept, Reserved, ParkedIn, Restored, Emptied, Closed, setter_part, waiter_part, meeting};
ghost use Rattle.future_cell.specs.declared.stage.View.TheVariants.{Unsplit, Over, Spent};

use crate::stage::{Item, View};
use atomic_table::{Join, Play, Seat, Split, Table, TableRule};
use std::alloc::Global;

/// The table of a cell. Its word is 0 while it is empty, 1 once a callback is parked, and 2 once the value is there.
pub type Cell<V, C> = Table<Option<Item<V, C>>, View<V, C>, (), Law, Global>;

/// A seat at the table of a cell.
pub type CellSeat<V, C> = Seat<Option<Item<V, C>>, View<V, C>>;

/// The rule of a cell's table (`specs/Rule.antt`).
pub struct Law;

impl<V, C> TableRule<Option<Item<V, C>>, View<V, C>, ()> for Law {
    ghost holds = { λ _. Ruled };

    ghost first = { λ _. Unsplit };
}

/// The setter takes slot 0.
pub struct Reach;

impl<V, C> Play<Option<Item<V, C>>, View<V, C>> for Reach {
    ghost then = { λ _ _ _ after. Reached after };
}

/// The word becomes 2.
pub struct Publish;

impl<V, C> Play<Option<Item<V, C>>, View<V, C>> for Publish {
    ghost then = { λ _ before found after. PublishedIn (value_in_hand before.1) found after };
}

/// The setter gives slot 1 back.
pub struct Finish;

impl<V, C> Play<Option<Item<V, C>>, View<V, C>> for Finish {
    ghost then = { λ _ before _ after. HasFinished (setter_in before.0) after };
}

/// The waiter looks whether the value is there.
pub struct Look;

impl<V, C> Play<Option<Item<V, C>>, View<V, C>> for Look {
    ghost then = { λ _ before found after. Looked (waiter_in before.0) found after };
}

/// The waiter gives slot 0 back.
pub struct Keep;

impl<V, C> Play<Option<Item<V, C>>, View<V, C>> for Keep {
    ghost then = { λ _ before _ after. Kept (waiter_in before.0) after };
}

/// The waiter takes slot 1.
pub struct Reserve;

impl<V, C> Play<Option<Item<V, C>>, View<V, C>> for Reserve {
    ghost then = { λ _ before _ after. Reserved (waiter_in before.0) after };
}

/// The word becomes 1, if it is 0.
pub struct Park;

impl<V, C> Play<Option<Item<V, C>>, View<V, C>> for Park {
    ghost then = { λ _ before found after. ParkedIn (callback_in_hand before.1) (waiter_in before.0) found after };
}

/// The waiter gives slot 1 back.
pub struct Restore;

impl<V, C> Play<Option<Item<V, C>>, View<V, C>> for Restore {
    ghost then = { λ _ before _ after. Restored (waiter_in before.0) after };
}

/// The joined seat takes the value out.
pub struct Empty;

impl<V, C> Play<Option<Item<V, C>>, View<V, C>> for Empty {
    ghost then = { λ _ before _ after. Emptied (setter_in before.0) (waiter_in before.0) after };
}

/// The joined seat leaves both slots empty.
pub struct Close;

impl<V, C> Play<Option<Item<V, C>>, View<V, C>> for Close {
    ghost then = { λ _ before _ after. Closed (setter_in before.0) (waiter_in before.0) after };
}

/// The one seat of a new table becomes the setter's and the waiter's.
pub struct Part;

impl<V, C> Split<View<V, C>> for Part {
    ghost left = { setter_part };

    ghost right = { waiter_part };
}

/// The setter's seat takes the waiter's in.
pub struct Meet;

impl<V, C> Join<View<V, C>> for Meet {
    ghost both = { meeting };

    ghost spent = { Spent };
}

/// A further seat at a table whose slots are empty for good.
pub struct Double;

impl<V, C> Split<View<V, C>> for Double {
    ghost left = { λ _. Over };

    ghost right = { λ _. Over };
}
