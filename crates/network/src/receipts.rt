//! The receipts of the replies that were set.

ghost use Rattle.std.specs.Prelude.{◌≡◌};

use fdb_calls::Reply;
use future_cell::{Receipt, Wake};
use std::alloc::Global;
use std::iter::IntoIterator;
use std::marker::Model;
use std::vec::IntoIter;

/// Receipts, in the order in which their replies were set. A loop over them takes each by value. Contracts see the list.
#[derive(Drop)]
pub struct Receipts {
    items: Vec<Receipt<Reply, Wake>>,
}

impl Model for Receipts {
    ghost use Rattle.std.specs.Prelude.{List};
    ghost use Rattle.fdb_calls.specs.declared.Reply.{Reply};
    ghost use Rattle.future_cell.specs.declared.setter.Receipt.{Receipt};
    ghost use Rattle.future_cell.specs.declared.wake.Wake.{Wake};

    ghost Value = { List (Receipt Reply Wake) };

    ghost view = { λ receipts. receipts.items.items };
}

impl Receipts {
    /// These receipts, in this order.
    pub(crate) fn of(items: Vec<Receipt<Reply, Wake>>) -> Receipts
        ensures { result ≡ items.items }
    {
        Receipts { items }
    }
}

impl IntoIterator for Receipts {
    ghost use Rattle.std.specs.Prelude.{◌≡◌, length, ◌<◌, ◌^◌};
    ghost use Rattle.std.specs.Vec.Iter.{into_iter_items, into_iter_len, into_iter_steps};
    ghost use Rattle.std.specs.declared.alloc.Global.{Global};
    ghost use Rattle.fdb_calls.specs.declared.Reply.{Reply};
    ghost use Rattle.future_cell.specs.declared.setter.Receipt.{Receipt};
    ghost use Rattle.future_cell.specs.declared.wake.Wake.{Wake};
    ghost use Rattle.std.specs.Iterator.Runs.{EveryRun, ItemsAre};

    type Item = Receipt<Reply, Wake>;

    type IntoIter = IntoIter<Receipt<Reply, Wake>>;

    ghost into_iter_gives = { λ receipts iter. (into_iter_items iter ≡ receipts) × (into_iter_len iter ≡ length receipts) × (into_iter_len iter < 2 ^ 64)
        × EveryRun (into_iter_steps {X = Receipt Reply Wake} {Z = Global}) (λ p. ItemsAre p (into_iter_items p.from)) };

    /// Returns an iterator over the receipts in order, each by value.
    fn into_iter(self) -> IntoIter<Receipt<Reply, Wake>> {
        self.items.into_iter()
    }
}
