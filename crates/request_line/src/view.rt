//! What the passes of a line know, and the moves that change it.

use crate::history::History;
use crossbeam_channel::protocol::{Join, Lesson, Outcome, Protocol, Split};
use std::collections::LinkedList;

/// What a pass knows: nothing yet, a sender's history, or what the receiver has taken and which senders it has closed.
/// A closed sender leaves its pass spent. No value of it is made.
pub enum View<T> {
    First,
    Sends(History<T>),
    Receives(LinkedList<(u64, T)>, LinkedList<History<T>>),
    Spent,
}

/// The rule of a line: each number has one owner, and each sender's number has the items that it posted, in order.
pub struct OneOwner;

impl<T> Protocol<(u64, T), View<T>> for OneOwner {
    ghost use Rattle.request_line.specs.declared.view.View.TheVariants.{First};
    ghost use Rattle.request_line.specs.Spans.{Kept};

    ghost holds = { Kept };

    ghost first = { First };
}

/// The first pass is cut in two: the first sender's and the receiver's.
pub struct Ends;

impl<T> Split<View<T>> for Ends {
    ghost use Rattle.std.specs.Prelude.{[]};
    ghost use Rattle.request_line.specs.declared.view.View.TheVariants.{Sends, Receives};
    ghost use Rattle.request_line.specs.History.{first_history};

    ghost left = { λ _. Sends first_history };

    ghost right = { λ _. Receives [] [] };
}

/// A sender's span is cut in two.
pub struct Halves;

impl<T> Split<View<T>> for Halves {
    ghost use Rattle.request_line.specs.declared.view.View.TheVariants.{Sends};
    ghost use Rattle.request_line.specs.History.{lower_half, upper_half};
    ghost use Rattle.request_line.specs.Spans.{told};

    ghost left = { λ v. Sends (lower_half (told v)) };

    ghost right = { λ v. Sends (upper_half (told v)) };
}

/// A sender posts an item.
pub struct Posts;

impl<T> Outcome<(u64, T), View<T>> for Posts {
    ghost use Rattle.std.specs.Prelude.{◌≡◌};
    ghost use Rattle.request_line.specs.declared.view.View.TheVariants.{Sends};
    ghost use Rattle.request_line.specs.History.{with_post};
    ghost use Rattle.request_line.specs.Spans.{told};

    ghost then = { λ v m w. w ≡ Sends (with_post (told v) m.1) };
}

impl<T> Lesson<(u64, T), View<T>> for Posts {
    ghost use Rattle.std.specs.Prelude.{⊤};

    ghost fact = { λ _ _. ⊤ };
}

/// The receiver takes the oldest item.
pub struct Takes;

impl<T> Outcome<(u64, T), View<T>> for Takes {
    ghost use Rattle.std.specs.Prelude.{◌≡◌, [], ◌∷◌, ◌++◌};
    ghost use Rattle.request_line.specs.declared.view.View.TheVariants.{Receives};
    ghost use Rattle.request_line.specs.Spans.{taken_by, closed_by};

    ghost then = { λ v m w. w ≡ Receives (taken_by v ++ m ∷ []) (closed_by v) };
}

impl<T> Lesson<(u64, T), View<T>> for Takes {
    ghost use Rattle.std.specs.Prelude.{⊤};

    ghost fact = { λ _ _. ⊤ };
}

/// The receiver closes a sender, and learns what the rule says of all that it has closed.
pub struct Closes;

impl<T> Join<View<T>> for Closes {
    ghost use Rattle.std.specs.Prelude.{[], ◌∷◌, ◌++◌};
    ghost use Rattle.request_line.specs.declared.view.View.TheVariants.{Receives, Spent};
    ghost use Rattle.request_line.specs.Spans.{told, taken_by, closed_by};

    ghost both = { λ v w. Receives (taken_by v) (closed_by v ++ told w ∷ []) };

    ghost spent = { Spent };
}

impl<T> Lesson<(u64, T), View<T>> for Closes {
    ghost use Rattle.request_line.specs.Taking.{Agrees};
    ghost use Rattle.request_line.specs.Spans.{taken_by, closed_by};

    ghost fact = { λ v _. Agrees (taken_by v) (closed_by v) };
}
