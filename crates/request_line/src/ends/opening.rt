//! A new line.

ghost use Rattle.std.specs.Prelude.{◌≡◌, ◌≤◌, ◌<◌, ◌^◌, ◌↔◌, ℕ, [], IfOk};
ghost use Rattle.request_line.specs.History.{first_history, IsInSpan};
ghost use Rattle.request_line.specs.Line.{capacity_of, sender_line, history, receiver_line, taken, closed};

use super::{Receiver, Sender};
use crate::view::{Ends, OneOwner, View};
use crossbeam_channel::bounded_with;
use std::alloc::{AllocError, Global};

/// Makes a line in which up to `capacity` items wait: its first sender, which has all numbers below 2^63, and
/// its receiver.
#[tactic(auto, using(crate::proofs::Steps::begins))]
pub fn open<T: Drop>(alloc: Global, capacity: usize) -> Result<(Sender<T>, Receiver<T>), AllocError>
    requires holds_one { 1 ≤ capacity }
    requires limit { capacity ≤ 1024 }
    ensures capacity { IfOk result (λ ends. capacity_of (sender_line ends.0) ≡ capacity) }
    ensures history { IfOk result (λ ends. history ends.0 ≡ first_history) }
    ensures span { IfOk result (λ ends. (p : ℕ) → IsInSpan (history ends.0) p ↔ (p < 2 ^ 63)) }
    ensures taken { IfOk result (λ ends. taken ends.1 ≡ []) }
    ensures closed { IfOk result (λ ends. closed ends.1 ≡ []) }
    ensures line { IfOk result (λ ends. receiver_line ends.1 ≡ sender_line ends.0) }
{
    let (posting, taking, mut pass) = bounded_with::<(u64, T), View<T>, OneOwner, Global>(
        alloc, capacity,
    )?;
    let joining = posting.try_clone()?;
    let receiving = joining.another::<Ends>(&mut pass);
    let sender = Sender {
        posting,
        pass,
        number: 0,
        room: 63,
    };
    let receiver = Receiver {
        taking,
        joining,
        pass: receiving,
    };
    Ok((sender, receiver))
}
