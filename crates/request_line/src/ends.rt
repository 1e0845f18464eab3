//! The two ends of a line.

ghost use Rattle.std.specs.Prelude.{◌≡◌, ◌≤◌, ◌^◌, ◌+◌};
ghost use Rattle.crossbeam_channel.specs.Ends.{sends_on, receives_on};
ghost use Rattle.crossbeam_channel.specs.Claims.{view, IsSeatAt};
ghost use Rattle.request_line.specs.declared.view.View.TheVariants.{Sends, Receives};
ghost use Rattle.request_line.specs.Spans.{told, taken_by, closed_by};

use crate::view::{Closes, Halves, OneOwner, Posts, Takes, View};
use crossbeam_channel::{Pass, RecvError, RuledReceiver, RuledSender, TryRecvError};
use std::alloc::AllocError;
use std::sync::Wait;
use std::{hint, thread};

mod opening;

pub use opening::open;

/// How often a receiver looks for an item before it sleeps.
const LOOKS: u32 = 170;

/// After how many of these looks it only pauses. After the others it lets other threads run.
const SHORT_LOOKS: u32 = 130;

type Posting<T> = RuledSender<(u64, T), View<T>, OneOwner>;

type Taking<T> = RuledReceiver<(u64, T), View<T>, OneOwner>;

type LinePass<T> = Pass<(u64, T), View<T>>;

/// A sender of a line. Contracts see its line and its history.
#[derive(Drop)]
pub struct Sender<T: Drop> {
    posting: Posting<T>,
    pass: LinePass<T>,
    number: u64,
    room: u32,
    ghost seated: { IsSeatAt (sends_on posting) pass },
    ghost known: { view pass ≡ Sends (record (told (view pass)) { number = number; room = room }) },
    ghost within: { number + 2 ^ room ≤ 2 ^ 63 },
    ghost shiftable: { room ≤ 63 },
}

/// The receiver of a line. Contracts see its line, the items that it has taken, each with its sender's number, and the
/// senders that it has closed.
#[derive(Drop)]
pub struct Receiver<T: Drop> {
    taking: Taking<T>,
    joining: Posting<T>,
    pass: LinePass<T>,
    ghost one_line: { receives_on taking ≡ sends_on joining },
    ghost seated: { IsSeatAt (sends_on joining) pass },
    ghost known: { view pass ≡ Receives (taken_by (view pass)) (closed_by (view pass)) },
}

impl<T: Drop> Sender<T> {
    ghost use Rattle.std.specs.Prelude.{◌≡◌, ◌≤◌, IfOk, OnErr, MatchResult};
    ghost use Rattle.request_line.specs.History.{with_post, lower_half, upper_half, AreTogether, AreApart};
    ghost use Rattle.request_line.specs.Line.{sender_line, history};

    /// Returns the number of this sender, by which `Receiver::take` names it.
    pub fn number(&self) -> u64
        ensures { result ≡ (history self.now).number }
    {
        self.number
    }

    /// Returns how many more times this sender can be split, one after another.
    pub fn room(&self) -> u32
        ensures { result ≡ (history self.now).room }
    {
        self.room
    }

    /// Makes a further sender of the line. It has the upper half of this one's span of numbers, so a number that no other sender
    /// of the line has, and it knows all that this one had posted. After a refusal this sender is as before.
    pub fn split(&mut self) -> Result<Sender<T>, AllocError>
        requires { 1 ≤ (history self.old).room }
        ensures made { IfOk result (λ made. history made ≡ upper_half (history self.old)) }
        ensures kept { IfOk result (λ _. history self.new ≡ lower_half (history self.old)) }
        ensures together { IfOk result (λ made. AreTogether (history self.new) (history made) (history self.old)) }
        ensures apart { IfOk result (λ made. AreApart (history self.new) (history made)) }
        ensures err { OnErr result (history self.new ≡ history self.old) }
        ensures made_line { IfOk result (λ made. sender_line made ≡ sender_line self.old) }
        ensures line { sender_line self.new ≡ sender_line self.old }
    {
        let posting = self.posting.try_clone()?;
        let pass = self.posting.another::<Halves>(&mut self.pass);
        self.room -= 1;
        Ok(Sender {
            posting,
            pass,
            number: self.number + (1 << self.room),
            room: self.room,
        })
    }

    /// Posts an item, at the end of the line. It waits while the line is full, and for ever once the receiver
    /// is gone.
    pub fn post<R: Wait>(&mut self, rt: &R, mut item: T)
        ensures history { history self.new ≡ with_post (history self.old) item }
        ensures line { sender_line self.new ≡ sender_line self.old }
    {
        for _ in rt.forever() {
            match self.try_post(rt, item) {
                Ok(()) => return,
                Err(back) => item = back,
            }
            thread::yield_now();
        }
        unreachable!()
    }

    // Gives the item back, and changes nothing, if the channel says that its receiver has left.
    fn try_post<R: Wait>(&mut self, rt: &R, item: T) -> Result<(), T>
        ensures history { MatchResult result (λ _. history self.new ≡ with_post (history self.old) item)
            (λ back. (back ≡ item) × (history self.new ≡ history self.old)) }
        ensures line { sender_line self.new ≡ sender_line self.old }
    {
        match self
            .posting
            .send_as::<Posts, R>(rt, &mut self.pass, (self.number, item))
        {
            Ok(()) => Ok(()),
            Err(e) => Err(e.into_inner().1),
        }
    }
}

impl<T: Drop> Receiver<T> {
    ghost use Rattle.std.specs.Prelude.{◌≡◌, ◌∷◌, [], ◌++◌, MatchResult};
    ghost use Rattle.std.specs.List.{All};
    ghost use Rattle.request_line.specs.History.{CoverAllNumbers, AreAllApart};
    ghost use Rattle.request_line.specs.Taking.{TakesInOrder, TakesAllWhereAsMany, TakesAfterSplit, IsOfThese, Agrees};
    ghost use Rattle.request_line.specs.Line.{sender_line, history, receiver_line, taken, closed};

    /// Takes the item at the front of the line, with its sender's number. While there is none it looks again
    /// for a while, and then sleeps.
    pub fn take<R: Wait>(&mut self, rt: &R) -> (u64, T)
        ensures taken { taken self.new ≡ taken self.old ++ result ∷ [] }
        ensures closed { closed self.new ≡ closed self.old }
        ensures line { receiver_line self.new ≡ receiver_line self.old }
    {
        for _ in rt.forever() {
            if let Ok(mail) = self.watch(rt) {
                return mail;
            }
            if let Ok(mail) = self.wait(rt) {
                return mail;
            }
        }
        unreachable!()
    }

    // Looks for an item until one is there or the thread had better sleep. Then it takes nothing, and changes nothing.
    fn watch<R: Wait>(&mut self, rt: &R) -> Result<(u64, T), TryRecvError>
        ensures taken { MatchResult result (λ mail. taken self.new ≡ taken self.old ++ mail ∷ [])
            (λ _. taken self.new ≡ taken self.old) }
        ensures closed { closed self.new ≡ closed self.old }
        ensures line { receiver_line self.new ≡ receiver_line self.old }
    {
        for looks in 0..LOOKS {
            if let Ok(mail) = self.look(rt) {
                return Ok(mail);
            }
            if looks < SHORT_LOOKS {
                hint::spin_loop();
            } else {
                thread::yield_now();
            }
        }
        Err(TryRecvError::Empty)
    }

    // Takes nothing, and changes nothing, if none is there.
    fn look<R: Wait>(&mut self, rt: &R) -> Result<(u64, T), TryRecvError>
        ensures taken { MatchResult result (λ mail. taken self.new ≡ taken self.old ++ mail ∷ [])
            (λ _. taken self.new ≡ taken self.old) }
        ensures closed { closed self.new ≡ closed self.old }
        ensures line { receiver_line self.new ≡ receiver_line self.old }
    {
        self.taking.try_recv_as::<Takes, R>(rt, &mut self.pass)
    }

    // Sleeps until one is there. It takes nothing, and changes nothing, if the channel says that its senders have left.
    fn wait<R: Wait>(&mut self, rt: &R) -> Result<(u64, T), RecvError>
        ensures taken { MatchResult result (λ mail. taken self.new ≡ taken self.old ++ mail ∷ [])
            (λ _. taken self.new ≡ taken self.old) }
        ensures closed { closed self.new ≡ closed self.old }
        ensures line { receiver_line self.new ≡ receiver_line self.old }
    {
        self.taking.recv_as::<Takes, R>(rt, &mut self.pass)
    }

    /// Closes a sender of this receiver's line, and tells what was taken of it and of each sender closed
    /// before.
    pub fn close_with(&mut self, sender: Sender<T>)
        requires { sender_line sender ≡ receiver_line self.old }
        ensures closed { closed self.new ≡ closed self.old ++ history sender ∷ [] }
        ensures taken { taken self.new ≡ taken self.old }
        ensures line { receiver_line self.new ≡ receiver_line self.old }

        // Of each sender closed so far, this one included:
        ensures in_order { All (TakesInOrder (taken self.new)) (closed self.new) }
        ensures all_where_as_many { All (TakesAllWhereAsMany (taken self.new)) (closed self.new) }
        ensures after_split { All (TakesAfterSplit (taken self.new)) (closed self.new) }

        // Of all of them together:
        ensures of_these { CoverAllNumbers (closed self.new) → IsOfThese (taken self.new) (closed self.new) }
        ensures apart { AreAllApart (closed self.new) }
    {
        let Sender {
            posting: _,
            pass,
            number: _,
            room: _,
        } = sender;
        self.joining.absorb::<Closes>(&mut self.pass, pass);
        self.learn();
    }

    // What the rule says of the senders closed so far.
    fn learn(&mut self)
        ensures agrees { Agrees (taken self.new) (closed self.new) }
        ensures taken { taken self.new ≡ taken self.old }
        ensures closed { closed self.new ≡ closed self.old }
        ensures line { receiver_line self.new ≡ receiver_line self.old }
    {
        self.joining.learn_as::<Closes>(&mut self.pass);
    }
}
