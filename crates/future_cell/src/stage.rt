//! What a slot of a cell's table holds, and what each seat at the table knows.

/// What a slot holds. Slot 0 is for the value, slot 1 for the callback.
#[derive(Drop)]
pub enum Item<V, C> {
    Value(V),
    Callback(C),
}

/// How far the setter is. No value of it is made.
pub enum SetterStage<V> {
    Unset,
    /// It holds slot 0.
    Filling,
    /// The value is out, and it holds slot 1, with the callback.
    Running(V),
    /// The value is out. Whether it ran a callback.
    Finished(V, bool),
}

/// What the waiter has of the value. No value of it is made.
pub enum Known<V> {
    Unseen,
    /// It holds slot 0.
    Taking(V),
    Taken(V),
}

/// How far the callback is. No value of it is made.
pub enum CallbackStage<C> {
    Unregistered,
    /// The waiter holds slot 1.
    Laying,
    /// It was parked, in slot 1.
    Lies(C),
    /// The value was there, and the waiter holds slot 1.
    Refused,
    /// The value was there, and the waiter has it back.
    Returned,
}

/// What the waiter knows. No value of it is made.
pub struct WaiterStage<V, C> {
    pub known: Known<V>,
    pub callback: CallbackStage<C>,
    /// How often it looked at the word.
    pub looks: u64,
    /// The word that it found last.
    pub found: u64,
}

/// What a seat knows. No value of it is made.
pub enum View<V, C> {
    Unsplit,
    Sets(SetterStage<V>),
    Waits(WaiterStage<V, C>),
    Meets(SetterStage<V>, WaiterStage<V, C>),
    /// Both slots are empty for good.
    Over,
    Spent,
}
