//! What contracts see of a sender.

use std::collections::LinkedList;

/// What contracts see of a sender: its number, how many more splits there is room for, what it posted, the number of the
/// sender that it was split from, and what that one had posted by then. No value of it is made.
pub struct History<T> {
    pub number: u64,
    pub room: u32,
    pub posted: LinkedList<T>,
    pub maker: u64,
    pub posted_before: LinkedList<T>,
}
