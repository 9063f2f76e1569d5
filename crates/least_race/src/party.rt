//! What is offered, and what a seat knows.
use std::collections::LinkedList;

/// A rank for a word. The lesser rank wins.
#[derive(Clone, Copy, Debug, PartialEq, Eq)]
pub struct Offer {
    /// The word's place, from 0.
    pub word: u32,
    pub rank: u64,
}

/// What contracts say of a seat. No value of it is ever made.
pub struct Party {
    /// How many seats of width 1 it can still be split into.
    pub width: u64,
    /// The numbers of the jobs that it drew, in order.
    pub claims: LinkedList<u64>,
    /// How many numbers it drew that are no job's.
    pub passes: u64,
    /// The number that it drew last, a job's or not, and 0 before its first draw.
    pub last: u64,
    /// Whether it may draw no more.
    pub ended: bool,
    /// The offers that it made, in order.
    pub proposals: LinkedList<Offer>,
    /// What stood in the word of its last offer before, and 0 at first.
    pub find: u64,
    /// The race's count of jobs.
    pub jobs: u64,
    /// The race's words at the start.
    pub base: LinkedList<u64>,
}
