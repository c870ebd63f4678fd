//! What the owner and the thieves of a deck know, for the proofs alone: no value of these types is
//! made.
use crate::job::Job;
use std::collections::LinkedList;

/// What one thief took, once it has been taken in.
pub struct Hand {
    pub number: u64,
    pub stolen: LinkedList<Job>,
}

/// What one party of a deck knows. The owner is the party 0.
pub struct View {
    /// Whether it is a thief.
    pub steals: bool,
    /// Of the owner: the jobs that it put, in order.
    pub put: LinkedList<Job>,
    /// Of the owner: the jobs that it took, in order.
    pub owned: LinkedList<Job>,
    /// Of the owner: the jobs that it put and didn't take, in the order in which it put them.
    pub stack: LinkedList<Job>,
    /// Of the owner: how many thieves it made.
    pub thieves: u64,
    /// Of the owner: how many of its thieves haven't been taken in.
    pub out: u64,
    /// Of the owner: what each thief took that was taken in, the last one first.
    pub hands: LinkedList<Hand>,
    /// Of a thief: which one it is.
    pub number: u64,
    /// Of a thief: the jobs that it took, in order.
    pub stolen: LinkedList<Job>,
}
