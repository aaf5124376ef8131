// How a side is kept, so that one caller at a time has it in hand.

use crate::steps::Locked;
use managed_heap::ManagedSide;
use order_table::OrderName;
use peer_heap::PeerSide;
use std::cell::{RefCell, RefMut};
use std::sync::{Mutex, MutexGuard, Wait};
use std::thread::yield_now;

/// Keeps a value, which one caller at a time has in hand.
pub trait Keep<T>: Drop {
    /// Keeps that value.
    fn of(value: T) -> Self;

    /// Gives the value back.
    fn into_value(self) -> T;

    /// The value in hand, until what is answered is dropped. It waits while somebody else has it.
    fn hold<'a, R: Wait>(&'a self, rt: &R) -> InHand<'a, T>;
}

/// A value in hand.
#[derive(Drop)]
pub enum InHand<'a, T> {
    Locked(MutexGuard<'a, T>),
    Borrowed(RefMut<'a, T>),
}

impl<'a, T> InHand<'a, T> {
    /// The value.
    #[inline(always)]
    pub(crate) fn value(&mut self) -> &mut T {
        match self {
            InHand::Locked(guard) => &mut **guard,
            InHand::Borrowed(inside) => &mut **inside,
        }
    }
}

impl<T: Drop> Keep<T> for Mutex<T> {
    fn of(value: T) -> Mutex<T> {
        Mutex::new(value)
    }

    fn into_value(self) -> T {
        self.into_inner()
    }

    // A free lock is taken right here, and only one that is held is waited for by a call.
    #[inline(always)]
    fn hold<'a, R: Wait>(&'a self, rt: &R) -> InHand<'a, T> {
        match self.try_lock() {
            Some(guard) => InHand::Locked(guard),
            None => InHand::Locked(self.lock(rt)),
        }
    }
}

impl<T: Drop> Keep<T> for RefCell<T> {
    fn of(value: T) -> RefCell<T> {
        RefCell::new(value)
    }

    fn into_value(self) -> T {
        self.into_inner()
    }

    // A thread that has the cell alone, and the value not in hand, finds it free at once.
    #[inline(always)]
    fn hold<'a, R: Wait>(&'a self, rt: &R) -> InHand<'a, T> {
        match self.try_borrow_mut() {
            Ok(inside) => InHand::Borrowed(inside),
            Err(_) => InHand::Borrowed(wait_for(self, rt)),
        }
    }
}

// What is in a cell, once nobody has it in hand. It is a call, since a thread that has the cell alone never comes here.
#[inline(never)]
fn wait_for<'a, T, R: Wait>(cell: &'a RefCell<T>, rt: &R) -> RefMut<'a, T> {
    for _ in rt.forever() {
        if let Ok(inside) = cell.try_borrow_mut() {
            return inside;
        }
    }
    unreachable!()
}

/// How both sides of a run are kept.
pub trait Keeps<N: OrderName> {
    type Managed: Keep<Locked<N, ManagedSide>>;

    type Peers: Keep<Locked<N, PeerSide>>;

    /// Lets other threads go on between two holds, where there are some.
    fn give_way();
}

/// Behind locks, for threads that share the sides.
pub struct Locks;

impl<N: OrderName> Keeps<N> for Locks {
    type Managed = Mutex<Locked<N, ManagedSide>>;

    type Peers = Mutex<Locked<N, PeerSide>>;

    fn give_way() {
        yield_now();
    }
}

/// In cells, for one thread that has the sides alone: it pays for no lock.
pub struct Alone;

impl<N: OrderName> Keeps<N> for Alone {
    type Managed = RefCell<Locked<N, ManagedSide>>;

    type Peers = RefCell<Locked<N, PeerSide>>;

    // Nobody else has anything to go on with, and a yield is a call of the system.
    fn give_way() {}
}
