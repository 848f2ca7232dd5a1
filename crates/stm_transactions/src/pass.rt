//! A seat with a thread's number.

use crate::descriptor::Descriptor;
use crate::pass_numbers::PassNumbers;
use atomic_table::Badge;
use core_table::event_table::Seat;
use core_table::known::Known;
use std::marker::Model;
use std::mem;

/// A seat with a thread's number, and the lists of its transactions. While a transaction is open both are out, and nothing is
/// known.
#[derive(Drop)]
pub struct Pass<X> {
    badge: Badge<Known<X>>,
    numbers: PassNumbers,
    descriptor: Option<Box<Descriptor>>,
}

impl<X> Model for Pass<X> {
    ghost use Rattle.stm_transactions.specs.Passes.{PassSight};

    ghost Value = { PassSight X };

    ghost use Rattle.stm_transactions.specs.Descriptor.{AreWithSeat};

    ghost view = { λ p. record { table = p.badge.table_id; known = p.badge.views; numbers = p.numbers } };

    ghost invariant = { λ p. AreWithSeat p.badge.views p.descriptor };
}

impl<X> Pass<X> {
    ghost use Rattle.std.specs.Prelude.{◌≡◌, []};
    ghost use Rattle.stm_transactions.specs.Passes.{GivesSeat, HasSeat, is_given};

    /// A pass of this seat, with these lists and numbers.
    pub fn of_seat<S>(
        seat: Seat<S, X>,
        descriptor: Box<Descriptor>,
        numbers: PassNumbers,
    ) -> Pass<X>
        requires slots { seat.me.1 ≡ [] }
        ensures { result ≡ is_given seat numbers }
    {
        Pass {
            badge: seat.into_badge(),
            numbers,
            descriptor: Some(descriptor),
        }
    }

    /// Takes the seat out, with the lists.
    pub fn take_seat<S>(&mut self) -> (Seat<S, X>, Box<Descriptor>)
        requires seat { HasSeat self.old }
        ensures { GivesSeat self.old self.new result.0 }
    {
        let Some(descriptor) = self.descriptor.take() else {
            unreachable!()
        };
        (
            mem::replace(&mut self.badge, Badge::blank()).into_seat(),
            descriptor,
        )
    }

    /// Puts a seat in, with these lists and numbers.
    pub fn put_seat<S>(
        &mut self,
        seat: Seat<S, X>,
        descriptor: Box<Descriptor>,
        numbers: PassNumbers,
    )
        requires slots { seat.me.1 ≡ [] }
        ensures { self.new ≡ is_given seat numbers }
    {
        self.badge = seat.into_badge();
        self.numbers = numbers;
        self.descriptor = Some(descriptor);
    }

    /// All its numbers.
    pub fn numbers(&self) -> PassNumbers
        ensures { result ≡ self.now.numbers }
    {
        self.numbers
    }

    /// The greatest number among its entries, or the opening number.
    pub fn last(&self) -> u64
        ensures { result ≡ self.now.numbers.last }
    {
        self.numbers.last
    }

    /// How many numbers it may still draw.
    pub fn left(&self) -> u64
        ensures { result ≡ self.now.numbers.left }
    {
        self.numbers.left
    }

    /// How many passes it may still split off.
    pub fn splits(&self) -> u64
        ensures { result ≡ self.now.numbers.splits }
    {
        self.numbers.splits
    }

    /// The greatest durable number that its turns, or those of passes that it took in, announced, or the opening number.
    pub fn durable(&self) -> u64
        ensures { result ≡ self.now.numbers.durable }
    {
        self.numbers.durable
    }

    /// Whether one of its turns, or of a pass that it took in, met a fault.
    pub fn met_fault(&self) -> bool
        ensures { result ≡ self.now.numbers.met_fault }
    {
        self.numbers.met_fault
    }

    /// How often it was refused. The count stays at 2^64 - 1.
    pub fn refused(&self) -> u64
        ensures { result ≡ self.now.numbers.refused }
    {
        self.numbers.refused
    }
}
