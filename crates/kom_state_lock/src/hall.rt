// A hall, and the calls of its passes.
ghost use Rattle.std.specs.Prelude.{◌≡◌, ◌↔◌, ℕ, ◌^◌, ◌≤◌, ◌<◌, [], Some, Ok, Err};
ghost use Rattle.std.specs.Prelude.{IfOk, IfErr, MatchResult, All, Contains, map};
ghost use Rattle.kom_state_lock.specs.declared.hall.Full.{Full};
ghost use Rattle.kom_state_lock.specs.declared.views.Turn.TheVariants.{Closed};
ghost use Rattle.kom_state_lock.specs.Views.{entries_of, ticket_in};
ghost use Rattle.kom_state_lock.specs.Passes.{IsPassOf, HoldsNoTurn, TakesTurn, RefusesTurn};
ghost use Rattle.kom_state_lock.specs.Passes.{MayLog, MayPut, logged_pass, resting_pass};
ghost use Rattle.kom_state_lock.specs.Passes.{AreNewPasses, AreReady, IsClosed};
ghost use Rattle.kom_state_lock.specs.Passes.{number_of, drawn_by};

use crate::booked::Booked;
use crate::closing::{gather, settle};
use crate::dealing::{deal, lay_table};
use crate::held::Held;
use crate::pass::Pass;
use crate::plays::Desk;
use crate::steps::{hand_on, take_turn, write_entry};
use std::alloc::Global;
use std::marker::{Brand, Model};
use std::sync::Wait;

/// The ticket that was drawn is this number, and no ticket of 2^62 or more has a turn.
#[derive(Debug, Clone, Copy, PartialEq, Eq)]
pub struct Full(pub u64);

/// There was no memory.
#[derive(Debug, Clone, Copy, PartialEq, Eq)]
pub struct Memory;

/// A value that the holders of its passes take turns with, in one order. Threads share it by
/// reference.
#[derive(Drop)]
pub struct Hall<B: Booked> {
    table: Desk<B>,
}

impl<B: Booked> Model for Hall<B> {
    ghost use Rattle.std.specs.Prelude.{◌≡◌, ◌<◌};
    ghost use Rattle.kom_state_lock.specs.Passes.{HallModel};
    ghost use Rattle.kom_state_lock.specs.Steps.{IsHallTable};

    ghost Value = { HallModel B };

    ghost view = { λ h. record {
      table = h.table.shared.table_id;
      opening = h.table.shared.key.value.value;
      passes = h.table.shared.key.passes;
    } };

    ghost invariant = { λ h. IsHallTable h.table.shared.table_id
        × (0 < h.table.shared.key.passes) };
}

impl<B: Booked> Hall<B> {
    /// A hall with the value, and its passes.
    pub fn make(
        alloc: Global,
        value: B,
        passes: u32,
    ) -> Result<(Hall<B>, Vec<Pass<B>>), (B, Memory)>
        requires { (1 ≤ passes) × (passes ≤ 65) }
        ensures hall { IfOk result (λ r. (r.0.opening ≡ value) × (r.0.passes ≡ passes)) }
        ensures passes { IfOk result (λ r. AreNewPasses r.0.table passes r.1.items) }
        ensures ready { IfOk result (λ r. AreReady r.0 r.1.items) }
        ensures err { IfErr result (λ e. e.0 ≡ value) }
    {
        let Ok(mut row) = Vec::with_capacity(alloc, passes as usize) else {
            return Err((value, Memory));
        };
        match lay_table(alloc, value, passes) {
            Ok((table, seat)) => {
                deal(&table.shared, seat, passes, &mut row);
                Ok((Hall { table }, row))
            }
            Err(value) => {
                row.destroy_empty();
                Err((value, Memory))
            }
        }
    }

    /// Waits for the pass's turn, and takes the value. A pass that was refused once is refused ever
    /// after.
    pub fn take<R: Wait>(&self, rt: &R, pass: &mut Pass<B>) -> Result<Held<B>, Full>
        requires pass { IsPassOf self.now pass.old }
        requires free { HoldsNoTurn pass.old.turn }
        ensures turn { MatchResult result
            (λ held. TakesTurn B.pass_of B.led self.now pass.old held pass.new)
            (λ full. RefusesTurn pass.old full.0 pass.new) }
        ensures below { IfErr result (λ full. full.0 < pass.new.drawn) }
        ensures full { (n : ℕ) → (result ≡ Err (record { 0 = n }))
            ↔ ((ticket_in pass.new.turn ≡ Some n) × (2 ^ 62 ≤ n)) }
    {
        if let Some(ticket) = pass.full {
            return Err(Full(ticket));
        }
        match take_turn(rt, &self.table.shared, &mut pass.seat) {
            Ok(value) => Ok(Held::new(value)),
            Err(ticket) => {
                pass.full = Some(ticket);
                Err(Full(ticket))
            }
        }
    }

    /// Writes the entry that leads from the value that was taken to the one that is held. At most
    /// once in a turn.
    pub fn log(&self, pass: &mut Pass<B>, held: &mut Held<B>, entry: B::Entry)
        requires pass { IsPassOf self.now pass.old }
        requires follows { MayLog B.follows pass.old.turn entry held.old }
        requires own { B.pass_of entry ≡ pass.old.number }
        ensures logged { pass.new ≡ logged_pass entry held.old pass.old }
        ensures held { held.new ≡ held.old }
    {
        write_entry::<B, Brand>(&self.table.shared, &mut pass.seat, &entry, held.look());
    }

    /// Puts the value back, and hands the turn on.
    pub fn put(&self, pass: &mut Pass<B>, held: Held<B>)
        requires pass { IsPassOf self.now pass.old }
        requires value { MayPut B.stays pass.old.turn held }
        ensures { pass.new ≡ resting_pass pass.old }
    {
        hand_on(&self.table.shared, &mut pass.seat, held.into_value());
    }

    /// The value, and a pass that has seen the whole history.
    pub fn close(self, passes: Vec<Pass<B>>) -> (B, Pass<B>)
        requires hall { All (IsPassOf self) passes.items }
        requires every { (number : ℕ) → number < self.passes
            → Contains (map number_of passes.items) number }
        requires free { All (λ p. HoldsNoTurn p.turn) passes.items }
        ensures leads { B.led self.opening result.1.seen result.0 }
        ensures closed { All (IsClosed B.pass_of result.1) passes.items }
        ensures number { result.1.number < self.passes }
        ensures others { (number : ℕ) → self.passes ≤ number
            → entries_of B.pass_of number result.1.seen ≡ [] }
        ensures own { (result.1.mine ≡ entries_of B.pass_of result.1.number result.1.seen)
            × (result.1.turn ≡ Closed) }
        ensures drawn { Contains (map drawn_by passes.items) result.1.drawn }
    {
        let Hall { table } = self;
        let (number, seat) = gather(&table.shared, passes);
        settle(table, number, seat)
    }
}
