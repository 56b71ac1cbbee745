// What a row tells, and the moves of rows in rising order of provider and requirer.
ghost use Rattle.std.specs.Prelude.{◌≡◌, ℕ, ◌+◌, ◌*◌, ◌<◌, ◌≤◌, not, ◌&&◌, ◌||◌, ◌==◌, length, true};
ghost use Rattle.model.specs.Orders.{same};
ghost use Rattle.universe.specs.Sets.{has};
ghost use Rattle.table.specs.Rows.{rank as rank_of, held, row, Closed, Formed, Gives, Holds, Kept, Opened, Place};

use crate::ports::{single, with, without};
use crate::row::Row;
use model::binding::Binding;

// What each row holds at first.
pub(crate) const BLANK_ROW: Row = Row {
    provider: 0,
    requirer: 0,
    ports: 0,
};

impl Row {
    // The row of one binding, whose numbers are in range. With `TryFrom` the work of an order would have an error that
    // cannot come.
    pub(crate) fn of(binding: Binding) -> Row
        requires { (binding.port < 32) × (binding.provider < 256) × (binding.requirer < 256) }
        ensures { Gives result binding.provider binding.requirer (λ p. binding.port == p) }
    {
        Row {
            provider: binding.provider as u8,
            requirer: binding.requirer as u8,
            ports: single(binding.port),
        }
    }

    // Its number in the order of the rows: by provider, then by requirer. A derived `Ord` would say the same, and is no
    // plainer: the definitions tell the order of rows by one number, and so does the code.
    pub fn rank(self) -> u32
        ensures { result ≡ rank_of self }
    {
        u32::from(self.provider) * 256 + u32::from(self.requirer)
    }

    // Whether its provider is this instance.
    pub(crate) fn starts_at(self, instance: u32) -> bool
        ensures { result ≡ (self.provider == instance) }
    {
        u32::from(self.provider) == instance
    }

    // Whether its requirer is this instance.
    pub(crate) fn ends_at(self, instance: u8) -> bool
        ensures { result ≡ (self.requirer == instance) }
    {
        self.requirer == instance
    }

    // One port more.
    fn add(&mut self, port: u32)
        requires { port < 32 }
        ensures { Gives self.new self.old.provider self.old.requirer (λ p. has 32 self.old.ports p || (port == p)) }
    {
        self.ports = with(self.ports, port);
    }

    // One port less.
    fn remove(&mut self, port: u32)
        requires { port < 32 }
        ensures { Gives self.new self.old.provider self.old.requirer (λ p. has 32 self.old.ports p && not (port == p)) }
    {
        self.ports = without(self.ports, port);
    }
}

// The two moves are one call of the library each, and functions of their own: what a move leaves is proved once, and a wrong
// one is refused here.

// Moves the rows from `at` on up by one place.
#[tactic(auto, using(crate::proofs::RowTurns::opened_of))]
fn open_at(rows: &mut [Row], at: usize, len: usize)
    requires { (at ≤ len) × (len < length rows.old) }
    ensures opened { Opened rows.old rows.new at len }
    ensures size { length rows.new ≡ length rows.old }
{
    rows.copy_within(at..len, at + 1);
}

// Moves the rows behind `at` down by one place.
#[tactic(auto, using(crate::proofs::RowTurns::closed_of))]
fn close_at(rows: &mut [Row], at: usize, len: usize)
    requires { (at < len) × (len ≤ length rows.old) }
    ensures closed { Closed rows.old rows.new at len }
    ensures size { length rows.new ≡ length rows.old }
{
    rows.copy_within(at + 1..len, at);
}

// Puts a binding in at its place: its port into the row that is there, or else a row of its own. Answers how many rows are
// in use then.
pub(crate) fn put_in(rows: &mut [Row], len: usize, at: usize, binding: Binding) -> usize
    requires range { (binding.port < 32) × (binding.provider < 256) × (binding.requirer < 256) }
    requires room { len < length rows.old }
    requires formed { Formed rows.old len }
    requires place { Place rows.old len (binding.provider * 256 + binding.requirer) at }
    ensures holds { Holds rows.new result (λ p x y. held rows.old len p x y || same binding.port binding.provider binding.requirer p x y) }
    ensures size { length rows.new ≡ length rows.old }
{
    let row = Row::of(binding);
    if at < len && rows[at].rank() == row.rank() {
        rows[at].add(binding.port);
        return len;
    }
    open_at(rows, at, len);
    rows[at] = row;
    len + 1
}

// Takes a binding out, whose port the row at its place has: the port from the row, and the row if nothing is left of it.
// Answers how many rows are in use then.
pub(crate) fn take_out(rows: &mut [Row], len: usize, at: usize, binding: Binding) -> usize
    requires range { (binding.port < 32) × (binding.provider < 256) × (binding.requirer < 256) }
    requires in_bounds { (at < len) × (len ≤ length rows.old) }
    requires formed { Formed rows.old len }
    requires place { rank_of (row rows.old at) ≡ binding.provider * 256 + binding.requirer }
    ensures holds { Holds rows.new result (λ p x y. held rows.old len p x y && not (same binding.port binding.provider binding.requirer p x y)) }
    ensures size { length rows.new ≡ length rows.old }
{
    rows[at].remove(binding.port);
    if rows[at].ports != 0 {
        return len;
    }
    close_at(rows, at, len);
    len - 1
}

// How many rows are left at the front, and how many bindings went with the others.
#[derive(Drop)]
pub(crate) struct Left {
    pub(crate) len: usize,
    pub(crate) dropped: u32,
}

// Leaves out those of the first `len` rows whose requirer is the instance.
// Only a `Vec` has `retain`, so the places are counted here. It takes the array and the number, since
// `&mut self.rows[..self.len]` cannot be lent yet by a struct with a ghost field (the borrow checker has no rule for it).
pub(crate) fn keep_others(rows: &mut [Row], len: usize, instance: u8) -> Left
    requires in_bounds { (len ≤ length rows.old) × (len ≤ 2048) }
    requires formed { Formed rows.old len }
    ensures { Kept rows.old rows.new len result.len instance result.dropped }
{
    let mut left = 0;
    let mut dropped = 0;
    for i in 0..len {
        let row = rows[i];
        if row.ends_at(instance) {
            dropped += row.ports.count_ones();
        } else {
            rows[left] = row;
            left += 1;
        }
    }
    Left { len: left, dropped }
}
