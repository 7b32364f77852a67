//! Rows side by side, of which the shorter side moves where some are taken out.

ghost use Rattle.std.specs.Prelude.{◌≡◌, ◌≤◌, ◌<◌, ◌+◌, ◌-◌, ◌^◌, ◌++◌, ◌∷◌, [], length, remove, drop, take, option_to_list, IfOk, OnOk, vec_len, vec_capacity};
ghost use Rattle.std.specs.Fn.{CalledAt};
ghost use Rattle.std.specs.List.{insert, slice_set};
ghost use Rattle.std.specs.List.Retain.{IsFiltered};

use std::alloc::{AllocError, Global};
use std::marker::Model;

/// Rows that lie side by side. One that is taken out near the first moves those before it, and
/// another one those behind it.
#[derive(Drop)]
pub struct Rows<T> {
    // Rows that went, and behind them those that are there. What went stays until there is more of
    // it than of the others: so of many rows the first go one after another at no cost.
    slots: Vec<T>,
    // How many went.
    gone: usize,
}

impl<T> Model for Rows<T> {
    ghost use Rattle.am_ordered.specs.RowTable.{RowTable, table_code};

    ghost Value = { RowTable T };

    ghost coded = { table_code T.code };

    ghost use Rattle.am_ordered.specs.RowView.{table_of, IsWithin};

    ghost view = { λ r. table_of r.slots r.gone };

    // As many went as there are slots at most.
    ghost invariant = { λ r. IsWithin r.slots r.gone };
}

/// The rows behind the first so many, which are no more than these, change places with as many of
/// these: both keep their order.
fn trade<T>(rows: &mut [T], count: usize)
    requires within { count ≤ length rows.old }
    requires half { length rows.old ≤ count + count }
    ensures first { take (length rows.old - count) rows.new ≡ drop count rows.old }
    ensures last { drop count rows.new ≡ take (length rows.old - count) rows.old }
    ensures len { length rows.new ≡ length rows.old }
{
    let behind = rows.len() - count;
    let (first, last) = rows.split_at_mut(count);
    first[..behind].swap_with_slice(last);
}

/// The rows behind the first so many come before them, and keep their order.
fn bring_up<T>(rows: &mut [T], count: usize)
    requires { count ≤ length rows.old }
    ensures rows { take (length rows.old - count) rows.new ≡ drop count rows.old }
    ensures len { length rows.new ≡ length rows.old }
{
    if rows.len() - count <= count {
        trade(rows, count);
    } else {
        rows.rotate_left(count);
    }
}

/// The first slots go.
fn cut<T: Drop>(slots: &mut Vec<T>, count: usize)
    requires { count ≤ vec_len slots.old }
    ensures items { slots.new.items ≡ drop count slots.old.items }
    ensures len { vec_len slots.new ≤ vec_len slots.old }
    ensures capacity { vec_capacity slots.new ≡ vec_capacity slots.old }
{
    let left = slots.len() - count;
    bring_up(&mut slots[..], count);
    slots.truncate(left);
}

/// So many more slots go, the first of those that are there.
fn pass<T: Drop>(slots: &mut Vec<T>, gone: &mut usize, count: usize)
    requires { gone.old + count ≤ vec_len slots.old }
    ensures rows { drop gone.new slots.new.items ≡ drop (gone.old + count) slots.old.items }
    ensures within { gone.new ≤ vec_len slots.new }
    ensures len { vec_len slots.new ≤ vec_len slots.old }
    ensures capacity { vec_capacity slots.new ≡ vec_capacity slots.old }
{
    let passed = *gone + count;
    if slots.len() - passed < passed {
        cut(slots, passed);
        *gone = 0;
    } else {
        *gone = passed;
    }
}

/// The rows before the last so many come behind them, and keep their order.
fn bring_down<T>(rows: &mut [T], count: usize)
    requires { count ≤ length rows.old }
    ensures rows { drop count rows.new ≡ take (length rows.old - count) rows.old }
    ensures len { length rows.new ≡ length rows.old }
{
    if rows.len() - count <= count {
        trade(rows, count);
    } else {
        rows.rotate_right(count);
    }
}

/// So many rows from this index on come before all others, which keep their order.
fn turn<T>(rows: &mut [T], index: usize, count: usize)
    requires { index + count ≤ length rows.old }
    ensures rows { drop count rows.new ≡ take index rows.old ++ drop (index + count) rows.old }
    ensures len { length rows.new ≡ length rows.old }
{
    bring_down(&mut rows[..index + count], count);
}

/// So many rows from this index on come before all others that are there, which keep their order.
fn bring_first<T>(slots: &mut Vec<T>, gone: usize, index: usize, count: usize)
    requires { gone + index + count ≤ vec_len slots.old }
    ensures rows { drop (gone + count) slots.new.items ≡
        take index (drop gone slots.old.items) ++ drop (index + count) (drop gone slots.old.items) }
    ensures len { vec_len slots.new ≡ vec_len slots.old }
    ensures capacity { vec_capacity slots.new ≡ vec_capacity slots.old }
{
    turn(&mut slots[gone..], index, count);
}

/// So many rows from this index on come behind all others, which keep their order.
fn turn_back<T>(rows: &mut [T], index: usize, count: usize)
    requires { index + count ≤ length rows.old }
    ensures rows { take (length rows.old - count) rows.new ≡
        take index rows.old ++ drop (index + count) rows.old }
    ensures len { length rows.new ≡ length rows.old }
{
    bring_up(&mut rows[index..], count);
}

/// So many slots from this one on go. Those behind them move up.
fn close<T: Drop>(slots: &mut Vec<T>, from: usize, count: usize)
    requires { from + count ≤ vec_len slots.old }
    ensures items { slots.new.items ≡
        take from slots.old.items ++ drop (from + count) slots.old.items }
    ensures len { vec_len slots.new ≤ vec_len slots.old }
    ensures capacity { vec_capacity slots.new ≡ vec_capacity slots.old }
{
    let left = slots.len() - count;
    turn_back(&mut slots[..], from, count);
    slots.truncate(left);
}

impl<T> Rows<T> {
    /// No row.
    pub fn new(alloc: Global) -> Rows<T>
        ensures { result.rows ≡ [] }
    {
        Rows::of(Vec::new(alloc))
    }

    /// These rows.
    pub fn of(rows: Vec<T>) -> Rows<T>
        ensures { result.rows ≡ rows.items }
    {
        Rows {
            slots: rows,
            gone: 0,
        }
    }

    /// The same rows once more, with no less room.
    pub fn copy(&self, alloc: Global) -> Result<Rows<T>, AllocError>
    where
        T: Copy,
        ensures rows { IfOk result (λ copy. copy.rows ≡ self.now.rows) }
        ensures room { IfOk result (λ copy. self.now.room ≤ copy.room) }
    {
        let mut slots = Vec::with_capacity(alloc, self.slots.capacity() - self.gone)?;
        slots.extend_from_slice(self.as_slice())?;
        Ok(Rows { slots, gone: 0 })
    }

    /// How many rows there are.
    pub fn len(&self) -> usize
        ensures exact { result ≡ length self.now.rows }
        ensures bound { result < 2 ^ 63 }
    {
        self.slots.len() - self.gone
    }

    /// The rows.
    pub fn as_slice(&self) -> &[T]
        ensures value { result.now ≡ self.now.rows }
        ensures len { length result.now ≡ length self.now.rows }
    {
        &self.slots[self.gone..]
    }

    /// Makes room for so many more rows.
    pub fn reserve(&mut self, count: usize) -> Result<(), AllocError>
        ensures rows { self.new.rows ≡ self.old.rows }
        ensures room { self.old.room ≤ self.new.room }
        ensures ok { OnOk result (count ≤ self.new.room) }
    {
        self.slots.reserve(count)
    }

    /// A row behind the others, for which there is room.
    pub fn push_reserved(&mut self, row: T)
        requires { 1 ≤ self.old.room }
        ensures rows { self.new.rows ≡ self.old.rows ++ row ∷ [] }
        ensures room { self.old.room ≤ self.new.room + 1 }
    {
        self.slots.push_reserved(row);
    }

    /// These rows behind the others, for which there is room.
    pub fn append_reserved(&mut self, mut rows: Vec<T>)
    where
        T: Drop,
        requires { length rows.items ≤ self.old.room }
        ensures rows { self.new.rows ≡ self.old.rows ++ rows.items }
        ensures room { self.old.room ≤ self.new.room + length rows.items }
    {
        let _added = self.slots.append(&mut rows);
    }

    /// A row at this index, for which there is room. Those from there on move down by one.
    pub fn insert_reserved(&mut self, index: usize, row: T)
    where
        T: Drop,
        requires within { index ≤ length self.old.rows }
        requires room { 1 ≤ self.old.room }
        ensures rows { self.new.rows ≡ insert self.old.rows index row }
        ensures room { self.old.room ≤ self.new.room + 1 }
    {
        let _put = self.slots.insert(self.gone + index, row);
    }

    /// The row at this index becomes another.
    pub fn set(&mut self, index: usize, row: T)
    where
        T: Drop,
        requires { index < length self.old.rows }
        ensures rows { self.new.rows ≡ slice_set self.old.rows index row }
        ensures room { self.old.room ≤ self.new.room }
    {
        self.slots[self.gone + index] = row;
    }

    /// The last row goes.
    pub fn pop(&mut self) -> Option<T>
        ensures rows { self.old.rows ≡ self.new.rows ++ option_to_list result }
        ensures rest { self.new.rows ≡ take (length self.old.rows - 1) self.old.rows }
        ensures room { self.old.room ≤ self.new.room }
    {
        if self.slots.len() == self.gone {
            return None;
        }
        self.slots.pop()
    }

    /// The row at this index goes. Those on its shorter side move by one, and no memory is taken.
    pub fn take_out(&mut self, index: usize)
    where
        T: Drop,
        requires { index < length self.old.rows }
        ensures rows { self.new.rows ≡ remove self.old.rows index }
        ensures room { self.old.room ≤ self.new.room }
    {
        self.take_range(index, 1);
    }

    /// So many rows from this index on go. Those on the shorter side move, and no memory is taken.
    pub fn take_range(&mut self, index: usize, count: usize)
    where
        T: Drop,
        requires { index + count ≤ length self.old.rows }
        ensures rows { self.new.rows ≡ take index self.old.rows ++ drop (index + count) self.old.rows }
        ensures room { self.old.room ≤ self.new.room }
    {
        let behind = self.slots.len() - self.gone - index - count;
        if index < behind {
            bring_first(&mut self.slots, self.gone, index, count);
            pass(&mut self.slots, &mut self.gone, count);
        } else {
            close(&mut self.slots, self.gone + index, count);
        }
    }

    /// Only those rows stay that are to be kept, in their order. No memory is taken.
    pub fn retain<F: FnMut(&T) -> bool>(&mut self, keeps: F)
    where
        T: Drop,
        requires { F.IsAlwaysCallable keeps }
        ensures filtered { IsFiltered (CalledAt F.FnMut) keeps self.old.rows self.new.rows }
        ensures room { self.old.room ≤ self.new.room }
    {
        cut(&mut self.slots, self.gone);
        self.gone = 0;
        self.slots.retain(keeps);
    }
}
