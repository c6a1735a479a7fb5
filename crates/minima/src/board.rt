ghost use Rattle.std.specs.Prelude.{◌≡◌, ◌<◌, length};
ghost use Rattle.jobs.specs.Jobs.{stops_of};
ghost use Rattle.tables.specs.Tables.{kind_in, own_in, best_in, hang_in};
ghost use Rattle.minima.specs.Tables.{Ready, link_in};

use crate::links::link_at;
use cells::cell::{Cell, Entry};
use jobs::job::Job;
use tables::access::{pair_at, set_best, set_entry, set_hang, set_own, stop_at, stop_place};

// The tables of a job over n places, read from lent cells.
#[derive(Drop)]
pub struct Board<'a, M, V> {
    pub cells: &'a [Cell<M, V>],
    pub n: usize,
    pub job: &'a Job,
    pub ghost ready: { Ready cells.now n (stops_of job.now) },
}

impl<'a, M, V: Copy> Board<'a, M, V> {
    // The cell of a stop at a place; its `hang` is the one below that place of the stop's parent.
    pub fn at(&self, s: usize, q: usize) -> &Cell<M, V>
        requires { (s < length (stops_of self.now.job.now)) × (q < self.now.n) }
        ensures own { result.now.own ≡ own_in self.now.cells.now self.now.n s q }
        ensures best { result.now.best ≡ best_in self.now.cells.now self.now.n s q }
        ensures hang { result.now.hang ≡ hang_in self.now.cells.now self.now.n s q }
    {
        let m = self.job.len();
        stop_at(self.cells, self.n, m, s, q)
    }

    // The kind of a place.
    pub fn kind(&self, p: usize) -> u8
        requires { p < self.now.n }
        ensures { result ≡ kind_in self.now.cells.now self.now.n p }
    {
        pair_at(self.cells, self.n, p, p).kind
    }

    // The value of a stop's link from its parent's place to its own.
    pub fn link(&self, s: usize, p: usize, q: usize) -> Option<V>
        requires { (p < self.now.n) × (q < self.now.n) }
        ensures { result ≡ link_in self.now.cells.now self.now.n (stops_of self.now.job.now) s p q }
    {
        link_at(self.cells, self.n, self.job, s, p, q)
    }
}

// The tables of a job over n places, in lent cells that are written.
#[derive(Drop)]
pub struct BoardMut<'a, M, V> {
    pub cells: &'a mut [Cell<M, V>],
    pub n: usize,
    pub job: &'a Job,
    pub ghost ready: { Ready cells.now n (stops_of job.now) },
}

impl<'a, M, V: Copy> BoardMut<'a, M, V> {
    ghost use Rattle.tables.specs.Tables.{OwnWritten, BestWritten, HangWritten, EntryWritten};
    ghost use Rattle.minima.specs.Boards.{Shows, SameBoard, stop_cell};

    // The tables in these cells.
    pub fn new(cells: &'a mut [Cell<M, V>], n: usize, job: &'a Job) -> BoardMut<'a, M, V>
        requires { Ready cells.old n (stops_of job.now) }
        ensures same { (result.n ≡ n) × (result.job.now ≡ job.now) × (result.cells.ghost_name ≡ cells.entry.ghost_name) }
        ensures cells { result.cells.now ≡ cells.old }
    {
        BoardMut { cells, n, job }
    }

    // The tables as they stand, to be read.
    pub fn board(&self) -> Board<'_, M, V>
        ensures { Shows self.now result }
    {
        Board {
            cells: self.cells,
            n: self.n,
            job: self.job,
        }
    }

    // Where the cell of a stop at a place stands.
    fn stop_place(&self, s: usize, q: usize) -> usize
        requires { (s < length (stops_of self.now.job.now)) × (q < self.now.n) }
        ensures place { result ≡ stop_cell self.now.n s q }
        ensures within { result < length self.now.cells.now }
    {
        stop_place(self.n, self.job.len(), s, q)
    }

    // Writes a stop's own value at a place; nothing else changes. The writers of `tables::access` write any cell of a slice; that
    // the board stays the same, which the loops over a board need, can only be said here.
    pub fn set_own(&mut self, s: usize, q: usize, value: Option<V>)
        requires { (s < length (stops_of self.old.job.now)) × (q < self.old.n) }
        ensures written { OwnWritten (stop_cell self.old.n s q) value self.old.cells.now self.new.cells.now }
        ensures same { SameBoard self.old self.new }
    {
        let at = self.stop_place(s, q);
        set_own(self.cells, at, value);
    }

    // Writes the least value of a stop's subtree at a place; nothing else changes.
    pub fn set_best(&mut self, s: usize, q: usize, value: Option<V>)
        requires { (s < length (stops_of self.old.job.now)) × (q < self.old.n) }
        ensures written { BestWritten (stop_cell self.old.n s q) value self.old.cells.now self.new.cells.now }
        ensures same { SameBoard self.old self.new }
    {
        let at = self.stop_place(s, q);
        set_best(self.cells, at, value);
    }

    // Writes the least value of a stop's link and subtree below a place of its parent; nothing else changes.
    pub fn set_hang(&mut self, s: usize, p: usize, value: Option<V>)
        requires { (s < length (stops_of self.old.job.now)) × (p < self.old.n) }
        ensures written { HangWritten (stop_cell self.old.n s p) value self.old.cells.now self.new.cells.now }
        ensures same { SameBoard self.old self.new }
    {
        let at = self.stop_place(s, p);
        set_hang(self.cells, at, value);
    }

    // Writes a waiting subspace into a cell; nothing else changes.
    pub fn set_entry(&mut self, at: usize, entry: Entry<V>)
        requires { at < length self.old.cells.now }
        ensures written { EntryWritten at entry self.old.cells.now self.new.cells.now }
        ensures same { SameBoard self.old self.new }
    {
        set_entry(self.cells, at, entry);
    }
}
