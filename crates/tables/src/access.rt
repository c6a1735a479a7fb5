ghost use Rattle.std.specs.Prelude.{◌≡◌, ◌+◌, ◌*◌, ◌<◌, ◌≤◌, length, slice_index_or};
ghost use Rattle.tables.specs.Tables.{blank, leg_in, ride_in, kind_in, own_in, best_in, hang_in, entry_in, OwnWritten, BestWritten, HangWritten, EntryWritten};

use cells::cell::{Cell, Entry};

// The bounds of n, of m and of the length stand at each function, since they are bounds of a call's own arguments. Boards and
// the table of pairs have them in their types; for any other caller a struct of n and m would be made for a single call.

// Where cell `b` of row `a` stands in a table of rows with n cells each.
#[tactic(auto, using(std::proofs::lemmas::Nat::rows))]
fn row_place(n: usize, rows: usize, a: usize, b: usize) -> usize
    requires { (a < rows) × (b < n) × (n ≤ 64) × (rows ≤ 64) }
    ensures { (result ≡ a * n + b) × (result < rows * n) }
{
    a * n + b
}

// Where the cell of a pair of places stands.
pub fn pair_place(n: usize, a: usize, b: usize) -> usize
    requires { (a < n) × (b < n) × (n ≤ 64) }
    ensures { (result ≡ a * n + b) × (result < n * n) }
{
    row_place(n, n, a, b)
}

// Where the cell of a stop at a place stands, m being the number of stops.
pub fn stop_place(n: usize, m: usize, s: usize, q: usize) -> usize
    requires { (s < m) × (q < n) × (n ≤ 64) × (m ≤ 12) }
    ensures { (result ≡ n * n + (s * n + q)) × (result < n * n + m * n) }
{
    n * n + row_place(n, m, s, q)
}

// A cell.
#[tactic(auto, using(std::proofs::lemmas::List::get_or_default), unfolding(crate::specs::Tables::entry_in))]
pub fn cell_at<M, V: Copy>(cells: &[Cell<M, V>], at: usize) -> &Cell<M, V>
    requires { at < length cells.now }
    ensures whole { result.now ≡ slice_index_or cells.now at blank }
    ensures waiting { result.now.entry ≡ entry_in cells.now at }
{
    &cells[at]
}

// The cell of a pair of places; that of a place paired with itself has the kind of the place.
#[tactic(auto, unfolding(crate::specs::Tables::leg_in, crate::specs::Tables::ride_in, crate::specs::Tables::kind_in))]
pub fn pair_at<M, V: Copy>(cells: &[Cell<M, V>], n: usize, a: usize, b: usize) -> &Cell<M, V>
    requires { (a < n) × (b < n) × (n ≤ 64) × (n * n ≤ length cells.now) }
    ensures leg { result.now.leg ≡ leg_in cells.now n a b }
    ensures ride { result.now.ride ≡ ride_in cells.now n a b }
    ensures kind { a ≡ b → result.now.kind ≡ kind_in cells.now n a }
{
    let i = pair_place(n, a, b);
    cell_at(cells, i)
}

// The cell of a stop at a place.
#[tactic(auto, unfolding(crate::specs::Tables::own_in, crate::specs::Tables::best_in, crate::specs::Tables::hang_in))]
pub fn stop_at<M, V: Copy>(
    cells: &[Cell<M, V>],
    n: usize,
    m: usize,
    s: usize,
    q: usize,
) -> &Cell<M, V>
    requires { (s < m) × (q < n) × (n ≤ 64) × (m ≤ 12) × (n * n + m * n ≤ length cells.now) }
    ensures own { result.now.own ≡ own_in cells.now n s q }
    ensures best { result.now.best ≡ best_in cells.now n s q }
    ensures hang { result.now.hang ≡ hang_in cells.now n s q }
{
    let i = stop_place(n, m, s, q);
    cell_at(cells, i)
}

// Writes a stop's own value into a cell; nothing else changes. There are four writers, since a contract names the field that
// is written; a function that lends the cell to be written would leave what is written to a proof at each caller. They stand
// beside the methods of a board, since they write any cell, with no board.
#[tactic(auto, using(crate::proofs::Reading::cell_written, crate::proofs::Reading::owns_only))]
pub fn set_own<M, V: Copy>(cells: &mut [Cell<M, V>], at: usize, value: Option<V>)
    requires { at < length cells.old }
    ensures { OwnWritten at value cells.old cells.new }
{
    cells[at].own = value;
}

// Writes the least value of a subtree into a cell; nothing else changes.
#[tactic(auto, using(crate::proofs::Reading::cell_written, crate::proofs::Reading::stays_set, crate::proofs::Reading::hang_same))]
pub fn set_best<M, V: Copy>(cells: &mut [Cell<M, V>], at: usize, value: Option<V>)
    requires { at < length cells.old }
    ensures { BestWritten at value cells.old cells.new }
{
    cells[at].best = value;
}

// Writes the least value of a link and a subtree into a cell; nothing else changes.
#[tactic(auto, using(crate::proofs::Reading::cell_written, crate::proofs::Reading::stays_set, crate::proofs::Reading::best_same))]
pub fn set_hang<M, V: Copy>(cells: &mut [Cell<M, V>], at: usize, value: Option<V>)
    requires { at < length cells.old }
    ensures { HangWritten at value cells.old cells.new }
{
    cells[at].hang = value;
}

// Writes a waiting subspace into a cell; nothing else changes.
#[tactic(auto, using(crate::proofs::Reading::cell_written), unfolding(crate::specs::Tables::entry_in))]
pub fn set_entry<M, V: Copy>(cells: &mut [Cell<M, V>], at: usize, entry: Entry<V>)
    requires { at < length cells.old }
    ensures { EntryWritten at entry cells.old cells.new }
{
    cells[at].entry = entry;
}
