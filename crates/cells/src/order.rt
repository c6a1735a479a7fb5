ghost use Rattle.std.specs.Prelude.{◌≡◌, if◌then◌else◌};
ghost use Rattle.measures.specs.Scales.{at_most};
ghost use Rattle.cells.specs.Cells.{entry_before};
ghost use Rattle.cells.specs.Comparing.{entry_total, entry_trans};

use crate::cell::{Cell, Entry};
use least::TotalOrder;
use measures::Measure;

// Whether a value is at or before another, no value being after all of them. No `Ord`: the order is the measure's, given by
// its trait with its laws, and a measure of a caller's own may order its values otherwise than their type does. Four cases: with the
// three that have a none as one, `b.is_none()`, which was tried, a search over entries takes a fifth longer.
pub fn at_most<M: Measure>(a: Option<M::Value>, b: Option<M::Value>) -> bool
    ensures { result ≡ at_most M.Measure.meaning.before a b }
{
    match (a, b) {
        (Some(x), Some(y)) => M::at_or_before(x, y),
        (Some(_), None) => true,
        (None, Some(_)) => false,
        (None, None) => true,
    }
}

// The lesser of two values, the first of equals, no value being after all of them.
pub fn lesser<M: Measure>(a: Option<M::Value>, b: Option<M::Value>) -> Option<M::Value>
    ensures { result ≡ (if at_most M.Measure.meaning.before a b then a else b) }
{
    match (a, b) {
        (Some(x), Some(y)) if !M::at_or_before(x, y) => b,
        (None, _) => b,
        _ => a,
    }
}

// Whether the first plan of one subspace is at or before that of another in the order of plans. Places by `cmp`: `<=`, which answers
// the same, takes more than twice the time.
#[tactic(auto, using(crate::proofs::Listed::listed_cmp))]
pub fn entry_at_or_before<M: Measure>(a: &Entry<M::Value>, b: &Entry<M::Value>) -> bool
    ensures { result ≡ entry_before M.Measure.meaning.before a.now b.now }
{
    at_most::<M>(a.score, b.score)
        && (!at_most::<M>(b.score, a.score) || a.places.cmp(&b.places).is_le())
}

// Cells in the order of their waiting subspaces.
impl<M: Measure<Value = V>, V: Copy> TotalOrder for Cell<M, V> {
    ghost precedes = { λ a b. entry_before M.Measure.meaning.before a.entry b.entry };

    ghost ordered = { let m = M.Measure.meaning in let laws = M.Measure.lawful.laws in record {
      total = λ a b. entry_total m laws a.entry b.entry;
      trans = λ a b c. entry_trans m laws a.entry b.entry c.entry;
    } };

    fn at_or_before(&self, other: &Cell<M, V>) -> bool {
        entry_at_or_before::<M>(&self.entry, &other.entry)
    }
}
