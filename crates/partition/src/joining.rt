//! Joining classes, and the theorem that joins give one code to exactly the places that belong together.
ghost use Rattle.std.specs.Prelude.{◌≡◌, map};
ghost use Rattle.partition.specs.Codes.{Classes, in_codes, joined_in, merged, recoded, relabelled};

use crate::codes::Coded;

/// Every code `from` becomes `to`.
pub fn relabel<F, T: Coded<F>>(labels: &mut [T], from: usize, to: usize)
    ensures labels { labels.new ≡ in_codes T.code T.recode (recoded from to) labels.old }
    ensures codes { map T.code labels.new ≡ relabelled from to (map T.code labels.old) }
{
    for label in labels.iter_mut() {
        if label.code() == from {
            *label = label.with_code(to);
        }
    }
}

/// The classes of the places `i` and `j` become one: the code of the first becomes that of the second.
/// Where a place is past the end, nothing changes.
pub fn join<F, T: Coded<F>>(labels: &mut [T], i: usize, j: usize)
    ensures labels { labels.new ≡ joined_in T.code T.recode labels.old i j }
    ensures codes { map T.code labels.new ≡ merged (map T.code labels.old) (i, j) }
{
    if let (Some(x), Some(y)) = (labels.get(i), labels.get(j)) {
        let from = x.code();
        let to = y.code();
        relabel(labels, from, to);
    }
}

/// Joins made one after the other give one code to exactly the places that belong together.
pub fn joins_make_classes()
    ensures { Classes }
{}
