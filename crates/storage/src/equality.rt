//! Whether two sources hold equal lists.
ghost use Rattle.std.specs.Prelude.{◌≡◌, Decides};

use crate::interface::Source;
use crate::rows::Rows;

/// Whether two sources, of any two kinds, hold equal lists of rows, in the same order.
pub fn same<S: Source, T: Source>(a: &S, b: &T) -> bool
    ensures { Decides result (S.Source.rows a.now ≡ T.Source.rows b.now) }
{
    // The counts first: so two lists of which one is the beginning of the other are told apart without a look at their rows.
    let n = a.count();
    n == b.count()
        && Rows::at(a, 0..n)
            .zip(Rows::at(b, 0..n))
            .all(|(g, h)| g == h)
}
