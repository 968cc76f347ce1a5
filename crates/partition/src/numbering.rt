//! Numbering classes from 1 in the order of their first places.
ghost use Rattle.std.specs.Prelude.{◌≡◌, map};
ghost use Rattle.partition.specs.Codes.{in_codes};
ghost use Rattle.partition.specs.Numbers.{count_of, number_of, Numbered, numbered, OwnFirsts, place_of};
ghost use Rattle.partition.specs.Theorems.{CountsEarlier, EachCodeOnce, JoinsNumbered, NumbersCodes, OneNumbering};

use crate::codes::Coded;

/// The first place with the code `c`, or the count of places where there is none: it serves as a code, and one that stands is found.
pub fn first_place<F, T: Coded<F>>(labels: &[T], c: usize) -> usize
    ensures { result ≡ place_of (map T.code labels.now) c }
{
    labels
        .iter()
        .position(|x| x.code() == c)
        .unwrap_or(labels.len())
}

/// Each code becomes the first place that has it. From the last place down, so that what is searched is not yet changed.
fn to_first_places<F, T: Coded<F>>(labels: &mut [T])
    ensures { labels.new ≡ in_codes T.code T.recode (place_of (map T.code labels.old)) labels.old }
{
    // By place: a proof learns nothing of the slice behind a `split_last_mut` that moves down it.
    for i in (0..labels.len()).rev() {
        let x = labels[i];
        let first = first_place(labels, x.code());
        labels[i] = x.with_code(first);
    }
}

/// Numbers codes that are first places: a place that is its own code is the next new one, any other copies from there.
fn number_places<F, T: Coded<F>>(labels: &mut [T]) -> usize
    requires { OwnFirsts (map T.code labels.old) }
    ensures labels { labels.new ≡ in_codes T.code T.recode (number_of (map T.code labels.old)) labels.old }
    ensures count { result ≡ count_of (map T.code labels.old) }
{
    let mut count = 0;
    // By place: each step reads what an earlier one wrote elsewhere in the slice.
    for i in 0..labels.len() {
        let x = labels[i];
        let first = x.code();
        let number = if first == i {
            count += 1;
            count
        } else {
            labels[first].code()
        };
        labels[i] = x.with_code(number);
    }
    count
}

/// Each code becomes the number of its class: from 1, in the order of first places. The answer is how many classes there are.
pub fn number<F, T: Coded<F>>(labels: &mut [T]) -> usize
    ensures labels { labels.new ≡ in_codes T.code T.recode (number_of (map T.code labels.old)) labels.old }
    ensures codes { map T.code labels.new ≡ numbered (map T.code labels.old) }
    ensures count { result ≡ count_of (map T.code labels.old) }
    ensures meaning { Numbered (map T.code labels.old) (map T.code labels.new) result }
{
    to_first_places(labels);
    number_places(labels)
}

/// What numbers say: they tell codes apart, run from 1 to the count without gaps, rise with first places, and no other
/// numbers do. After joins, two places have one number exactly where they belong together.
pub fn numbers_tell_classes()
    ensures numbered { NumbersCodes }
    ensures only { OneNumbering }
    ensures earlier { CountsEarlier }
    ensures once { EachCodeOnce }
    ensures joined { JoinsNumbered }
{}
