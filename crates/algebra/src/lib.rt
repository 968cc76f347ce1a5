//! Arithmetic for the proofs of the other crates. Nothing here runs: each function's contract is a theorem.
#![tactic(auto)]

ghost use Rattle.algebra.specs.Parity.{EvenCounts, OddCounts};
ghost use Rattle.algebra.specs.Polynomial.{EquationsCarry, NormalFormDecides};

/// Polynomials with one normal form are equal, and so are those that differ by multiples of known equations.
pub fn normal_forms_decide()
    ensures identity { NormalFormDecides }
    ensures consequence { EquationsCarry }
{}

/// Where each thing of a list stands an even number of times, every test holds an even number of times.
pub fn even_counts_add<T>()
    ensures parity { OddCounts T }
    ensures sums { EvenCounts T }
{}
