//! Laws of the measures, each the contract of a function without a body.

ghost use Rattle.std.specs.Prelude.{ℕ, ◌<◌, ◌^◌, ◌≤◌};
ghost use Rattle.calc_measures.specs.PlainOverflows.{nodes_to_overflow};
ghost use Rattle.calc_terms.specs.Trees.{Tree, nodes};
ghost use Rattle.calc_measures.specs.Measures.{ceil_log2};

/// The number of bits that its definition computes is the least that suffices.
pub fn computed_bits()
    ensures enough_bits { (n : ℕ) → n ≤ 2 ^ ceil_log2 n }
    ensures least_bits { (n j : ℕ) → j < ceil_log2 n → 2 ^ j < n }
{}

/// Up to an overflow stand at least one and at most all nodes of a tree.
pub fn overflows_among_the_nodes()
    ensures some { (t : Tree) → 1 ≤ nodes_to_overflow t }
    ensures at_most_all { (t : Tree) → nodes_to_overflow t ≤ nodes t }
{}
