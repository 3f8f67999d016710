//! Laws of what holds nodes over reduced children and of the bytes that their answers take, each the contract of a function without
//! a body.

ghost use Rattle.std.specs.Prelude.{ℕ, ◌≡◌, ◌+◌, ◌^◌, ◌≤◌, ◌<◌, List, length, true, false};
ghost use Rattle.calc_algebra.specs.Reduced.{is_reduced};
ghost use Rattle.calc_room.specs.Counts.{counted};
ghost use Rattle.calc_room.specs.Spans.{SpansTree};
ghost use Rattle.calc_terms.specs.Fractions.{minus_one_fraction};
ghost use Rattle.calc_terms.specs.Trees.{Tree, num, add, mult, power, neg, sub, div, Trees, none, more, has_undef, is_undef, size};
ghost use Rattle.node_bounds.specs.Answers.{IsReducedPower};
ghost use Rattle.node_bounds.specs.NodeBits.{HoldsPower};
ghost use Rattle.node_bounds.specs.NodeRooms.{KeepsNodeRoom};
ghost use Rattle.node_bounds.specs.Rooms.{power_count};
ghost use Rattle.sum_reduce.specs.Bounds.{KeepsSumRoom};
ghost use Rattle.product_reduce.specs.Bits.{AreFactorsHeld, IsFactorHeld};
ghost use Rattle.tree_bits.specs.Children.{IsSumHeld, addends_of_each};
ghost use Rattle.tree_bits.specs.HeldTrees.{IsTreeHeld};
ghost use Rattle.tree_room.specs.Needs.{product_power_room, product_room, simple_room};

/// What holds a reduced tree other than Undef holds it as a factor, and the other way round.
#[tactic(auto, using(crate::proofs::HeldFactors::tree_factor, crate::proofs::HeldFactors::factor_tree))]
pub fn what_holds_trees_holds_factors()
    ensures factors { (t : Tree) (h l : ℕ) → is_reduced t ≡ true → is_undef t ≡ false → IsTreeHeld t h l → IsFactorHeld t h l }
    ensures trees { (t : Tree) (h l : ℕ) → IsFactorHeld t h l → IsTreeHeld t h l }
{}

/// What holds the sides of a node: those of a difference as terms, those of a quotient as factors, and -1 takes no bits. What holds a
/// power as a node holds what is answered for it.
pub fn what_holds_nodes()
    ensures opposites { (a : Tree) (h l : ℕ) → IsFactorHeld a h l → AreFactorsHeld (more (num minus_one_fraction) (more a none)) h l }
    ensures terms { (a b : Tree) (p q k n h l : ℕ) → has_undef (more a (more b none)) ≡ false → IsFactorHeld a p q → IsFactorHeld b k n
        → 2 ^ p + 2 ^ k ≤ 2 ^ h → q + n ≤ l → IsSumHeld (addends_of_each (more a (more b none))) h l }
    ensures factors { (a b : Tree) (p q k n h l : ℕ) → IsFactorHeld a p q → IsFactorHeld b k n → p + k ≤ h → q + n ≤ l
        → AreFactorsHeld (more a (more b none)) h l }
    ensures powers { (b e r : Tree) (h l : ℕ) → IsReducedPower b e r → is_undef r ≡ false → HoldsPower b e h l → IsFactorHeld r h l }
{}

/// What is answered for an opposite, a difference or a quotient counts little, and is calm and spanned, where so is what its sides
/// become; a sum is answered as the sum of its terms is.
#[tactic(auto, using(crate::proofs::NodeRooms::sum_room, crate::proofs::NodeRooms::opposite_room, crate::proofs::NodeRooms::difference_room, crate::proofs::NodeRooms::quotient_room))]
pub fn answers_for_nodes_count_little()
    ensures sums { (ts : Trees) (r : Tree) → KeepsSumRoom ts r → KeepsNodeRoom (counted (add ts)) (add ts) r }
    ensures opposites { (a r : Tree) → let t = mult (more (num minus_one_fraction) (more a none)) in KeepsNodeRoom (counted t) t r
        → KeepsNodeRoom (counted a) (neg a) r }
    ensures differences { (a b c r : Tree) → let t = add (more a (more c none)) in KeepsNodeRoom (counted b) (neg b) c
        → KeepsNodeRoom (counted t) t r → KeepsNodeRoom (1 + counted a + counted b) (sub a b) r }
    ensures quotients { (a b c r : Tree) → let t = mult (more a (more c none)) in let u = power b (num minus_one_fraction) in
        KeepsNodeRoom (power_count b (num minus_one_fraction)) u c → KeepsNodeRoom (counted t) t r
        → KeepsNodeRoom (1 + counted a + counted b) (div a b) r }
{}

/// Beside its left side a difference has room for the opposite of the right, and a quotient for the inverse.
#[tactic(auto, using(crate::proofs::NodeBytes::right_opposite_lacks, crate::proofs::NodeBytes::right_inverse_lacks))]
pub fn second_sides_have_room()
    ensures opposites { (gs : List ℕ) (a b : Tree) (n bytes : ℕ) → 1 + counted a + counted b ≤ n → is_reduced a ≡ true → SpansTree gs a
        → bytes < product_room (2 + counted b) (2 ^ length gs) → bytes + size a < simple_room n (2 ^ length gs) }
    ensures inverses { (gs : List ℕ) (a b : Tree) (n bytes : ℕ) → 1 + counted a + counted b ≤ n → is_reduced a ≡ true → SpansTree gs a
        → bytes < product_power_room (counted b) (2 ^ length gs) → bytes + size a < simple_room n (2 ^ length gs) }
{}
