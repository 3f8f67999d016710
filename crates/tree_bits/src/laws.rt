//! Laws of what holds sums and trees, each the contract of a function without a body.

ghost use Rattle.std.specs.Prelude.{ℕ, suc, ◌≡◌, ◌+◌, ◌-◌, ◌*◌, ◌≤◌, min, ℤ, pos, negsuc, Some, List, [], ◌∷◌, ◌++◌, ◌^◌, true, false};
ghost use Rattle.calc_terms.specs.Limits.{bits_limit};
ghost use Rattle.calc_algebra.specs.Numbers.{is_number, value};
ghost use Rattle.calc_algebra.specs.Surds.{Term, Surd};
ghost use Rattle.calc_bits.specs.Bounds.{IsNoLarger, IsNoLargerThanPower};
ghost use Rattle.calc_bits.specs.Masses.{IsHeld};
ghost use Rattle.calc_measures.specs.Literals.{whole_literal, half_literal, or_literal};
ghost use Rattle.calc_measures.specs.Measures.{HighLow, high, low, bits, all_simple};
ghost use Rattle.calc_terms.specs.Fractions.{Fraction};
ghost use Rattle.calc_terms.specs.Trees.{Tree, num, symbol, undef, add, mult, power, root, neg, sub, div, Trees, more, append, count};
ghost use Rattle.calc_terms.specs.Trees.{is_undef, AllParts, IsComplete, AreComplete};
ghost use Rattle.tree_bits.specs.Children.{IsSumHeld, addends_of_each, AreTreesHeld, ArePositive};
ghost use Rattle.tree_bits.specs.Children.{power_sum, largest_high, high_sum, low_sum};
ghost use Rattle.tree_bits.specs.Exponents.{counts, multiple, counts_of, is_counted};
ghost use Rattle.tree_bits.specs.Factors.{as_factor, multiplied, product_of, distributed, surd_minus_one};
ghost use Rattle.tree_bits.specs.HeldTrees.{Addend, addend, addends, IsTreeHeld, IsPartHeld, IsBaseHeld};
ghost use Rattle.tree_bits.specs.HeldTrees.{exponent_in, power_high, power_low};
ghost use Rattle.tree_bits.specs.Joined.{IsJoint};
ghost use Rattle.tree_bits.specs.Powers.{IsWithin, IsPartPower, raised_high, raised_low, IsHeldAsPower, IsAddendPower, IsZeroAlone};
ghost use Rattle.tree_bits.specs.Rows.{bounds_of_each, IsWithinBits};
ghost use Rattle.tree_bits.specs.Weighted.{Weighted, weighted, coefficients, lesser, AreHeld};

/// What holds coefficients before parts: by two ways of counting the bits of the parts at once, sums, two terms of one part that
/// are joined, and one coefficient other than 0, which is split off and put before without loss.
pub fn what_holds_weighted_terms()
    ensures by_both { (ws vs : List Weighted) (h k l n : ℕ) → coefficients ws ≡ coefficients vs → AreHeld ws h l → AreHeld vs k n
        → AreHeld (lesser ws vs) (min h k) (min l n) }
    ensures sums { (ws vs : List Weighted) (h k l n g : ℕ) → AreHeld ws h l → AreHeld vs k n → 2 ^ h + 2 ^ k ≤ 2 ^ g
        → AreHeld (ws ++ vs) g (l + n) }
    ensures joined { (c d s : Surd) (ws : List Weighted) (p q h l : ℕ) → IsNoLarger (c ++ d) s
        → AreHeld (weighted c p q ∷ weighted d p q ∷ ws) h l → AreHeld (weighted s p q ∷ ws) h l }
    ensures put_before { (c : Surd) (h l p q : ℕ) → IsHeld c h l → AreHeld (weighted c p q ∷ []) (h + p) (l + q) }
    ensures split_off { (t : Term) (v : Surd) (h l p q : ℕ) → AreHeld (weighted (t ∷ v) p q ∷ []) h l
        → (p ≤ h) × (q ≤ l) × IsHeld (t ∷ v) (h - p) (l - q) }
{}

/// A Number is held as a tree as it is as a surd.
pub fn what_holds_numbers()
    ensures held { (t : Tree) (h l : ℕ) → is_number t ≡ true → IsHeld (value t) h l → IsTreeHeld t h l }
    ensures exactly { (t : Tree) (h l : ℕ) → is_number t ≡ true → IsTreeHeld t h l → IsHeld (value t) h l }
{}

/// Symbols, roots and powers that are kept are held by the bits of their rows, and what is held is held by more.
pub fn what_holds_kept_trees()
    ensures symbols { (x : List ℕ) → IsTreeHeld (symbol x) 1 0 }
    ensures roots { (a : Tree) (h l : ℕ) → is_number (root a) ≡ false → 1 ≤ h → IsTreeHeld a h l → IsTreeHeld (root a) h l }
    ensures powers { (b e : Tree) (h l : ℕ) → is_counted e ≡ true → IsBaseHeld b h l
        → IsTreeHeld (power b e) (power_high (counts_of e) h l) (power_low (counts_of e) h l) }
    ensures by_more { (t : Tree) (h l k n : ℕ) → h ≤ k → l ≤ n → IsTreeHeld t h l → IsTreeHeld t k n }
{}

/// What holds trees and parts: of two bounds the lesser of each, how often exponents count, and products of parts.
pub fn what_holds_trees()
    ensures by_both { (t : Tree) (h k l n : ℕ) → IsTreeHeld t h l → IsTreeHeld t k n → IsTreeHeld t (min h k) (min l n) }
    ensures parts_by_both { (ts : Trees) (h k l n : ℕ) → IsPartHeld ts h l → IsPartHeld ts k n → IsPartHeld ts (min h k) (min l n) }
    ensures exponents { (t : Tree) (ts : Trees) (h l : ℕ) → IsPartHeld (more t ts) h l
        → (counts_of (exponent_in t)).up + (counts_of (exponent_in t)).down ≤ h }
    ensures products { (ts us : Trees) (h k l n : ℕ) → IsPartHeld ts h l → IsPartHeld us k n → IsPartHeld (append ts us) (h + k) (l + n) }
{}

/// Which coefficients are held as powers: those that are no larger than a power, those that are held as an inverse is, and a power
/// of such.
pub fn what_is_held_as_a_power()
    ensures powers { (v w : Surd) (n : ℕ) → IsNoLargerThanPower v n w → IsHeldAsPower (pos n) v w }
    ensures inverses { (v w : Surd) → ((h l : ℕ) → IsHeld v h l → IsHeld w (h + 2 * l) (2 * h + 2 * l)) → IsHeldAsPower (negsuc 0) v w }
    ensures inverses_raised { (v w u : Surd) (n : ℕ) → IsHeldAsPower (negsuc 0) v w → IsHeldAsPower (pos (suc n)) w u
        → IsHeldAsPower (negsuc n) v u }
{}

/// A part to a whole power of at least 0 is held by as many times its bits, and to one below 0 as an inverse is, as many times;
/// so it is with a coefficient before it.
pub fn what_holds_part_powers()
    ensures raised { (n : ℕ) (ts us : Trees) (h l : ℕ) → IsPartPower (pos n) ts us → IsPartHeld ts h l → IsPartHeld us (n * h) (n * l) }
    ensures turned { (n : ℕ) (ts us : Trees) (h l : ℕ) → IsPartPower (negsuc n) ts us → IsPartHeld ts h l
        → IsPartHeld us (suc n * (h + 2 * l)) (suc n * (2 * h + 2 * l)) }
    ensures with_coefficients { (n : ℤ) (x y : Addend) (h l : ℕ) → IsAddendPower n x y → IsZeroAlone x → IsSumHeld (x ∷ []) h l
        → IsSumHeld (y ∷ []) (raised_high n h l) (raised_low n h l) }
{}

/// A tree is held as its addends are. Sums of several trees that are held by bits of their own: by the sum of 2 to their powers,
/// and by the largest of k trees and the bits of k. The bits of denominators add up.
pub fn what_holds_sums()
    ensures of_trees { (t : Tree) (h l : ℕ) → is_undef t ≡ false → IsTreeHeld t h l → IsSumHeld (addends t) h l }
    ensures trees { (t : Tree) (h l : ℕ) → IsSumHeld (addends t) h l → IsTreeHeld t h l }
    ensures by_powers { (ts : Trees) (bs : List HighLow) (h l : ℕ) → AreTreesHeld ts bs → power_sum bs ≤ 2 ^ h → low_sum bs ≤ l
        → IsSumHeld (addends_of_each ts) h l }
    ensures by_count { (ts : Trees) (bs : List HighLow) (h j l : ℕ) → AreTreesHeld ts bs → largest_high bs ≤ h → count ts ≤ 2 ^ j
        → low_sum bs ≤ l → IsSumHeld (addends_of_each ts) (h + j) l }
{}

/// What holds a tree, by a high of at least 1, holds it as a factor, and the other way round, and as a base; of factors and of a
/// coefficient that is distributed the bits add up, and -1 takes none.
pub fn what_holds_products()
    ensures factors { (t : Tree) (h l : ℕ) → is_undef t ≡ false → 1 ≤ h → IsTreeHeld t h l → IsSumHeld (as_factor t ∷ []) h l }
    ensures trees { (t : Tree) (h l : ℕ) → IsSumHeld (as_factor t ∷ []) h l → IsTreeHeld t h l }
    ensures bases { (t : Tree) (h l : ℕ) → 1 ≤ h → IsTreeHeld t h l → IsBaseHeld t h l }
    ensures two { (x y : Addend) (h l k n : ℕ) → IsSumHeld (x ∷ []) h l → IsSumHeld (y ∷ []) k n
        → IsSumHeld (multiplied x y ∷ []) (h + k) (l + n) }
    ensures several { (ts : Trees) (bs : List HighLow) → AreTreesHeld ts bs → ArePositive bs
        → IsSumHeld (product_of ts ∷ []) (high_sum bs) (low_sum bs) }
    ensures distributed { (c : Surd) (xs : List Addend) (h l k n : ℕ) → IsHeld c k n → IsSumHeld xs h l
        → IsSumHeld (distributed c xs) (k + h) (n + l) }
    ensures minus_one { IsHeld surd_minus_one 0 0 }
{}

/// What holds factors holds them in any order, without one of them, and with two of one base joined; and what holds addends holds
/// them in any order, without one of them, with one coefficient replaced by one that is no larger, and with two of one part joined.
pub fn what_stays_held()
    ensures factor_to_front { (ts : Trees) (t : Tree) (us : Trees) (h l : ℕ) → IsPartHeld (append ts (more t us)) h l
        → IsPartHeld (more t (append ts us)) h l }
    ensures factor_from_front { (ts : Trees) (t : Tree) (us : Trees) (h l : ℕ) → IsPartHeld (more t (append ts us)) h l
        → IsPartHeld (append ts (more t us)) h l }
    ensures factor_left_out { (t : Tree) (ts : Trees) (h l : ℕ) → IsPartHeld (more t ts) h l → IsPartHeld ts h l }
    ensures factors_joined { (t u v : Tree) (ts : Trees) (h l : ℕ) → IsJoint t u v → IsPartHeld (more t (more u ts)) h l
        → IsPartHeld (more v ts) h l }
    ensures addend_to_front { (xs : List Addend) (y : Addend) (zs : List Addend) (h l : ℕ) → IsSumHeld (xs ++ (y ∷ zs)) h l
        → IsSumHeld (y ∷ (xs ++ zs)) h l }
    ensures addend_from_front { (xs : List Addend) (y : Addend) (zs : List Addend) (h l : ℕ) → IsSumHeld (y ∷ (xs ++ zs)) h l
        → IsSumHeld (xs ++ (y ∷ zs)) h l }
    ensures addend_left_out { (x : Addend) (xs : List Addend) (h l : ℕ) → IsSumHeld (x ∷ xs) h l → IsSumHeld xs h l }
    ensures addend_replaced { (c s : Surd) (ts : Trees) (xs : List Addend) (h l : ℕ) → IsNoLarger c s → IsSumHeld (addend c ts ∷ xs) h l
        → IsSumHeld (addend s ts ∷ xs) h l }
    ensures addends_joined { (c d s : Surd) (ts : Trees) (xs : List Addend) (h l : ℕ) → IsNoLarger (c ++ d) s
        → IsSumHeld (addend c ts ∷ (addend d ts ∷ xs)) h l → IsSumHeld (addend s ts ∷ xs) h l }
{}

/// A tree with few bits has simple powers alone, and each of its parts is within the bits that calculations have. Every high is
/// at least 1.
pub fn few_bits()
    ensures simple { (t : Tree) → bits t ≤ bits_limit → all_simple t ≡ true }
    ensures parts { (t : Tree) → bits t ≤ bits_limit → AllParts IsWithinBits t }
    ensures positive { (t : Tree) → IsComplete t → 1 ≤ high t }
{}

/// The rows of high and low: where those of the children of a node hold what the children become, the node's own hold what it
/// becomes; any node's hold Undef. A sum becomes the addends of all, an opposite and what is taken away are distributed by -1,
/// products and quotients are multiplied as factors, and a whole or half literal exponent is the power of one factor. Powers and
/// roots may also be kept.
pub fn rows_of_high_and_low()
    ensures rationals { (q : Fraction) → IsTreeHeld (num q) (high (num q)) (low (num q)) }
    ensures symbols { (x : List ℕ) → IsTreeHeld (symbol x) (high (symbol x)) (low (symbol x)) }
    ensures undef { (t : Tree) → IsTreeHeld undef (high t) (low t) }
    ensures sums { (ts us : Trees) → AreTreesHeld us (bounds_of_each ts) → IsSumHeld (addends_of_each us) (high (add ts)) (low (add ts)) }
    ensures opposites { (a : Tree) (xs : List Addend) → IsSumHeld xs (high a) (low a)
        → IsSumHeld (distributed surd_minus_one xs) (high (neg a)) (low (neg a)) }
    ensures differences { (a b : Tree) (xs ys : List Addend) → IsSumHeld xs (high a) (low a) → IsSumHeld ys (high b) (low b)
        → IsSumHeld (xs ++ distributed surd_minus_one ys) (high (sub a b)) (low (sub a b)) }
    ensures products { (ts us : Trees) → AreComplete ts → AreTreesHeld us (bounds_of_each ts)
        → IsSumHeld (product_of us ∷ []) (high (mult ts)) (low (mult ts)) }
    ensures quotients { (a b : Tree) (x y z : Addend) → IsAddendPower (negsuc 0) y z → IsZeroAlone y → IsSumHeld (x ∷ []) (high a) (low a)
        → IsSumHeld (y ∷ []) (high b) (low b) → IsSumHeld (multiplied x z ∷ []) (high (div a b)) (low (div a b)) }
    ensures powers { (b e : Tree) (n : ℤ) (x y : Addend) → or_literal (whole_literal e) (half_literal e) ≡ Some n → IsAddendPower n x y
        → IsZeroAlone x → IsSumHeld (x ∷ []) (high b) (low b) → IsSumHeld (y ∷ []) (high (power b e)) (low (power b e)) }
    ensures kept_powers { (b e c d : Tree) (n : ℤ) → or_literal (whole_literal e) (half_literal e) ≡ Some n → is_counted d ≡ true
        → IsWithin (counts_of d) (multiple n (counts 1 0)) → IsComplete b → IsTreeHeld c (high b) (low b)
        → IsTreeHeld (power c d) (high (power b e)) (low (power b e)) }
    ensures rationals_to_symbols { (q : Fraction) (x : List ℕ)
        → IsTreeHeld (power (num q) (symbol x)) (high (power (num q) (symbol x))) (low (power (num q) (symbol x))) }
    ensures symbols_to_symbols { (x y : List ℕ)
        → IsTreeHeld (power (symbol x) (symbol y)) (high (power (symbol x) (symbol y))) (low (power (symbol x) (symbol y))) }
    ensures roots { (a b : Tree) → IsComplete a → is_number (root b) ≡ false → IsTreeHeld b (high a) (low a)
        → IsTreeHeld (root b) (high (root a)) (low (root a)) }
{}
