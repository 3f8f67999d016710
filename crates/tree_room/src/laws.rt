//! Laws of room, each the contract of a function without a body. In all of them m stands for how many products of radicands
//! may be chosen, and s for the bytes of the trees that a call keeps while another runs.

ghost use Rattle.std.specs.Prelude.{ℕ, ◌≡◌, ◌+◌, ◌*◌, ◌^◌, ◌≤◌, List, length, ◌++◌, Contains, true, false};
ghost use Rattle.calc_algebra.specs.Meanings.{Assignment, IsAssignment};
ghost use Rattle.calc_algebra.specs.Numbers.{is_number};
ghost use Rattle.calc_algebra.specs.Reduced.{are_reduced, is_half_num, is_reduced, is_whole_num, none_is};
ghost use Rattle.calc_algebra.specs.Reduced.{part_of, split_product, product_tree};
ghost use Rattle.calc_algebra.specs.Rewritings.{KeepsMeanings};
ghost use Rattle.calc_measures.specs.Literals.{is_whole_literal};
ghost use Rattle.calc_measures.specs.Measures.{all_simple, room, roots};
ghost use Rattle.calc_room.specs.Counts.{counted, counted_among};
ghost use Rattle.calc_room.specs.Needs.{product_need, power_need};
ghost use Rattle.calc_room.specs.Powers.{HasPowersOf};
ghost use Rattle.calc_room.specs.Spans.{SpansTree, SpansTrees};
ghost use Rattle.calc_terms.specs.Fractions.{Fraction};
ghost use Rattle.calc_terms.specs.Trees.{Tree, num, symbol, add, mult, power, root, neg, sub, div, Trees, none, more};
ghost use Rattle.calc_terms.specs.Trees.{append, count, is_mult, is_num, nodes, size, sizes};
ghost use Rattle.tree_room.specs.Children.{CountWithin, answer_bytes, answers_bytes};
ghost use Rattle.tree_room.specs.Exponents.{MeansWhole, IsCalm, AreCalm, zeros};
ghost use Rattle.tree_room.specs.Handed.{counted_in_all, sum_count, product_count, exponent_count, HaveSameParts};
ghost use Rattle.tree_room.specs.Needs.{tree_bytes, sum_room, product_step_room, product_room, simple_room};
ghost use Rattle.tree_room.specs.Needs.{power_step_room, power_room, product_power_room, kept_power_room, half_power_room};

/// Steps have room for calls on Numbers: beside the terms of a sum and the factors of a product, and alone on the power of a Number,
/// with the node of that power. A step on the power of a product has room for its factors, each raised, and one more node.
pub fn steps_have_room()
    ensures in_sums { (h m s : ℕ) → s ≤ tree_bytes h m → s + product_need * m ≤ sum_room h m }
    ensures in_products { (h m s : ℕ) → s ≤ tree_bytes h m → s + product_need * m ≤ product_step_room h m }
    ensures in_powers { (m : ℕ) → 1 ≤ m → 48 + power_need * m ≤ power_step_room 1 m }
    ensures raised { (c m s : ℕ) → 1 ≤ m → s ≤ tree_bytes c m + 96 * m + 8 → s + 48 ≤ power_step_room c m }
{}

/// Powers under way have room for the calls on their parts: c counts in the base.
pub fn parts_of_powers_have_room()
    ensures step { (c m : ℕ) → power_step_room c m ≤ power_room c m }
    ensures step_on_a_product { (c m : ℕ) → power_step_room c m ≤ product_power_room c m }

    // A power of a smaller base of b, as that of a root or of a power: whole, where the base may be a product, or kept with an
    // exponent that counts g.
    ensures smaller { (b c m : ℕ) → b ≤ c → power_room b m ≤ power_room c m }
    ensures smaller_product { (b c m : ℕ) → 1 + b ≤ c → product_power_room b m ≤ power_room c m }
    ensures smaller_and_kept { (b c g m : ℕ) → b + g ≤ c + 2 → kept_power_room b g m ≤ power_room c m }

    // A power of a power: beside its base of c, the exponents are multiplied, of which the inner adds x to the count.
    ensures exponents { (c x m s : ℕ) → s ≤ tree_bytes c m → s + product_room (2 + x) m ≤ power_room (c + x) m }

    // A power of a product: beside the powers of other factors, of r, and of the coefficient, one factor is raised; then the powers
    // are multiplied.
    ensures factor { (c r m s : ℕ) → 1 ≤ m → s ≤ tree_bytes r m + 96 * m + 8 → s + power_room c m ≤ product_power_room (r + c) m }
    ensures coefficient { (c m s : ℕ) → 1 ≤ m → 1 ≤ c → s ≤ tree_bytes c m + 8 → s + power_room 1 m ≤ product_power_room c m }
    ensures product { (c h m : ℕ) → h ≤ c + 3 → product_room h m ≤ product_power_room c m }

    // A power with half of an odd number: the root counts one more than its argument.
    ensures half { (c m : ℕ) → power_room (1 + c) (2 * m) ≤ half_power_room c m }
{}

/// A product under way has room for joining two powers of a base of c, whose exponents add x and y to its count, beside other
/// factors of r or a coefficient: for the sum of the exponents, and for the power of that sum, which is whole or counts g.
pub fn joins_have_room()
    ensures step { (h m : ℕ) → product_step_room h m ≤ product_room h m }
    ensures again { (h k m : ℕ) → h ≤ k → product_room h m ≤ product_room k m }
    ensures exponents { (c r x y h m s : ℕ) → h ≤ 3 + x + y → s ≤ tree_bytes (r + c) m
        → s + sum_room h m ≤ product_room (2 + 2 * c + x + y + r) m }
    ensures whole_power { (c r m s : ℕ) → 1 ≤ c → s ≤ tree_bytes r m + 96 * m → s + power_room c m ≤ product_room (2 + 2 * c + r) m }
    ensures whole_power_of_a_product { (c r x y m s : ℕ) → 1 ≤ c → 1 ≤ x + y → s ≤ tree_bytes r m + 96 * m
        → s + product_power_room c m ≤ product_room (2 + 2 * c + x + y + r) m }
    ensures other_power { (c r x y g m s : ℕ) → g ≤ 1 + x + y → s ≤ tree_bytes r m + 96 * m
        → s + kept_power_room c g m ≤ product_room (2 + 2 * c + x + y + r) m }
{}

/// The room of a tree suffices for its node, whose children count a and b, and n nodes are in the tree.
pub fn nodes_have_room()
    ensures sum { (h n m : ℕ) → 1 ≤ h → h ≤ n → sum_room h m ≤ simple_room n m }
    ensures product { (h n m : ℕ) → 2 ≤ n → h ≤ n + 1 → product_room h m ≤ simple_room n m }
    ensures opposite { (a n m : ℕ) → 1 ≤ a → 1 + a ≤ n → product_room (2 + a) m ≤ simple_room n m }
    ensures second_opposite { (a b n m s : ℕ) → 1 ≤ a → 1 ≤ b → 1 ≤ m → 1 + a + b ≤ n → s ≤ tree_bytes a m + 8
        → s + product_room (2 + b) m ≤ simple_room n m }
    ensures whole_power { (a n m : ℕ) → 2 + a ≤ n → product_power_room a m ≤ simple_room n m }
    ensures half_power { (a n m : ℕ) → 2 + a ≤ n → half_power_room a m ≤ simple_room n (2 * m) }
    ensures kept_power { (a b n m : ℕ) → 1 ≤ a → 1 + a + b ≤ n → kept_power_room a b m ≤ simple_room n m }
    ensures inverse { (a b n m s : ℕ) → 1 ≤ a → 1 ≤ b → 1 ≤ m → 1 + a + b ≤ n → s ≤ tree_bytes a m + 8
        → s + product_power_room b m ≤ simple_room n m }
    ensures quotient { (a b n m : ℕ) → 1 ≤ a → 1 ≤ b → 1 + a + b ≤ n → product_room (3 + a + b) m ≤ simple_room n m }

    // Beside reduced children there is room for a term, or for nodes of 96 bytes together.
    ensures placing { (a n m s : ℕ) → 1 ≤ m → 1 ≤ n → a ≤ n → s ≤ tree_bytes a m → s + 96 ≤ simple_room n m }
{}

/// What counts among children. A Number is free there, though it counts 1 by itself, and so is a sum or a product whose children
/// are spliced.
pub fn children_counted()
    ensures one_at_least { (t : Tree) → 1 ≤ counted t }
    ensures number { (t : Tree) → is_number t ≡ true → counted t ≡ 1 }
    ensures coefficient { (c : Tree) (ts : Trees) → is_number c ≡ true → counted_among (more c ts) ≡ counted_among ts }
    ensures other { (t : Tree) (ts : Trees) → is_number t ≡ false → counted_among (more t ts) ≡ counted t + counted_among ts }
    ensures appended { (ts us : Trees) → counted_among (append ts us) ≡ counted_among ts + counted_among us }
    ensures all_appended { (ts us : Trees) → counted_in_all (append ts us) ≡ counted_in_all ts + counted_in_all us }
    ensures flat_sum { (ts us : Trees) → counted_among (append ts us) ≤ counted_among (more (add ts) us) }
    ensures flat_product { (ts us : Trees) → counted_among (append ts us) ≤ counted_among (more (mult ts) us) }
{}

/// What is handed to a product counts more than its factors that are no Numbers, little more than all of them, and no more than before
/// where one tree takes the places of two factors and counts no more than both.
pub fn products_counted()
    ensures at_least { (ts : Trees) → 2 + counted_among ts ≤ product_count ts }
    ensures at_most { (ts : Trees) → product_count ts ≤ 2 + counted_in_all ts }
    ensures joined { (t u r : Tree) (ts us vs : Trees) → is_number t ≡ false → is_number u ≡ false → counted r ≤ counted t + counted u
        → product_count (append ts (more r (append us vs))) ≤ product_count (append ts (more t (append us (more u vs)))) }
{}

/// A coefficient changes no count, where it is put before a part, spliced, or spread over a sum.
pub fn coefficients_are_free()
    ensures factors { (ts : Trees) → counted_among (split_product ts).factors ≡ counted_among ts }
    ensures product { (ts : Trees) → counted (product_tree ts) ≡ counted (mult ts) }
    ensures part { (t : Tree) → counted (part_of t) ≡ counted t }
    ensures before_a_part { (c : Tree) (ts : Trees) → is_number c ≡ true → counted (mult (more c ts)) ≡ counted (product_tree ts) }
    ensures same_parts { (ts us : Trees) → HaveSameParts ts us → counted_among ts ≡ counted_among us }
    ensures like_terms { (t u r : Tree) (ts : Trees) → is_number t ≡ false → part_of r ≡ part_of t
        → counted_among (more r ts) ≤ counted_among (more t (more u ts)) }
    ensures spread { (q : Fraction) (ts us : Trees) → HaveSameParts ts us
        → counted (add us) ≤ counted (mult (more (num q) (more (add ts) none))) }
{}

/// How powers count, with g the exponent that stands for two: their sum where two powers of one base are joined, and their product
/// where a power is raised.
pub fn powers_counted()
    ensures exponent { (b e : Tree) → counted (power b e) ≡ counted b + exponent_count e }
    ensures sum { (e f : Tree) → sum_count (more e (more f none)) ≤ 3 + exponent_count e + exponent_count f }
    ensures product { (e f : Tree) → is_whole_num e ≡ true → product_count (more f (more e none)) ≤ 2 + exponent_count f }
    ensures joined { (b e f g : Tree) → (is_whole_num e ≡ true → is_whole_num f ≡ true → is_whole_num g ≡ true)
        → counted g ≤ 1 + counted_among (more e (more f none))
        → counted (power b g) ≤ (counted b + exponent_count e) + (counted b + exponent_count f) }
    ensures of_a_root { (a : Tree) → is_num a ≡ false → counted (root a) ≡ 1 + counted a }
    ensures of_a_power { (c e f g : Tree) → is_whole_num e ≡ true → (is_whole_num f ≡ true → is_whole_num g ≡ true)
        → counted g ≤ counted (mult (more f (more e none))) → counted (power c g) ≤ counted (power (power c f) e) }
    ensures of_a_factor { (f e : Tree) (ts : Trees) → is_whole_num e ≡ true
        → counted_among (more (power f e) ts) ≡ counted f + counted_among ts }
{}

/// From children to the node: where the answers r of its children count at most their nodes, the node's answer counts at most its
/// own, and what is handed to a sum or a product counts little more.
pub fn counts_within_nodes()
    ensures sums { (rs ts : Trees) → CountWithin rs ts → counted (add rs) ≤ nodes (add ts) }
    ensures handed_sums { (rs ts : Trees) → CountWithin rs ts → sum_count rs ≤ nodes (add ts) }
    ensures products { (rs ts : Trees) → CountWithin rs ts → 1 ≤ count ts → 1 + counted (mult rs) ≤ nodes (mult ts) }
    ensures handed_products { (rs ts : Trees) → CountWithin rs ts → product_count rs ≤ nodes (mult ts) + 1 }
    ensures opposites { (r a : Tree) → counted r ≤ nodes a → 1 + counted r ≤ nodes (neg a) }
    ensures differences { (r s a b : Tree) → counted r ≤ nodes a → counted s ≤ nodes b → 1 + counted r + counted s ≤ nodes (sub a b) }
    ensures quotients { (r s a b : Tree) → counted r ≤ nodes a → counted s ≤ nodes b → 1 + counted r + counted s ≤ nodes (div a b) }
    ensures roots { (r a : Tree) → counted r ≤ nodes a → 1 + counted r ≤ nodes (root a) }

    // Of a power with any exponent, and of one that is kept.
    ensures powers { (r b e : Tree) → counted r ≤ nodes b → 2 + counted r ≤ nodes (power b e) }
    ensures kept_powers { (r s b e : Tree) → counted r ≤ nodes b → counted s ≤ nodes e → 1 + counted r + counted s ≤ nodes (power b e) }
{}

/// The answer of a tree has few bytes beside the room of the tree, and so has the tree as it is written.
pub fn answers_are_small()
    ensures reduced { (gs : List ℕ) (t r : Tree) → is_reduced r ≡ true → SpansTree gs r → counted r ≤ nodes t → length gs ≤ roots t
        → size r ≤ answer_bytes t }
    ensures written { (t : Tree) → size t ≤ answer_bytes t }
    ensures all_written { (ts : Trees) → sizes ts ≤ answers_bytes ts }
    ensures five_times { (t : Tree) → all_simple t ≡ true → 5 * answer_bytes t ≤ room t }
{}

/// How many bytes reduced trees have that gs spans: what is handed to a sum or a product, factors, and powers under way.
pub fn handed_trees_are_small()
    ensures sums { (gs : List ℕ) (ts : Trees) → are_reduced ts ≡ true → SpansTrees gs ts
        → size (add ts) ≤ tree_bytes (sum_count ts) (2 ^ length gs) }
    ensures products { (gs : List ℕ) (ts : Trees) → are_reduced ts ≡ true → SpansTrees gs ts
        → size (mult ts) ≤ tree_bytes (product_count ts) (2 ^ length gs) }
    ensures factors { (gs : List ℕ) (ts : Trees) → are_reduced ts ≡ true → SpansTrees gs ts → none_is is_number ts ≡ true
        → sizes ts ≤ tree_bytes (counted_among ts) (2 ^ length gs) }
    ensures raised_factors { (gs : List ℕ) (t e : Tree) → is_reduced t ≡ true → SpansTree gs t → is_mult t ≡ false → is_whole_num e ≡ true
        → size (power t e) ≤ tree_bytes (counted t) (2 ^ length gs) }
    ensures raised_numbers { (gs : List ℕ) (t e : Tree) → is_number t ≡ true → SpansTree gs t → is_whole_num e ≡ true
        → size (power t e) ≤ 96 * 2 ^ length gs }
{}

/// The room of a tree whose powers are simple, by its nodes and by what may span its answer.
pub fn rooms_by_nodes()
    ensures simple { (t : Tree) → all_simple t ≡ true → room t ≡ simple_room (nodes t) (2 ^ roots t) }
    ensures spanned { (gs : List ℕ) (t : Tree) → all_simple t ≡ true → length gs ≤ roots t
        → simple_room (nodes t) (2 ^ length gs) ≤ room t }
{}

/// While one child is reduced in its own room, its parent and the other children, answered or not yet, stand within the parent's room.
pub fn children_have_room()
    ensures terms { (ts us : Trees) (t : Tree) → all_simple (add (append ts (more t us))) ≡ true
        → 8 + answers_bytes ts + answers_bytes us + room t ≤ room (add (append ts (more t us))) }
    ensures factors { (ts us : Trees) (t : Tree) → all_simple (mult (append ts (more t us))) ≡ true
        → 8 + answers_bytes ts + answers_bytes us + room t ≤ room (mult (append ts (more t us))) }
    ensures bases { (b e : Tree) → all_simple (power b e) ≡ true → 8 + answer_bytes e + room b ≤ room (power b e) }
    ensures exponents { (b e : Tree) → all_simple (power b e) ≡ true → 8 + answer_bytes b + room e ≤ room (power b e) }
    ensures arguments { (a : Tree) → all_simple (root a) ≡ true → 8 + room a ≤ room (root a) }
    ensures opposites { (a : Tree) → all_simple (neg a) ≡ true → 8 + room a ≤ room (neg a) }
    ensures minuends { (a b : Tree) → all_simple (sub a b) ≡ true → 8 + answer_bytes b + room a ≤ room (sub a b) }
    ensures subtrahends { (a b : Tree) → all_simple (sub a b) ≡ true → 8 + answer_bytes a + room b ≤ room (sub a b) }
    ensures dividends { (a b : Tree) → all_simple (div a b) ≡ true → 8 + answer_bytes b + room a ≤ room (div a b) }
    ensures divisors { (a b : Tree) → all_simple (div a b) ≡ true → 8 + answer_bytes a + room b ≤ room (div a b) }
{}

/// What spans a tree spans it together with more radicands, so that the lists of all children span each of their answers.
pub fn spans_together()
    ensures first { (gs hs : List ℕ) (t : Tree) → SpansTree gs t → SpansTree (gs ++ hs) t }
    ensures second { (gs hs : List ℕ) (t : Tree) → SpansTree hs t → SpansTree (gs ++ hs) t }
    ensures first_list { (gs hs : List ℕ) (ts : Trees) → SpansTrees gs ts → SpansTrees (gs ++ hs) ts }
    ensures second_list { (gs hs : List ℕ) (ts : Trees) → SpansTrees hs ts → SpansTrees (gs ++ hs) ts }
{}

/// Any names, each written once, can all be 0.
pub fn all_names_can_be_zero()
    ensures { (ns : List (List ℕ)) → (ms : List (List ℕ)) × IsAssignment (zeros ms) × ((x : List ℕ) → Contains ns x → Contains ms x) }
{}

/// What means a whole number under an assignment, so that it may stand as an exponent: where every name is 0, symbols do.
pub fn whole_meanings()
    ensures whole_numbers { (f : Assignment) (e : Tree) → is_whole_num e ≡ true → MeansWhole f e }
    ensures literals { (f : Assignment) (e : Tree) → is_whole_literal e ≡ true → MeansWhole f e }
    ensures symbols { (ns : List (List ℕ)) (x : List ℕ) → Contains ns x → MeansWhole (zeros ns) (symbol x) }
    ensures sums { (f : Assignment) (d e : Tree) → MeansWhole f d → MeansWhole f e → MeansWhole f (add (more d (more e none))) }
    ensures opposites { (f : Assignment) (e : Tree) → MeansWhole f e → MeansWhole f (neg e) }
    ensures multiples { (f : Assignment) (e n : Tree) → MeansWhole f e → is_whole_num n ≡ true
        → MeansWhole f (mult (more e (more n none))) }
    ensures rewritten { (f : Assignment) (d e : Tree) → IsAssignment f → KeepsMeanings d e → MeansWhole f d → MeansWhole f e }
    ensures no_half { (f : Assignment) (e : Tree) → MeansWhole f e → is_half_num e ≡ false }
{}

/// A tree is calm where its exponents mean whole numbers: so are Numbers, and trees whose powers are parts of calm ones.
pub fn calm_trees()
    ensures number { (f : Assignment) (t : Tree) → is_number t ≡ true → IsCalm f t }
    ensures parts { (f : Assignment) (ts : Trees) (t : Tree) → HasPowersOf ts t → AreCalm f ts → IsCalm f t }
    ensures joined { (f : Assignment) (ts us : Trees) → AreCalm f ts → AreCalm f us → AreCalm f (append ts us) }
{}
