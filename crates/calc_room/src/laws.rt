//! Laws of spans and of counts, each the contract of a function without a body.

ghost use Rattle.std.specs.Prelude.{ℕ, ◌≡◌, ◌↔◌, ◌+◌, ◌*◌, ◌-◌, ◌^◌, ◌≤◌, ◌<◌, List, [], ◌∷◌, ◌++◌, length, true, false};
ghost use Rattle.calc_terms.specs.Fractions.{Fraction};
ghost use Rattle.calc_terms.specs.Trees.{Tree, Trees, num, root, add, size, is_mult};
ghost use Rattle.calc_algebra.specs.Surds.{Surd, surd_scale, surd_times, surd_power};
ghost use Rattle.calc_algebra.specs.SquareClasses.{are_alike, Same, Inverts};
ghost use Rattle.calc_algebra.specs.Numbers.{is_number, AreTerms, Rises, terms_of, value, classes};
ghost use Rattle.calc_algebra.specs.Reduced.{is_reduced, is_transparent_power};
ghost use Rattle.calc_room.specs.Spans.{IsSpanned, Spans, SpansTree};
ghost use Rattle.calc_algebra.specs.Rewritings.{KeepsMeanings};
ghost use Rattle.calc_room.specs.Counts.{counted, root_terms};

/// What a list of radicands spans.
pub fn what_is_spanned()
    ensures one { (gs : List ℕ) → IsSpanned gs 1 }
    ensures alike { (gs : List ℕ) (r s : ℕ) → IsSpanned gs r → are_alike r s ≡ true → IsSpanned gs s }
    ensures products { (gs : List ℕ) (r s : ℕ) → IsSpanned gs r → IsSpanned gs s → IsSpanned gs (r * s) }
{}

/// What is left under a root once a square is taken out is spanned by what spans the radicand, and that by itself.
pub fn roots_are_spanned()
    ensures left { (gs : List ℕ) (r s t : ℕ) → IsSpanned gs r → r ≡ s * s * t → IsSpanned gs t }
    ensures itself { (r : ℕ) → 0 < r → IsSpanned (r ∷ []) r }
{}

/// What spans p * q spans the Number that is the root of the rational p/q.
pub fn roots_of_rationals_are_spanned()
    ensures { (gs : List ℕ) (q : Fraction) (t : Tree) → is_number t ≡ true → KeepsMeanings (root (num q)) t
        → SpansTree gs (root (num q)) → SpansTree gs t }
{}

/// A Number is spanned as a tree where its value is.
pub fn numbers_as_trees()
    ensures { (gs : List ℕ) (t : Tree) → is_number t ≡ true → SpansTree gs t ↔ Spans gs (value t) }
{}

/// What spans a list of terms spans each Number that is the same.
pub fn same_numbers_are_spanned()
    ensures { (gs : List ℕ) (t : Tree) (v : Surd) → is_number t ≡ true → Same (value t) v → Spans gs v → Spans gs (value t) }
{}

/// What spans surds spans their sums, products and powers.
pub fn sums_and_products_are_spanned()
    ensures sums { (gs : List ℕ) (v w : Surd) → Spans gs v → Spans gs w → Spans gs (v ++ w) }
    ensures multiples { (gs : List ℕ) (c : Fraction) (v : Surd) → Spans gs v → Spans gs (surd_scale c v) }
    ensures products { (gs : List ℕ) (v w : Surd) → Spans gs v → Spans gs w → Spans gs (surd_times v w) }
    ensures powers { (gs : List ℕ) (v : Surd) (n : ℕ) → Spans gs v → Spans gs (surd_power v n) }
{}

/// What spans a Number of one class or two spans its inverse.
pub fn inverses_are_spanned()
    ensures { (gs : List ℕ) (a t : Tree) → is_number a ≡ true → is_number t ≡ true → classes a ≤ 2
        → Inverts (value t) (value a) → Spans gs (value a) → Spans gs (value t) }
{}

/// How many classes and bytes a Number has whose radicands are spanned. A choice is left to the rational.
pub fn numbers_are_small()
    ensures classes { (gs : List ℕ) (t : Tree) → is_number t ≡ true → Spans gs (value t) → classes t ≤ 2 ^ length gs }
    ensures roots { (gs : List ℕ) (t : Tree) → is_number t ≡ true → Spans gs (value t) → root_terms (value t) + 1 ≤ 2 ^ length gs }
    ensures bytes { (gs : List ℕ) (t : Tree) → is_number t ≡ true → Spans gs (value t) → size t ≤ 96 * 2 ^ length gs - 48 }
{}

/// What spans it and how many bytes it has, of a sum of any number of terms, as it stands while it is made.
pub fn partial_sums_are_small()
    ensures spanned { (gs : List ℕ) (ts : Trees) (v : Surd) → AreTerms ts → Rises (terms_of ts) → Same (terms_of ts) v → Spans gs v
        → Spans gs (terms_of ts) }
    ensures bytes { (gs : List ℕ) (ts : Trees) (v : Surd) → AreTerms ts → Rises (terms_of ts) → Same (terms_of ts) v → Spans gs v
        → size (add ts) ≤ 96 * 2 ^ length gs - 48 }
{}

/// What spans Numbers, as trees, spans Numbers that are their sum, their product, a power or an inverse.
pub fn answers_are_spanned()
    ensures sums { (gs : List ℕ) (a b t : Tree) → is_number a ≡ true → is_number b ≡ true → is_number t ≡ true
        → Same (value t) (value a ++ value b) → SpansTree gs a → SpansTree gs b → SpansTree gs t }
    ensures products { (gs : List ℕ) (a b t : Tree) → is_number a ≡ true → is_number b ≡ true → is_number t ≡ true
        → Same (value t) (surd_times (value a) (value b)) → SpansTree gs a → SpansTree gs b → SpansTree gs t }
    ensures powers { (gs : List ℕ) (a t : Tree) (n : ℕ) → is_number a ≡ true → is_number t ≡ true
        → Same (value t) (surd_power (value a) n) → SpansTree gs a → SpansTree gs t }
    ensures inverses { (gs : List ℕ) (a t : Tree) → is_number a ≡ true → is_number t ≡ true → classes a ≤ 2
        → Inverts (value t) (value a) → SpansTree gs a → SpansTree gs t }
{}

/// How many bytes a reduced tree has. One that is no product leaves bytes for a product over it with a coefficient, and
/// where it is no power with a whole exponent either, for such a power, too.
pub fn reduced_trees_are_small()
    ensures factor { (gs : List ℕ) (t : Tree) → is_reduced t ≡ true → SpansTree gs t → is_mult t ≡ false
        → size t + 96 * 2 ^ length gs ≤ 204 * counted t * 2 ^ length gs + 40 }
    ensures base { (gs : List ℕ) (t : Tree) → is_reduced t ≡ true → SpansTree gs t → is_mult t ≡ false → is_transparent_power t ≡ false
        → size t + 96 * 2 ^ length gs + 8 ≤ 204 * counted t * 2 ^ length gs }
    ensures bytes { (gs : List ℕ) (t : Tree) → is_reduced t ≡ true → SpansTree gs t → size t ≤ 204 * counted t * 2 ^ length gs }
{}
