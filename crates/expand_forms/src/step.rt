//! One node over what has become of its children.
ghost use Rattle.std.specs.Prelude.{◌≡◌, ◌+◌, [], ◌∷◌, IfOk, IfErr, true};
ghost use Rattle.calc_measures.specs.Measures.{most_bits};
ghost use Rattle.calc_terms.specs.Trees.{Tree, size};
ghost use Rattle.expansions.specs.PolynomialTrees.{is_polynomial};
ghost use Rattle.expand_forms.specs.PowersOfSums.{IsOverReady, IsReadyFrom};
ghost use Rattle.expand_forms.specs.Walks.{IsPolynomial, MayLack};
ghost use Rattle.node_pool.specs.State.{free_of};
ghost use Rattle.reduce_walk.specs.Answers.{IsOverSome};
ghost use Rattle.std.specs.Prelude.{◌<◌};
ghost use Rattle.tree_handles.specs.Lacking.{OfFull};
ghost use Rattle.tree_handles.specs.Faults.{OfOverflow};
ghost use Rattle.tree_handles.specs.Handed.{Ends, Gives, IsHanded, tree_of};
ghost use Rattle.tree_handles.specs.Roots.{root_tree, without_root};
ghost use Rattle.tree_handles.specs.Standing.{Stands, forest};
ghost use Rattle.number_forms.specs.Safety.{IsSafe};

use crate::by_values::expand_values;
use crate::node::{expand_by_trees, place_listed};
use crate::powers_of_sums::{is_left, raise_powers};
use crate::term_lists::TermLists;
use node_pool::Pool;
use tree_handles::{Handle, NumberFault};

/// What becomes of a node over what has become of its children, which is consumed: the node itself where it is a power of a sum of
/// few terms, and the expanded tree otherwise. It is not inlined, so that the walk keeps little of the machine's stack for each level.
#[inline(never)]
pub(crate) fn expand_next(
    pool: &mut Pool,
    tree: Handle,
    lists: &mut TermLists,
) -> Result<Handle, NumberFault>
    requires stands { Stands pool.old }
    requires handed { IsHanded tree (forest pool.old) }
    requires last { Ends tree (root_tree tree (forest pool.old)) (without_root tree (forest pool.old)) (forest pool.old) }
    requires over { IsOverSome IsPolynomial IsReadyFrom (tree_of tree pool.old) }
    ensures ok { (whole : Tree) → is_polynomial whole ≡ true → IsOverReady whole (tree_of tree pool.old)
        → IfOk result (λ h. Gives (without_root tree (forest pool.old)) (forest pool.new) h (IsReadyFrom whole)) }
    ensures fits { (whole : Tree) → is_polynomial whole ≡ true → IsOverReady whole (tree_of tree pool.old) → IfErr result (OfOverflow (λ o. 124 < most_bits whole)) }
    ensures room { (whole : Tree) → is_polynomial whole ≡ true → IsOverReady whole (tree_of tree pool.old)
        → IfErr result (OfFull (λ full. MayLack whole (free_of pool.old + size (tree_of tree pool.old)))) }
    ensures safe { IsSafe (tree ∷ []) pool.old pool.new result }
{
    if is_left(pool, tree.id()) {
        return Ok(tree);
    }
    if expand_values(pool, tree.id(), lists) {
        return Ok(place_listed(pool, tree, lists)?);
    }
    let raised = raise_powers(pool, tree, lists)?;
    expand_by_trees(pool, raised)
}
