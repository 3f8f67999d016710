//! A tree as a product of factors, and a product of one factor as that factor.
ghost use Rattle.std.specs.Prelude.{◌≡◌, ◌≤◌, ◌↔◌, IfOk, IfErr, IsOk, OnOk, [], ◌∷◌, true};
ghost use Rattle.calc_terms.specs.Payload.{rational, bare, size_of_payload};
ghost use Rattle.calc_terms.specs.Rat.{ratio_of, value_of};
ghost use Rattle.calc_algebra.specs.Reduced.{product_tree};
ghost use Rattle.calc_terms.specs.Trees.{mult, num, more, count, is_mult};
ghost use Rattle.coefficients.specs.Bytes.{bytes_as_product};
ghost use Rattle.coefficients.specs.Coefficients.{factors_of};
ghost use Rattle.node_pool.specs.State.{free_of};
ghost use Rattle.tree_handles.specs.Standing.{Stands, forest, KeepsRefusals, IsRefused};
ghost use Rattle.tree_handles.specs.Handed.{tree_of, IsHanded, Gives, KeepsFront};
ghost use Rattle.tree_handles.specs.Expressions.{children_of};
ghost use Rattle.tree_handles.specs.Roots.{without_root};

use calc_terms::{Kind, Rat};
use node_pool::{Full, Pool};
use tree_handles::{
    Handle, add_child, children, kind, move_last, node_over, number, release, take_child,
};

/// A product itself, and a product of one factor for any other tree.
pub(crate) fn as_product(pool: &mut Pool, tree: Handle) -> Result<Handle, Full>
    requires stands { Stands pool.old }
    requires handed { IsHanded tree (forest pool.old) }
    ensures ok { IfOk result (λ h. Gives (without_root tree (forest pool.old)) (forest pool.new) h (λ t. t ≡ mult (factors_of (tree_of tree pool.old)))) }
    ensures front { KeepsFront (tree ∷ []) (forest pool.old) (forest pool.new) }
    ensures kept { OnOk result (KeepsRefusals pool.old pool.new) }
    ensures full { IfErr result (IsRefused (size_of_payload (bare Kind.Mult)) pool.old pool.new) }
    ensures exactly { IsOk result ↔ (bytes_as_product (tree_of tree pool.old) ≤ free_of pool.old) }
    ensures stands { Stands pool.new }
{
    match kind(pool, tree.id()) {
        Kind::Mult => {
            move_last(pool, &tree);
            Ok(tree)
        }
        _ => { node_over(pool, Kind::Mult, tree) }
    }
}

/// The only factor of a product of one, and any other product itself.
pub fn unwrapped(pool: &mut Pool, product: Handle) -> Handle
    requires stands { Stands pool.old }
    requires handed { IsHanded product (forest pool.old) }
    requires product { is_mult (tree_of product pool.old) ≡ true }
    requires some { 1 ≤ count (children_of (tree_of product pool.old)) }
    ensures tree { Gives (without_root product (forest pool.old)) (forest pool.new) result (λ t. t ≡ product_tree (children_of (tree_of product pool.old))) }
    ensures front { KeepsFront (product ∷ []) (forest pool.old) (forest pool.new) }
    ensures kept { KeepsRefusals pool.old pool.new }
    ensures stands { Stands pool.new }
{
    if children(pool, product.id()) == 1 {
        let only = take_child(pool, &product, 0);
        release(pool, product);
        only
    } else {
        move_last(pool, &product);
        product
    }
}

/// A rational before the factors of a product.
pub(crate) fn put_first(pool: &mut Pool, q: Rat, product: Handle) -> Result<Handle, Full>
    requires stands { Stands pool.old }
    requires handed { IsHanded product (forest pool.old) }
    requires product { is_mult (tree_of product pool.old) ≡ true }
    ensures ok { IfOk result (λ h. Gives (without_root product (forest pool.old)) (forest pool.new) h (λ t. t ≡ mult (more (num (value_of q)) (children_of (tree_of product pool.old))))) }
    ensures front { KeepsFront (product ∷ []) (forest pool.old) (forest pool.new) }
    ensures kept { OnOk result (KeepsRefusals pool.old pool.new) }
    ensures full { IfErr result (IsRefused (size_of_payload (rational (ratio_of q))) pool.old pool.new) }
    ensures exactly { IsOk result ↔ (size_of_payload (rational (ratio_of q)) ≤ free_of pool.old) }
    ensures stands { Stands pool.new }
{
    let factor = number(pool, q)?;
    add_child(pool, &product, 0, factor);
    move_last(pool, &product);
    Ok(product)
}
