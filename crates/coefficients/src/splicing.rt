//! A coefficient is written before the factors of a part.
ghost use Rattle.std.specs.Prelude.{◌≡◌, ◌==◌, ◌≤◌, ◌↔◌, IfOk, IfErr, IsOk, OnOk, [], ◌∷◌, true, false};
ghost use Rattle.calc_terms.specs.Payload.{bare, size_of_payload};
ghost use Rattle.calc_terms.specs.Trees.{mult, more, append, is_mult};
ghost use Rattle.coefficients.specs.Bytes.{bytes_as_product};
ghost use Rattle.coefficients.specs.Coefficients.{spliced};
ghost use Rattle.node_pool.specs.State.{free_of};
ghost use Rattle.tree_handles.specs.Standing.{Stands, forest, KeepsRefusals, IsRefused};
ghost use Rattle.tree_handles.specs.Handed.{tree_of, IsHanded, Gives, KeepsFront};
ghost use Rattle.tree_handles.specs.Expressions.{children_of};
ghost use Rattle.tree_handles.specs.Roots.{without_root};

use crate::products::as_product;
use calc_terms::Kind;
use node_pool::{Full, Pool};
use tree_handles::{Handle, add_child, kind, merge_children, move_last};

/// A coefficient before the factors of a part; one that is a product itself is spliced. It is not
/// looked at what the two are.
pub(crate) fn splice(pool: &mut Pool, coefficient: Handle, part: Handle) -> Result<Handle, Full>
    requires stands { Stands pool.old }
    requires first { IsHanded coefficient (forest pool.old) }
    requires second { IsHanded part (forest pool.old) }
    requires apart { (coefficient == part) ≡ false }
    ensures ok { IfOk result (λ h. Gives (without_root coefficient (without_root part (forest pool.old))) (forest pool.new) h (λ t. t ≡ spliced (tree_of coefficient pool.old) (tree_of part pool.old))) }
    ensures front { KeepsFront (coefficient ∷ part ∷ []) (forest pool.old) (forest pool.new) }
    ensures kept { OnOk result (KeepsRefusals pool.old pool.new) }
    ensures full { IfErr result (IsRefused (size_of_payload (bare Kind.Mult)) pool.old pool.new) }
    ensures exactly { IsOk result ↔ (bytes_as_product (tree_of part pool.old) ≤ free_of pool.old) }
    ensures stands { Stands pool.new }
{
    match kind(pool, coefficient.id()) {
        Kind::Mult => {
            let product = as_product(pool, part)?;
            let spliced = put_factors(pool, product, coefficient);
            Ok(spliced)
        }
        _ => {
            let product = as_product(pool, part)?;
            let spliced = put_factor(pool, product, coefficient);
            Ok(spliced)
        }
    }
}

/// The factors of one product before those of another.
fn put_factors(pool: &mut Pool, product: Handle, factors: Handle) -> Handle
    requires stands { Stands pool.old }
    requires first { IsHanded product (forest pool.old) }
    requires second { IsHanded factors (forest pool.old) }
    requires apart { (product == factors) ≡ false }
    requires product { is_mult (tree_of product pool.old) ≡ true }
    requires factors { is_mult (tree_of factors pool.old) ≡ true }
    ensures tree { Gives (without_root product (without_root factors (forest pool.old))) (forest pool.new) result (λ t. t ≡ mult (append (children_of (tree_of factors pool.old)) (children_of (tree_of product pool.old)))) }
    ensures front { KeepsFront (product ∷ factors ∷ []) (forest pool.old) (forest pool.new) }
    ensures kept { KeepsRefusals pool.old pool.new }
    ensures stands { Stands pool.new }
{
    add_child(pool, &product, 0, factors);
    merge_children(pool, &product, 0);
    move_last(pool, &product);
    product
}

/// A factor before those of a product.
fn put_factor(pool: &mut Pool, product: Handle, factor: Handle) -> Handle
    requires stands { Stands pool.old }
    requires first { IsHanded product (forest pool.old) }
    requires second { IsHanded factor (forest pool.old) }
    requires apart { (product == factor) ≡ false }
    requires product { is_mult (tree_of product pool.old) ≡ true }
    ensures tree { Gives (without_root product (without_root factor (forest pool.old))) (forest pool.new) result (λ t. t ≡ mult (more (tree_of factor pool.old) (children_of (tree_of product pool.old)))) }
    ensures front { KeepsFront (product ∷ factor ∷ []) (forest pool.old) (forest pool.new) }
    ensures kept { KeepsRefusals pool.old pool.new }
    ensures stands { Stands pool.new }
{
    add_child(pool, &product, 0, factor);
    move_last(pool, &product);
    product
}
