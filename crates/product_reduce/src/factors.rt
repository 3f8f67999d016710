//! The factors of a product by their places; products among them are opened.
ghost use Rattle.std.specs.Prelude.{◌≡◌, ◌<◌, true};
ghost use Rattle.calc_terms.specs.Trees.{count, is_add, is_mult, has_undef};
ghost use Rattle.product_reduce.specs.Factors.{opened};
ghost use Rattle.product_reduce.specs.Products.{IsProduct, Becomes, factors_in};
ghost use Rattle.tree_handles.specs.Expressions.{IsExpression, plain, nth};
ghost use Rattle.tree_handles.specs.Inside.{tree_at};
ghost use Rattle.tree_handles.specs.Standing.{Stands, forest, KeepsRefusals};

use calc_terms::Kind;
use like_children::{Opens, open_children};
use node_pool::{Id, Pool};
use tree_handles::{Handle, child_id, children, has_undefined_child, kind};

/// How many factors a product has.
pub fn factor_count(pool: &Pool, product: &Handle) -> u16
    requires stands { Stands pool.now }
    requires product { IsProduct product.now (forest pool.now) (factors_in product.now (forest pool.now)) }
    ensures { result ≡ count (factors_in product.now (forest pool.now)) }
{
    children(pool, product.id())
}

/// The factor at a place.
pub fn factor(pool: &Pool, product: &Handle, at: u16) -> Id
    requires stands { Stands pool.now }
    requires product { IsProduct product.now (forest pool.now) (factors_in product.now (forest pool.now)) }
    requires within { at < count (factors_in product.now (forest pool.now)) }
    ensures expression { IsExpression result (forest pool.now) }
    ensures tree { plain (tree_at result (forest pool.now)) ≡ nth at (factors_in product.now (forest pool.now)) }
{
    child_id(pool, product.id(), at)
}

pub fn is_product(pool: &Pool, id: Id) -> bool
    requires stands { Stands pool.now }
    requires expression { IsExpression id (forest pool.now) }
    ensures { result ≡ is_mult (plain (tree_at id (forest pool.now))) }
{
    matches!(kind(pool, id), Kind::Mult)
}

pub fn is_sum(pool: &Pool, id: Id) -> bool
    requires stands { Stands pool.now }
    requires expression { IsExpression id (forest pool.now) }
    ensures { result ≡ is_add (plain (tree_at id (forest pool.now))) }
{
    matches!(kind(pool, id), Kind::Add)
}

/// Whether some factor is Undef.
pub fn has_undef_factor(pool: &Pool, product: &Handle) -> bool
    requires stands { Stands pool.now }
    requires product { IsProduct product.now (forest pool.now) (factors_in product.now (forest pool.now)) }
    ensures { result ≡ has_undef (factors_in product.now (forest pool.now)) }
{
    has_undefined_child(pool, product.id())
}

/// Products give way to their factors.
struct Products;

impl Opens for Products {
    ghost use Rattle.std.specs.Prelude.{⊤};
    ghost use Rattle.coefficients.specs.Coefficients.{factors_of};

    ghost parts = { factors_of };

    ghost can_tell = { λ t. ⊤ };

    #[tactic(auto, using(crate::proofs::Places::product_opens))]
    fn opens(&self, pool: &Pool, id: Id) -> bool {
        is_product(pool, id)
    }
}

/// The factors of each factor that is a product take its place.
pub fn open_products(pool: &mut Pool, product: &Handle)
    requires stands { Stands pool.old }
    requires product { IsProduct product.now (forest pool.old) (factors_in product.now (forest pool.old)) }
    ensures opened { Becomes product.now (forest pool.old) (forest pool.new) (opened (factors_in product.now (forest pool.old))) }
    ensures kept { KeepsRefusals pool.old pool.new }
    ensures stands { Stands pool.new }
{
    open_children(pool, product, &Products);
}
