//! The reduced tree of a constant and multiples of names.
ghost use Rattle.std.specs.Prelude.{◌≡◌, ◌≤◌, ◌<◌, ◌+◌, [], map, length, IfOk, IfErr, IsOk, OnOk};
ghost use Rattle.calc_terms.specs.Leaf.{name_of};
ghost use Rattle.calc_terms.specs.Rat.{value_of};
ghost use Rattle.calc_terms.specs.Fractions.{is_zero_fraction};
ghost use Rattle.calc_terms.specs.Trees.{Trees, append, size, sizes};
ghost use Rattle.dual_diff.specs.Placing.{Adds};
ghost use Rattle.linear_solve.specs.Told.{entries_of};
ghost use Rattle.node_pool.specs.State.{State, free_of};
ghost use Rattle.tree_handles.specs.Handed.{KeepsFront};
ghost use Rattle.tree_handles.specs.Standing.{LacksBytes, Refuses, Stands, forest};
ghost use Rattle.calc_session.specs.Forms.{IsPlaced};
ghost use Rattle.calc_session.specs.SolutionTexts.{form_tree, multiple_of, multiples, summands};

use calc_terms::{Kind, Name, Rat};
use linear_solve::NameRow;
use node_pool::{Full, Pool};
use tree_handles::{Handle, node_over_last, number, symbol};

/// Trees that were placed behind all others.
#[derive(Drop)]
struct Placed {
    trees: u16,
    last: Option<Handle>,
}

/// The reduced tree of a constant and multiples of names, behind all other trees.
pub fn place_form(
    pool: &mut Pool,
    names: &[Name],
    constant: Rat,
    coefs: &NameRow,
) -> Result<Handle, Full>
    requires stands { Stands pool.old }
    requires few { length names.now ≤ 6 }
    ensures ok { IfOk result (λ h. Adds pool.old pool.new (form_tree (map name_of names.now) (value_of constant) (entries_of coefs.now)) h) }

    // Room for the summands and a node over them is enough; 0 takes less than that.
    ensures enough { 16 + sizes (summands (map name_of names.now) (value_of constant) (entries_of coefs.now)) ≤ free_of pool.old → IsOk result }
    ensures refused { IfErr result (Refuses pool.old pool.new) }
    ensures caused { IfErr result (LacksBytes pool.new) }
    ensures front { KeepsFront [] (forest pool.old) (forest pool.new) }
    ensures stands { Stands pool.new }
{
    let begin = pool.used();
    let placed = place_constant(pool, constant)?;
    let placed = place_multiples(pool, names, coefs, placed)?;
    match placed.last {
        None => number(pool, Rat::whole(0)),
        Some(only) if placed.trees == 1 => Ok(only),
        Some(_) => node_over_last(pool, Kind::Add, placed.trees, begin),
    }
}

/// A constant behind all other trees, unless it is 0.
fn place_constant(pool: &mut Pool, constant: Rat) -> Result<Placed, Full>
    requires stands { Stands pool.old }
    ensures ok { IfOk result (IsPlaced pool.old pool.new (summands [] (value_of constant) [])) }
    ensures few { IfOk result (λ p. p.trees ≤ 1) }
    ensures enough { sizes (summands [] (value_of constant) []) ≤ free_of pool.old → IsOk result }
    ensures refused { IfErr result (Refuses pool.old pool.new) }
    ensures caused { IfErr result (LacksBytes pool.new) }
    ensures front { KeepsFront [] (forest pool.old) (forest pool.new) }
    ensures stands { Stands pool.new }
{
    if constant.num() == 0 {
        return Ok(Placed {
            trees: 0,
            last: None,
        });
    }
    let tree = number(pool, constant)?;
    Ok(Placed {
        trees: 1,
        last: Some(tree),
    })
}

/// The multiples of names behind the trees that were placed, but for those by 0.
fn place_multiples(
    pool: &mut Pool,
    names: &[Name],
    coefs: &NameRow,
    mut placed: Placed,
) -> Result<Placed, Full>
    requires stands { Stands pool.old }
    requires few { length names.now ≤ 6 }
    requires trees { placed.trees ≤ 1 }
    ensures ok { (s : State) (ts : Trees) → Stands s → IsPlaced s pool.old ts placed
        → IfOk result (IsPlaced s pool.new (append ts (multiples (map name_of names.now) (entries_of coefs.now)))) }
    ensures enough { sizes (multiples (map name_of names.now) (entries_of coefs.now)) ≤ free_of pool.old → IsOk result }
    ensures refused { IfErr result (Refuses pool.old pool.new) }
    ensures caused { IfErr result (LacksBytes pool.new) }
    ensures front { KeepsFront [] (forest pool.old) (forest pool.new) }
    ensures stands { Stands pool.new }
{
    for at in 0..names.len() {
        let coef = coefs.get(at);
        if coef.num() != 0 {
            let tree = place_multiple(pool, coef, names[at])?;
            placed = Placed {
                trees: placed.trees + 1,
                last: Some(tree),
            };
        }
    }
    Ok(placed)
}

/// A multiple of a name other than by 0, behind all other trees.
fn place_multiple(pool: &mut Pool, coef: Rat, name: Name) -> Result<Handle, Full>
    requires stands { Stands pool.old }
    ensures ok { IfOk result (λ h. Adds pool.old pool.new (multiple_of (value_of coef) (name_of name)) h) }
    ensures enough { size (multiple_of (value_of coef) (name_of name)) ≤ free_of pool.old → IsOk result }
    ensures refused { IfErr result (Refuses pool.old pool.new) }
    ensures caused { IfErr result (LacksBytes pool.new) }
    ensures front { KeepsFront [] (forest pool.old) (forest pool.new) }
    ensures stands { Stands pool.new }
{
    if coef.num() == 1 && coef.is_whole() {
        return symbol(pool, name);
    }
    let begin = pool.used();
    number(pool, coef)?;
    symbol(pool, name)?;
    node_over_last(pool, Kind::Mult, 2, begin)
}
