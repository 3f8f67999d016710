//! Whether a number is clean.
ghost use Rattle.std.specs.Prelude.{◌≡◌, ◌≤◌, ◌<◌, ◌^◌};
ghost use Rattle.calc_algebra.specs.Clean.{is_clean};

use square_parts::split;

/// Whether a number is clean: no square is taken out of it.
pub(crate) fn is_clean(r: u128) -> bool
    requires positive { 1 ≤ r }
    requires fits { r < 2 ^ 127 }
    ensures { result ≡ is_clean r }
{
    let (root, _) = split(r);
    root == 1
}
