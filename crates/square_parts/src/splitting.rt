//! The square part of a number.
ghost use Rattle.std.specs.Prelude.{◌≡◌, ◌*◌, ◌<◌, ◌≤◌, ◌^◌};
ghost use Rattle.calc_algebra.specs.Clean.{IsClean};
ghost use Rattle.square_parts.specs.Divisors.{HasNoOtherDivisor};
ghost use Rattle.square_parts.specs.Found.{number_of, IsFound};

use crate::division::Found;
use crate::primes::odd_primes;
use rational128::isqrt;

/// The square of the trial limit.
const SQUARE_OF_TRIAL_LIMIT: u128 = 100_000_000;

/// s and t where r = s * s * t and t is clean: no square of a number from 2 to 10,000 divides t,
/// and what is left of t when all divisors from 2 to 10,000 are divided out is no square above 1.
/// So s is 1 exactly where r is clean.
pub fn split(r: u128) -> (u128, u128)
    requires positive { 1 ≤ r }
    requires fits { r < 2 ^ 127 }
    ensures product { r ≡ result.0 * result.0 * result.1 }
    ensures clean { IsClean result.1 }
    ensures untaken { IsClean r → result.0 ≡ 1 }
{
    let whole = Found {
        root: 1,
        clean: 1,
        rest: r,
    };
    let primes = odd_primes();
    parts_of(whole.divided_by(2).divided_by_primes(primes))
}

/// The square part and the clean part, once the numbers up to the trial limit are divided out.
fn parts_of(found: Found) -> (u128, u128)
    requires found { IsFound found }
    requires no_other { HasNoOtherDivisor found.rest }
    ensures product { number_of found ≡ result.0 * result.0 * result.1 }
    ensures clean { IsClean result.1 }
    ensures untaken { IsClean (number_of found) → result.0 ≡ 1 }
{
    // A square up to this one would have its root among the divisors.
    if SQUARE_OF_TRIAL_LIMIT < found.rest {
        let root = isqrt(found.rest);
        if root * root == found.rest {
            return (found.root * root, found.clean);
        }
    }
    (found.root, found.clean * found.rest)
}
