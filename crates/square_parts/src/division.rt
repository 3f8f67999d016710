//! Trial division, which takes the squares of small numbers out of a number.
ghost use Rattle.std.specs.Prelude.{◌≡◌, ◌≢◌, ◌↔◌, ◌%◌, ◌/◌, ◌+◌, ◌<◌, ◌≤◌, ◌^◌, IsTrue, ℕ, List, ◌∷◌, length, false};
ghost use Rattle.std.specs.Int.{◌∣◌};
ghost use Rattle.calc_algebra.specs.Clean.{trial_limit};
ghost use Rattle.square_parts.specs.Divisors.{HasNoDivisorBelow, HasNoOtherDivisor};
ghost use Rattle.square_parts.specs.Primes.{IsDividedBelow};

/// A number as root * root * clean * rest: its square part and its clean part as far as they are
/// found, and the rest.
#[derive(Clone, Copy)]
pub(crate) struct Found {
    pub(crate) root: u128,
    pub(crate) clean: u128,
    pub(crate) rest: u128,
}

impl Found {
    ghost use Rattle.square_parts.specs.Found.{number_of, IsFound};

    /// Takes the next prime out of the rest, as often as it divides it.
    pub(crate) fn divided_by(self, prime: u64) -> Found
        requires found { IsFound self }
        requires next { (primes : List ℕ) × IsDividedBelow (prime ∷ primes) self.rest }
        ensures same { number_of result ≡ number_of self }
        ensures found { IsFound result }
        ensures next { (primes : List ℕ) → IsDividedBelow (prime ∷ primes) self.rest → IsDividedBelow primes result.rest }
    {
        let mut found = self;
        while divides(prime, found.rest) {
            found = found.divided_once(prime);
        }
        found
    }

    /// Takes the square of d out of the rest where it divides it, and else d.
    fn divided_once(self, d: u64) -> Found
        requires found { IsFound self }
        requires below { HasNoDivisorBelow d self.rest }
        requires at_least_two { 2 ≤ d }
        requires within { d ≤ trial_limit }
        requires divides { self.rest % d ≡ 0 }
        ensures same { number_of result ≡ number_of self }
        ensures found { IsFound result }
        ensures below { HasNoDivisorBelow d result.rest }
        ensures less { result.rest < self.rest }
    {
        let once = quotient(self.rest, d);
        if divides(d, once) {
            Found {
                root: self.root * u128::from(d),
                rest: quotient(once, d),
                ..self
            }
        } else {
            Found {
                clean: self.clean * u128::from(d),
                rest: once,
                ..self
            }
        }
    }

    /// Takes the next four primes out of the rest.
    fn divided_by_four(self, a: u64, b: u64, c: u64, d: u64) -> Found
        requires found { IsFound self }
        requires next { (primes : List ℕ) × IsDividedBelow (a ∷ b ∷ c ∷ d ∷ primes) self.rest }
        ensures same { number_of result ≡ number_of self }
        ensures found { IsFound result }
        ensures next { (primes : List ℕ) → IsDividedBelow (a ∷ b ∷ c ∷ d ∷ primes) self.rest → IsDividedBelow primes result.rest }
    {
        if !one_divides(self.rest, a, b, c, d) {
            return self;
        }
        self.divided_by(a).divided_by(b).divided_by(c).divided_by(d)
    }

    /// Divides by the next primes, or up to the first of four whose square exceeds the rest.
    pub(crate) fn divided_by_primes(self, primes: &[u16]) -> Found
        requires found { IsFound self }
        requires next { IsDividedBelow primes.now self.rest }
        requires fours { length primes.now % 4 ≡ 0 }
        ensures same { number_of result ≡ number_of self }
        ensures found { IsFound result }
        ensures no_other { HasNoOtherDivisor result.rest }
    {
        let mut found = self;
        let mut primes = primes;
        while let [a, b, c, d, others @ ..] = primes {
            let first = u64::from(*a);
            if u128::from(first * first) > found.rest {
                return found;
            }
            found = found.divided_by_four(first, u64::from(*b), u64::from(*c), u64::from(*d));
            primes = others;
        }
        found
    }
}

/// Whether one of four numbers divides n, by one remainder of n.
fn one_divides(n: u128, a: u64, b: u64, c: u64, d: u64) -> bool
    requires a { (1 ≤ a) × (a < 2 ^ 16) }
    requires b { (1 ≤ b) × (b < 2 ^ 16) }
    requires c { (1 ≤ c) × (c < 2 ^ 16) }
    requires d { (1 ≤ d) × (d < 2 ^ 16) }
    ensures { result ≡ false → (n % a ≢ 0) × (n % b ≢ 0) × (n % c ≢ 0) × (n % d ≢ 0) }
{
    let rest = remainder(n, a * b * (c * d));
    if rest % a == 0 || rest % b == 0 {
        return true;
    }
    rest % c == 0 || rest % d == 0
}

/// The remainder of n by d; n itself in 64 bits where it has no more.
fn remainder(n: u128, d: u64) -> u64
    requires { 1 ≤ d }
    ensures { (m : ℕ) → m ∣ d → result % m ≡ n % m }
{
    if n < 1 << 64 {
        n as u64
    } else {
        (n % u128::from(d)) as u64
    }
}

/// Whether d divides n, in 64 bits where n has no more.
fn divides(d: u64, n: u128) -> bool
    requires { 1 ≤ d }
    ensures { IsTrue result ↔ (n % d ≡ 0) }
{
    if n < 1 << 64 {
        n as u64 % d == 0
    } else {
        n % u128::from(d) == 0
    }
}

/// n / d, in 64 bits where n has no more.
fn quotient(n: u128, d: u64) -> u128
    requires { 1 ≤ d }
    ensures { result ≡ n / d }
{
    if n < 1 << 64 {
        u128::from(n as u64 / d)
    } else {
        n / u128::from(d)
    }
}
