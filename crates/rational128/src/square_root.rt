//! The integer square root, by Newton's method.
ghost use Rattle.std.specs.Prelude.{◌*◌, ◌+◌, ◌<◌, ◌≤◌};

/// The greatest r with r * r <= n.
pub fn isqrt(n: u128) -> u128
    ensures square_at_most { result * result ≤ n }
    ensures next_square_above { n < (result + 1) * (result + 1) }
{
    if n < 1 << 64 {
        return u128::from(isqrt_64(n as u64));
    }
    // A power of two above the root.
    let mut root = 1 << (129 - n.leading_zeros()) / 2;
    loop {
        let next = (root + n / root) / 2;
        if root <= next {
            return root;
        }
        root = next;
    }
}

/// The same in 64 bits.
fn isqrt_64(n: u64) -> u64
    ensures square_at_most { result * result ≤ n }
    ensures next_square_above { n < (result + 1) * (result + 1) }
{
    if n == 0 {
        return 0;
    }
    let mut root: u64 = 1 << (65 - n.leading_zeros()) / 2;
    loop {
        let next = (root + n / root) / 2;
        if root <= next {
            return root;
        }
        root = next;
    }
}
