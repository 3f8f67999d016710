ghost use Rattle.std.specs.Prelude.{◌≡◌, ◌<◌, length, take, IfOk, OnErr};
ghost use Rattle.std.specs.Io.{ReadsAtMost};
ghost use Rattle.std.specs.Io.KnownBytes.{IsAtEnd};
ghost use Rattle.calc_edges.specs.Faults.{counted};
ghost use Rattle.calc_edges.specs.SourceBytes.{Gives, GivesNothing, SourceBytes};
ghost use Rattle.calc_edges.specs.declared.failures.Failures.{Failures};

use thiserror::Error;

/// A read that gave nothing, or a write that took nothing, since the source or the sink failed.
#[derive(Clone, Copy, Debug, PartialEq, Eq, Error)]
#[error("the input or the output failed")]
pub struct Failed;

/// What bytes are read from.
pub trait Source {
    /// The bytes that were given so far and those that are left, each where the source tells them.
    ghost told: { Self → SourceBytes };

    /// How often the source has failed, and whether it failed at the last read.
    ghost faults: { Self → Failures };

    /// Puts the next bytes at the front of `into`, and answers how many. No byte for an `into` that is
    /// not empty is the end of the input. What stands behind the bytes given is left open, and so is all
    /// of `into` at `Failed`; another read may follow.
    fn read(&mut self, into: &mut [u8]) -> Result<usize, Failed>
        ensures bound { ReadsAtMost result into.new }

        // The bytes given follow those given before and are a prefix of those left, and none are given only where none are left.
        ensures given { IfOk result (λ n. Gives (told self.old) (told self.new) (take n into.new)) }
        ensures end { IfOk result (λ n. n ≡ 0 → 0 < length into.new → IsAtEnd (told self.new).left) }

        // A read that fails gives nothing, and is counted.
        ensures kept { OnErr result (GivesNothing (told self.old) (told self.new)) }
        ensures counted { faults self.new ≡ counted result (faults self.old) };
}
