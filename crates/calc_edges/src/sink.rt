ghost use Rattle.std.specs.Prelude.{◌≡◌, ℕ, ◌<◌, Option, List, length, take, IfOk, OnOk, OnErr};
ghost use Rattle.std.specs.Io.{WritesAtMost};
ghost use Rattle.std.specs.Io.KnownBytes.{Appends, Keeps};
ghost use Rattle.calc_edges.specs.Faults.{HasCause, StopsAtFailure, counted};
ghost use Rattle.calc_edges.specs.Taken.{AppendsPart};
ghost use Rattle.calc_edges.specs.declared.failures.Failures.{Failures};

use crate::Failed;

/// What bytes are written to.
pub trait Sink {
    /// The bytes that were taken so far, where the sink tells them.
    ghost taken: { Self → Option (List ℕ) };

    /// How often the sink has failed, and whether it failed at the last write.
    ghost faults: { Self → Failures };

    /// Takes bytes from the front of `from`, and answers how many. Another write may follow a failed one.
    fn write(&mut self, from: &[u8]) -> Result<usize, Failed>
        ensures bound { WritesAtMost result from.now }

        // The bytes taken are appended to those told, and at least one of some is taken.
        ensures appended { IfOk result (λ n. Appends (taken self.old) (taken self.new) (take n from.now)) }
        ensures progress { IfOk result (λ n. 0 < length from.now → 0 < n) }

        // A write that fails takes nothing, and is counted.
        ensures kept { OnErr result (Keeps (taken self.old) (taken self.new)) }
        ensures counted { faults self.new ≡ counted result (faults self.old) };
}

/// Writes all the bytes, by as many writes as it takes. At the first write that fails it stops.
pub fn write_all<K: Sink>(sink: &mut K, bytes: &[u8]) -> Result<(), Failed>
    ensures appended { OnOk result (Appends (K.taken sink.old) (K.taken sink.new) bytes.now) }
    // The bytes taken before a write that failed are a prefix, and some were not taken.
    ensures part { OnErr result (AppendsPart (K.taken sink.old) (K.taken sink.new) bytes.now) }
    // No write failed before, and none was asked for behind the one that failed.
    ensures stops { OnErr result (StopsAtFailure K.taken K.faults sink.old sink.new) }
    ensures cause { HasCause (K.faults sink.old) (K.faults sink.new) result }
{
    let mut rest = bytes;
    while !rest.is_empty() {
        let Ok(count) = sink.write(rest) else {
            return Err(Failed);
        };
        rest = &rest[count..];
    }
    Ok(())
}
