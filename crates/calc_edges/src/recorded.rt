//! Sources and sinks that tell which bytes came and went.
ghost use Rattle.std.specs.Prelude.{◌≡◌, ◌<◌, ◌++◌, [], Some, length, take, IfOk, OnErr};
ghost use Rattle.std.specs.Io.{ReadsAtMost, WritesAtMost};
ghost use Rattle.std.specs.Io.KnownBytes.{Appends, IsAtEnd, Keeps};
ghost use Rattle.calc_edges.specs.Faults.{counted};
ghost use Rattle.calc_edges.specs.Recordings.{history_of, inner_of};
ghost use Rattle.calc_edges.specs.SourceBytes.{Gives, GivesNothing};

use crate::history::History;
use crate::{Failed, Sink, Source};

/// A source or a sink with all bytes that it gave or took since it was recorded. Clauses alone read them, so that they are known
/// also where those of the source or the sink are not, as at a terminal. It takes no memory of its own.
#[derive(Drop)]
pub struct Recorded<T> {
    inner: T,
    history: History,
}

impl<T> Recorded<T> {
    pub fn new(inner: T) -> Recorded<T>
        ensures inner { inner_of result ≡ inner }
        ensures history { history_of result ≡ [] }
    {
        Recorded {
            inner,
            history: History::new(),
        }
    }
}

impl<S: Source> Source for Recorded<S> {
    ghost told = { λ s. record { given = Some (history_of s); left = (S.told (inner_of s)).left } };

    ghost faults = { λ s. S.faults (inner_of s) };

    fn read(&mut self, into: &mut [u8]) -> Result<usize, Failed>
        ensures bound { ReadsAtMost result into.new }
        ensures recorded { IfOk result (λ n. history_of self.new ≡ history_of self.old ++ take n into.new) }
        ensures unchanged { OnErr result (history_of self.new ≡ history_of self.old) }
        ensures given { IfOk result (λ n. Gives (S.told (inner_of self.old)) (S.told (inner_of self.new)) (take n into.new)) }
        ensures end { IfOk result (λ n. n ≡ 0 → 0 < length into.new → IsAtEnd (S.told (inner_of self.new)).left) }
        ensures kept { OnErr result (GivesNothing (S.told (inner_of self.old)) (S.told (inner_of self.new))) }
        ensures counted { S.faults (inner_of self.new) ≡ counted result (S.faults (inner_of self.old)) }
    {
        let count = self.inner.read(into)?;
        self.history = self.history.and(&into[..count]);
        Ok(count)
    }
}

impl<K: Sink> Sink for Recorded<K> {
    ghost taken = { λ s. Some (history_of s) };

    ghost faults = { λ s. K.faults (inner_of s) };

    fn write(&mut self, from: &[u8]) -> Result<usize, Failed>
        ensures bound { WritesAtMost result from.now }
        ensures recorded { IfOk result (λ n. history_of self.new ≡ history_of self.old ++ take n from.now) }
        ensures unchanged { OnErr result (history_of self.new ≡ history_of self.old) }
        ensures progress { IfOk result (λ n. 0 < length from.now → 0 < n) }
        ensures appended { IfOk result (λ n. Appends (K.taken (inner_of self.old)) (K.taken (inner_of self.new)) (take n from.now)) }
        ensures kept { OnErr result (Keeps (K.taken (inner_of self.old)) (K.taken (inner_of self.new))) }
        ensures counted { K.faults (inner_of self.new) ≡ counted result (K.faults (inner_of self.old)) }
    {
        let count = self.inner.write(from)?;
        self.history = self.history.and(&from[..count]);
        Ok(count)
    }
}
