ghost use Rattle.std.specs.Prelude.{◌≡◌, ◌≢◌, ℕ, ◌≤◌, ◌<◌, ◌^◌, ◌⊎◌, List, [], ◌∷◌, ◌++◌, length, map, vec_len, Contains, None, Some};
ghost use Rattle.breakers.specs.Watch.{states};
ghost use Rattle.calc_edges.specs.Faults.{IsCalm, Rose, StopsAtFailedRead, StopsAtFailure};
ghost use Rattle.poincare_run.specs.Beginnings.{armed as armed_by, beginning_of, begun, IfReads, IfGenerates};
ghost use Rattle.poincare_run.specs.Buffer.{Holds};
ghost use Rattle.poincare_run.specs.Endings.{session_limit, ReadsAll, ReadsPart, ReadsLimit, WriteStops, SumsUp, SumsUpInPart};
ghost use Rattle.poincare_run.specs.Progress.{status, EndsAs, EndsFrom, IfNoMemory, IsSummed, StopsReading, StopsWriting, SumsUpAs, place_of};

use crate::dialog::{Dialog, Ending, write_line};
use crate::generated::session_from;
use crate::notice::Notice;
use crate::tally::{SUMMARY_LIMIT, write_summary};
use crate::words::options_in;
use breakers::{Breaker, Watch};
use calc_edges::{Failed, Sink, Source};
use calc_session::Session;
use line_text::Text;
use std::alloc::Global;

/// The most bytes of one read.
const PIECE_LIMIT: usize = 4096;

/// Answers the lines of the source one by one, and writes the answers to the sink; with `--gen N` it reads nothing,
/// answers the lines of session N and writes their summary. The result is the status of the program.
///
/// The breakers are polled as lines are calculated, and dropped when they have tripped.
pub fn run<S: Source, K: Sink, B: Breaker>(
    alloc: Global,
    words: &[String],
    source: &mut S,
    sink: &mut K,
    breakers: Vec<B>,
) -> u8
    requires few { vec_len breakers < 2 ^ 32 }
    ensures status { Contains (0 ∷ 2 ∷ 3 ∷ 4 ∷ 5 ∷ 6 ∷ []) result }

    // Status 2: the words are no form of the command line. Status 5: there was no memory to read them, or to begin with.
    ensures usage { result ≡ 2 → beginning_of B.state words.now breakers.items ≡ None }
    ensures usage_or_no_memory { beginning_of B.state words.now breakers.items ≡ None → (result ≡ 2) ⊎ (result ≡ 5) }
    ensures untouched { (result ≡ 2) ⊎ (result ≡ 5) → (source.new ≡ source.old) × (sink.new ≡ sink.old) }

    // Status 0: the input was read to its end, and the answers to all its lines were written.
    ensures answered { result ≡ 0 → IfReads (beginning_of B.state words.now breakers.items) (λ start.
        ReadsAll start (S.told source.old) (S.told source.new) (K.taken sink.old) (K.taken sink.new)) }

    // Status 3: the source failed, and nothing was asked of it behind that. The answers to the lines that were whole were
    // written. At another status no read failed.
    ensures read_failed { result ≡ 3 → Rose (S.faults source.old) (S.faults source.new) }
    ensures read_stops { result ≡ 3 → StopsAtFailedRead S.told S.faults source.old source.new }
    ensures reads_calm { result ≢ 3 → IsCalm (S.faults source.old) (S.faults source.new) }
    ensures read_in_part { result ≡ 3 → IfReads (beginning_of B.state words.now breakers.items) (λ start.
        ReadsPart start (S.told source.old) (S.told source.new) (K.taken sink.old) (K.taken sink.new)) }

    // Status 4: the sink failed, and nothing was asked of it behind that. A part of the answers to the lines that were whole
    // was written, or to all where the input was read to its end.
    // At another status no write failed.
    ensures write_failed { result ≡ 4 → Rose (K.faults sink.old) (K.faults sink.new) }
    ensures write_stops { result ≡ 4 → StopsAtFailure K.taken K.faults sink.old sink.new }
    ensures writes_calm { result ≢ 4 → IsCalm (K.faults sink.old) (K.faults sink.new) }
    ensures written_in_part { result ≡ 4 → IfReads (beginning_of B.state words.now breakers.items) (λ start.
        WriteStops start (S.told source.old) (S.told source.new) (K.taken sink.old) (K.taken sink.new)) }

    // Status 6: the limit was reached. The answers to the lines that were whole were written.
    ensures limit_reached { result ≡ 6 → IfReads (beginning_of B.state words.now breakers.items) (λ start.
        ReadsLimit start (S.told source.old) (S.told source.new) (K.taken sink.old) (K.taken sink.new)) }
    // No more is ever read, and so much only at status 6 or where a write failed.
    ensures limit { (input rest : List ℕ) → (S.told source.old).left ≡ Some (input ++ rest) → (S.told source.new).left ≡ Some rest
        → (length input ≤ session_limit) × (length input ≡ session_limit → (result ≡ 6) ⊎ (result ≡ 4)) }

    // A generated session reads nothing, and its summary is written, or a part of it where the sink failed.
    ensures unread { IfGenerates (beginning_of B.state words.now breakers.items) (λ start number.
        (source.new ≡ source.old) × (result ≢ 3) × (result ≢ 6)) }
    ensures summed_up { result ≡ 0 → IfGenerates (beginning_of B.state words.now breakers.items) (λ start number.
        SumsUp start number (K.taken sink.old) (K.taken sink.new)) }
    ensures summed_up_in_part { result ≡ 4 → IfGenerates (beginning_of B.state words.now breakers.items) (λ start number.
        SumsUpInPart start number (K.taken sink.old) (K.taken sink.new)) }
{
    let options = match options_in(alloc, words) {
        Ok(Some(options)) => options,
        Ok(None) => return 2,
        Err(_) => return 5,
    };
    let Ok(session) = Session::open(alloc, options.size) else {
        return 5;
    };
    let Ok(notice) = Notice::open(alloc) else {
        return 5;
    };
    let watch = armed(breakers, options.interrupt);
    let mut dialog = Dialog::new(session, watch, notice, options.draw);
    status_of(answer(alloc, &mut dialog, options.generated, source, sink))
}

/// A watch in which the first breaker that can be armed is armed with a number of polls, where there is one.
fn armed<B: Breaker>(breakers: Vec<B>, polls: Option<u64>) -> Watch<B>
    requires few { vec_len breakers < 2 ^ 32 }
    ensures { states B.state result ≡ armed_by polls (map B.state breakers.items) }
{
    let mut watch = Watch::new(breakers);
    if let Some(polls) = polls {
        let _ = watch.arm_first(polls);
    }
    watch
}

/// Answers the lines of a generated session, where there is one, and else those of the source.
fn answer<S: Source, K: Sink, B: Breaker>(
    alloc: Global,
    dialog: &mut Dialog<B>,
    generated: Option<u32>,
    source: &mut S,
    sink: &mut K,
) -> Ending
    requires fresh { Holds dialog.old.line [] }
    ensures ends { EndsFrom result (begun (place_of B.state dialog.old).now generated) (S.told source.old) (S.told source.new)
        (K.taken sink.old) (K.taken sink.new) }
    ensures reads { StopsReading result S.told S.faults source.old source.new }
    ensures writes { StopsWriting result K.taken K.faults sink.old sink.new }
    ensures untouched { IfNoMemory result ((source.new ≡ source.old) × (sink.new ≡ sink.old)) }
    ensures unread { IfGenerates (Some (begun (place_of B.state dialog.old).now generated)) (λ start number. source.new ≡ source.old) }
{
    match generated {
        Some(number) => sum_up(alloc, dialog, number, sink),
        None => converse(alloc, dialog, source, sink),
    }
}

/// Answers the lines of the source.
fn converse<S: Source, K: Sink, B: Breaker>(
    alloc: Global,
    dialog: &mut Dialog<B>,
    source: &mut S,
    sink: &mut K,
) -> Ending
    requires fresh { Holds dialog.old.line [] }
    ensures ends { EndsAs result (place_of B.state dialog.old).now (S.told source.old) (S.told source.new)
        (K.taken sink.old) (K.taken sink.new) }
    ensures reads { StopsReading result S.told S.faults source.old source.new }
    ensures writes { StopsWriting result K.taken K.faults sink.old sink.new }
    ensures untouched { IfNoMemory result ((source.new ≡ source.old) × (sink.new ≡ sink.old)) }
{
    let Ok(mut piece) = vec![in alloc; 0; PIECE_LIMIT] else {
        return Ending::NoMemory;
    };
    dialog.serve(piece.as_mut_slice(), source, sink)
}

/// Answers the lines of a generated session, and writes how they were answered.
fn sum_up<K: Sink, B: Breaker>(
    alloc: Global,
    dialog: &mut Dialog<B>,
    number: u32,
    sink: &mut K,
) -> Ending
    requires fresh { Holds dialog.old.line [] }
    ensures sums { SumsUpAs result (place_of B.state dialog.old).now number (K.taken sink.old) (K.taken sink.new) }
    ensures writes { StopsWriting result K.taken K.faults sink.old sink.new }
    ensures untouched { IfNoMemory result (sink.new ≡ sink.old) }
    ensures sort { IsSummed result }
{
    let Ok(lines) = session_from(alloc, number) else {
        return Ending::NoMemory;
    };
    let Ok(mut text) = Text::open(alloc, SUMMARY_LIMIT) else {
        return Ending::NoMemory;
    };
    write_summary(&mut text, dialog.tally(lines.as_slice()));
    match write_line(sink, text.bytes()) {
        Ok(()) => Ending::ReadToEnd,
        Err(Failed) => Ending::WriteFailed,
    }
}

fn status_of(ending: Ending) -> u8
    ensures { result ≡ status ending }
{
    match ending {
        Ending::ReadToEnd => 0,
        Ending::ReadFailed => 3,
        Ending::WriteFailed => 4,
        Ending::NoMemory => 5,
        Ending::LimitReached => 6,
    }
}
