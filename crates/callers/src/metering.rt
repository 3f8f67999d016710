//! The length of what the program writes.
ghost use Rattle.std.specs.Prelude.{IfSome};
ghost use Rattle.callers.specs.Meters.{AreAnsweredIn};

use crate::byte_meter::ByteMeter;
use breakers::NeverBreaker;
use calc_edges::CalmSource;
use poincare_run::run;
use std::alloc::Global;

/// How many bytes the program writes for this input, up to 2^64 - 1. There is none where memory is refused, or the input is too long.
pub fn bytes_of_answers(alloc: Global, input: Vec<u8>) -> Option<u64>
    ensures { IfSome result (AreAnsweredIn input.items) }
{
    let mut source = CalmSource::new(input);
    let mut meter = ByteMeter::new();
    let status = run(
        alloc,
        &[],
        &mut source,
        &mut meter,
        Vec::<NeverBreaker>::new(alloc),
    );
    if status == 0 {
        Some(meter.count())
    } else {
        None
    }
}
