//! Sessions for C programs: a static library.
#![tactic(auto)]

mod codes;
mod exports;
mod slot;
mod standing;
mod stopper_slot;
