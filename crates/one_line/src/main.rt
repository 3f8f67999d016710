//! How a program uses the crates: it opens a session and answers a line.
#![tactic(auto)]

use breakers::{NeverBreaker, Watch};
use calc_session::Session;
use deep_reduce::DeepReducer;
use std::str;

fn main(rt: HostRuntime) -> anyhow::Result<()> {
    let alloc = rt.alloc();
    let mut session = Session::open(alloc, 32_768)?;
    let mut watch = Watch::<NeverBreaker>::new(Vec::new(alloc));
    session.line(&DeepReducer, &mut watch, "1/(√(2)+√(3))".as_bytes());
    println!(rt; "{}", str::from_utf8(session.text())?)?;
    Ok(())
}
