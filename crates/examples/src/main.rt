// The bench examples of the scope paper, run on the proved server. What is printed is compared with `stdout`, which is written from the paper.
#![tactic(auto)]

mod bench;
mod calls;
mod text;

use state::sizes;
use std::io;

fn main(rt: HostRuntime) -> io::Result<()> {
    let mut words = [0; sizes::WORDS];
    let mut strings = [0; sizes::STRINGS];
    text::say(&rt, b"Bench examples, vendor \"AA\"\n")?;
    bench::initialize(&rt, &mut words, &mut strings)?;
    bench::async_initialize(&rt, &mut words, &mut strings)?;
    bench::short_header(&rt, &mut words, &mut strings)?;
    bench::wrong_prologue(&rt, &mut words, &mut strings)?;
    bench::lengths(&rt, &mut words, &mut strings)?;
    bench::exclusive(&rt, &mut words, &mut strings)?;
    bench::shared(&rt, &mut words, &mut strings)?;
    bench::deadline(&rt, &mut words, &mut strings)?;
    bench::status(&rt, &mut words, &mut strings)?;
    bench::other_types(&rt, &mut words, &mut strings)
}
