// How long it takes to read events from packed bytes and from a row.
#![tactic(auto)]

use source::{EventSource, Packed, Row};
use std::alloc::{AllocError, Global};
use std::time::Instant;
use std::{env, fs, io};
use syntax::Event;

fn main(rt: HostRuntime) -> anyhow::Result<()> {
    run(&rt)
}

fn run(rt: &HostRuntime) -> anyhow::Result<()> {
    let mut args = env::args(rt)?.skip(1);
    let (Some(path), Some(rounds)) = (args.next(), args.next()) else {
        println!(rt; "usage: source_speed EVENTS ROUNDS")?;
        return Ok(());
    };
    let rounds = rounds.as_str().parse::<u32>()?;
    let bytes = fs::read(rt, path.as_str())?;
    let events = unpacked(rt.alloc(), bytes.as_slice())?;
    let (packed, sum) = timed(rt, rounds, || Packed::new(bytes.as_slice()))?;
    let (row, row_sum) = timed(rt, rounds, || Row::new(events.as_slice()))?;
    println!(rt; "proved packed {packed} row {row} sums {sum} {row_sum}")?;
    Ok(())
}

fn unpacked(heap: Global, bytes: &[u8]) -> Result<Vec<Event>, AllocError> {
    let mut events = Vec::new(heap);
    let mut packed = Packed::new(bytes);
    while let Ok(Some(event)) = packed.take() {
        events.push(event)?;
    }
    Ok(events)
}

// How many nanoseconds it takes to read a source so many times, and what was read.
fn timed<S: EventSource + Drop, F: Fn() -> S + Drop>(
    rt: &HostRuntime,
    rounds: u32,
    source: F,
) -> io::Result<(u128, u64)>
    requires { F.IsAlwaysCallable source }
{
    let start = Instant::now(rt)?;
    let mut sum = 0;
    for _ in 0..rounds {
        sum = drain(source(), sum);
    }
    Ok((start.elapsed(rt)?.as_nanos(), sum))
}

// A number in which every event's span has a part, and whether it is trivia.
fn drain<S: EventSource + Drop>(mut source: S, mut sum: u64) -> u64 {
    while let Ok(Some(event)) = source.take() {
        sum = mixed(sum, event);
    }
    sum
}

fn mixed(sum: u64, event: Event) -> u64 {
    let span = event.span();
    let step = if event.is_trivia() { 7 } else { 31 };
    sum.wrapping_mul(step)
        .wrapping_add(u64::from(span.start) ^ u64::from(span.end))
}
