// recorder: carries a recorder's frame, step by step. Today: its layout, and the frame in the making.
#![tactic(auto)]

mod bars;
mod key;
mod recorded;
mod recording;

use bars::{bars_line, spoiled};
use frame::making::Making;
use layout::interface::{Layout, Shaped};
use recording::Recording;
use samples::fault::Fault;
use showing::recorder::Recorder;
use showing::steps::{Steps, Words};

// The frame, from blank to whole, and what it turns away. All that it needs is there before it is begun, so that a want of memory shows before the frame does.
fn record(rt: &HostRuntime, layout: Recorder) -> anyhow::Result<()> {
    let mut image = vec![in rt.alloc(); 0u8; layout.length() as usize]?;
    let mut before = vec![in rt.alloc(); 0u8; layout.length() as usize]?;
    let codes = bars_line(rt.alloc(), layout.shape())?;
    let bad = spoiled(rt.alloc(), codes.as_slice())?;
    let begun = Making::begin(layout, image.as_mut_slice()).map_err(Fault::from)?;
    let mut frame = Recording::new(rt, begun, image.as_mut_slice());
    recorded::blank(&frame)?;
    recorded::lay(&mut frame, codes.as_slice())?;
    recorded::repair(&mut frame)?;
    frame.keep(before.as_mut_slice());
    recorded::refuse(&mut frame, codes.as_slice(), bad.as_slice())?;
    frame.compare(before.as_slice())?;
    Ok(())
}

fn run(rt: &HostRuntime) -> anyhow::Result<()> {
    let steps = Steps {
        rt,
        name: "recorder",
        words: Words::SiteFirst,
    };
    record(rt, steps.begin()?)?;
    key::run(rt)
}

fn main(rt: HostRuntime) -> anyhow::Result<()> {
    run(&rt)
}
