// carry: carries a recorder's frame, step by step. Today: the frame's layout, and a black frame in it.
#![tactic(auto)]

mod level;
mod show;

use layout::interface::{Layout, Shaped};
use level::{blacken, rest_line};
use showing::head::Head;
use showing::recorder::Recorder;
use showing::steps::{Steps, Words};

// A black image, and what it holds.
fn black(rt: &HostRuntime, layout: &Recorder) -> anyhow::Result<()> {
    println!(rt; "6. black, by the rest code of each site")?;
    let codes = rest_line(rt.alloc(), layout.shape())?;
    let mut image = vec![in rt.alloc(); 0u8; layout.length() as usize]?;
    layout.wipe(image.as_mut_slice())?;
    blacken(layout, image.as_mut_slice(), codes.as_slice())?;
    let head = Head::of(image.as_slice());
    println!(rt; "   first group:{head}")?;
    show::levels(rt, layout, image.as_slice())
}

fn run(rt: &HostRuntime) -> anyhow::Result<()> {
    let steps = Steps {
        rt,
        name: "carry",
        words: Words::BitFirst,
    };
    black(rt, &steps.begin()?)
}

fn main(rt: HostRuntime) -> anyhow::Result<()> {
    run(&rt)
}
