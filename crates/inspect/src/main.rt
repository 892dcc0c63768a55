#![tactic(auto)]
// inspect FILE..: says what each flash dump carries. Of several files each begins with a line that names it.
mod contents;

use crate::contents::print_image;
use anyhow::anyhow;
use bench_chip::{Bench, Plan};
use chip::Chip;
use dump::LabelLine;
use label::{first_page, read_label};
use std::{env, fs};

// Prints what the bytes of a dump carry.
fn describe(rt: &HostRuntime, image: &mut [u8]) -> anyhow::Result<()> {
    let mut chip = Bench::new(image, 1, Plan::WHOLE);
    let blocks = chip.blocks();
    println!(rt; "blocks {blocks}")?;
    let page = first_page(&mut chip);
    println!(rt; "{}", LabelLine(read_label(&page, blocks)))?;
    print_image(rt, &mut chip)
}

// Reads a whole file; the error names it.
fn load(rt: &HostRuntime, file: &str) -> anyhow::Result<Vec<u8>> {
    fs::read(rt, file).map_err(|e| anyhow!("cannot read {file}: {e}"))
}

fn run(rt: &HostRuntime) -> anyhow::Result<()> {
    let files = env::args(rt)?.skip(1).count();
    if files == 0 {
        return Err(anyhow!("usage: inspect FILE.."));
    }
    for file in env::args(rt)?.skip(1) {
        let mut bytes = load(rt, file.as_str())?;
        if files > 1 {
            println!(rt; "file {file}")?;
        }
        describe(rt, bytes.as_mut_slice())?;
    }
    Ok(())
}

fn main(rt: HostRuntime) -> anyhow::Result<()> {
    run(&rt)
}
