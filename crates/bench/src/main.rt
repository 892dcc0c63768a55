#![tactic(auto)]
// Runs a script from standard input on a volume over a bench chip of eight erased blocks.
ghost use Rattle.std.specs.Prelude.{length};
ghost use Rattle.std.specs.Iterator.{at_most};

use bench_chip::{Bench, Plan};
use chip::BLOCK;
use script::next_line;
use session::{Session, plan_of};
use std::io::Read;

const BLOCKS: usize = 8;

const NAME: u16 = 1;

// The lines of a text, one after another.
#[derive(Clone, Copy)]
struct Lines<'a>(&'a [u8]);

impl<'a> Iterator for Lines<'a> {
    type Item = &'a [u8];

    ghost remaining = { λ lines. at_most (length lines.0.now) };

    fn next(&mut self) -> Option<&'a [u8]> {
        let (line, rest) = next_line(self.0)?;
        self.0 = rest;
        Some(line)
    }
}

// The plan of the first line, if it gives one, and the lines that are left.
fn plan_first<'a>(mut lines: Lines<'a>) -> Option<(Plan, Lines<'a>)> {
    let plan = plan_of(lines.next()?)?;
    Some((plan, lines))
}

// Serves the lines one after another.
fn serve_all<'a>(
    rt: &HostRuntime,
    session: &mut Session<Bench<'a>>,
    lines: Lines<'_>,
) -> anyhow::Result<()> {
    for line in lines {
        let reply = session.serve(line);
        println!(rt; "{reply}")?;
    }
    Ok(())
}

fn run(rt: &HostRuntime) -> anyhow::Result<()> {
    let mut text = Vec::new(rt.alloc());
    rt.stdin().read_to_end(&mut text)?;
    let mut image = vec![in rt.alloc(); 0xFF; BLOCKS * BLOCK]?;
    let all = Lines(text.as_slice());
    let first = plan_first(all);
    if first.is_some() {
        println!(rt; "x ok")?;
    }
    let (plan, lines) = first.unwrap_or((Plan::WHOLE, all));
    let mut session = Session::new(Bench::new(image.as_mut_slice(), NAME, plan));
    serve_all(rt, &mut session, lines)
}

fn main(rt: HostRuntime) -> anyhow::Result<()> {
    run(&rt)
}
