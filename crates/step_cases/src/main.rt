//! Cases of the machine: each line of the input is a state and a number of steps, and each line of the output is how the
//! last step ended, with the state behind it.
//!
//! A case is `STEPS SIZE AC MQ SI X1 X2 X3 X4 X5 X6 X7 IC OV DC [ADDRESS=WORD ..]`, a result `END AC MQ SI X1 .. X7 IC OV DC
//! [ADDRESS=WORD ..]`. All numbers are octal but STEPS and SIZE (blocks of 256 words). AC is a sign and 13 digits. Words
//! that a case doesn't name are plus zero, and words outside the core are passed over; a result has the words that differ
//! from the case. The steps end early where one doesn't go on.
#![tactic(auto)]

mod case;

ghost use Rattle.std.specs.Prelude.{◌≡◌, ◌<◌, ◌^◌};
ghost use Rattle.cpu_step.specs.Results.{outcome};
ghost use Rattle.machine_model.specs.Runs.{many};

use case::{Case, read_case, result_text};
use cpu_regs::Regs;
use cpu_regs::plain::PlainCore;
use cpu_step::{Stepped, step};
use std::io::{self, BufRead, BufReader, BufWriter, Write};

/// Does so many steps, and gives how the last one ended.
fn run(regs: &mut Regs, core: &mut PlainCore, steps: u64) -> Stepped
    requires { regs.old.ic < 2 ^ 15 }
    ensures { outcome result regs.new core.new ≡ many steps regs.old core.old }
{
    let mut done = 0;
    'steps: while done < steps {
        done += cpu_step::run(regs, core, steps - done - 1);
        match step(regs, core) {
            Stepped::Went => {
                done += 1;
            }
            end => return end,
        }
    }
    Stepped::Went
}

fn main(rt: HostRuntime) -> anyhow::Result<()> {
    let input = BufReader::new(rt.alloc(), rt.reader())?;
    let mut output = BufWriter::new(rt.alloc(), io::writer(&rt))?;
    for line in input.lines(rt.alloc()) {
        let line = line?;
        let Case {
            steps,
            mut regs,
            mut core,
            first,
        } = read_case(rt.alloc(), line.as_str())?;
        let end = run(&mut regs, &mut core, steps);
        let text = result_text(rt.alloc(), end, &regs, &core, &first)?;
        output.write_all(text.as_bytes())?;
    }
    output.flush()?;
    Ok(())
}
