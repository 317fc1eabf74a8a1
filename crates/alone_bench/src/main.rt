//! Runs 32 tasks alone, each as long as its fuel allows, and prints how many instructions that were. The fuel of each, 1 to
//! 100,000, is the program's argument; without one it is 1,000. `bench/alone.sh` measures it.
#![tactic(auto)]

ghost use Rattle.std.specs.Prelude.{◌<◌, ◌≤◌, IfOk};
ghost use Rattle.isa_model.specs.TaskPlaces.{IsValidTask};

use alone_run::{Task, Words, run_alone};
use std::alloc::{AllocError, Global};
use std::{env, io};

const TASKS: u32 = 32;

const DEFAULT_FUEL: u32 = 1_000;

const GREATEST_FUEL: u32 = 100_000;

/// A task that counts, mixes, stores and loads for ever.
fn looping_task(alloc: Global, number: u32, fuel: u32) -> Result<Task, AllocError>
    requires number { number < 32 }
    requires fuel_low { 1 ≤ fuel }
    requires fuel_high { fuel ≤ 100000 }
    ensures valid { IfOk result IsValidTask }
{
    // auipc x5,8; addi x1,x1,1; xor x2,x2,x1; slli x3,x2,5; sw x3,0(x5); lw x4,0(x5); add x2,x2,x4; jal x0,.-24
    let code = vec![in alloc;
        0x0000_8297,
        0x0010_8093,
        0x0011_4133,
        0x0051_1193,
        0x0032_a023,
        0x0002_a203,
        0x0041_0133,
        0xfe9f_f06f,
    ]?;
    Ok(Task {
        code_at: 0x10_0000 + 0x1_0000 * number,
        data_at: 0x10_8000 + 0x1_0000 * number,
        code: Words::new(code),
        data_len: 1,
        fuel,
        out_max: 0,
        tape: Words::new(Vec::new(alloc)),
    })
}

/// The fuel that the program's argument names.
fn fuel_of(argument: Option<String>) -> u32
    ensures low { 1 ≤ result }
    ensures high { result ≤ 100000 }
{
    let number = match argument {
        Some(text) => text.as_str().parse::<u32>().unwrap_or(DEFAULT_FUEL),
        None => DEFAULT_FUEL,
    };
    number.max(1).min(GREATEST_FUEL)
}

fn main(rt: HostRuntime) -> io::Result<()> {
    let mut arguments = env::args(&rt)?;
    let _program = arguments.next();
    let fuel = fuel_of(arguments.next());
    let mut executed: u64 = 0;
    for number in 0..TASKS {
        let task = looping_task(rt.alloc(), number, fuel)?;
        let ended = run_alone(rt.alloc(), &task)?;
        executed = executed.saturating_add(u64::from(ended.count));
    }
    println!(rt; "{executed}")
}
