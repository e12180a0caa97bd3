// The program: one task, named by its argument, over what stands on standard input.
#![tactic(auto)]

mod contribution_task;
mod divide_task;
#[cfg(test)]
mod saying;
mod trouble;

use anyhow::anyhow;
use std::io::Read;
use std::process::ExitCode;
use std::{env, io};

// The most bytes that are read.
const BYTES: usize = 65_536;

fn input(rt: &HostRuntime) -> anyhow::Result<String> {
    let text = io::read_to_string(rt.alloc(), rt.stdin().take(BYTES as u64 + 1))?;
    if text.len() > BYTES {
        return Err(anyhow!("the input is longer than 65,536 bytes"));
    }
    Ok(text)
}

fn run(rt: &HostRuntime) -> anyhow::Result<()> {
    let task = env::args(rt)?.nth(1);
    let report = match task {
        Some(name) if name.as_str() == "divide" => divide_task::reply(
            rt.alloc(),
            input(rt)?.as_str(),
        )?,
        Some(name) if name.as_str() == "contribution" => contribution_task::reply(
            rt.alloc(),
            input(rt)?.as_str(),
        )?,
        _ => return Err(anyhow!("name a task: sokhluveta divide, or sokhluveta contribution")),
    };
    rt.print(report.as_str())?;
    Ok(())
}

fn main(rt: HostRuntime) -> io::Result<ExitCode> {
    if let Err(e) = run(&rt) {
        eprintln!(rt; "sokhluveta: {e}")?;
        return Ok(ExitCode::FAILURE);
    }
    Ok(ExitCode::SUCCESS)
}
