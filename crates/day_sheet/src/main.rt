// The program: runs the day sheet that stands on standard input.
#![tactic(auto)]

use sheet::{BYTES, run};
use std::io;
use std::io::Read;

fn main(rt: HostRuntime) -> io::Result<()> {
    let heap = rt.alloc();
    let mut bytes = Vec::new(heap);
    // One byte more than a sheet may have: more need not be read to refuse it.
    rt.stdin().take(BYTES as u64 + 1).read_to_end(&mut bytes)?;
    let text = run(heap, bytes.as_slice())?;
    rt.print(text.as_str())
}
