//! The console: reads commands from standard input, one on a line, and answers each in words.
#![tactic(auto)]

use commands::console::Console;
use replies::reply::Reply;
use std::io::{BufRead, BufReader};

// Takes each line, and prints what it came to. No clause can pin what is printed, so this is no public function of the library.
fn run(rt: &HostRuntime) -> anyhow::Result<()> {
    let heap = rt.alloc();
    let mut console = Console::new(heap);
    for line in BufReader::new(heap, rt.stdin())?.split(heap, b'\n') {
        let line = line?;
        match console.take(line.as_slice())? {
            Reply::Silence => {}
            reply => println!(rt; "{reply}")?,
        }
    }
    println!(rt; "{}", console.summary)?;
    Ok(())
}

fn main(rt: HostRuntime) -> anyhow::Result<()> {
    run(&rt)
}
