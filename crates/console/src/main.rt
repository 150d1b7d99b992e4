// Reads a script of commands on standard input, and prints what the unit answers to each.
#![tactic(auto)]

mod command;
mod console;
mod host_command;
mod question;
mod script;
mod show;
mod station;
mod stop;
mod table;
mod table_command;
mod telling;
mod words;

use console::Console;
use script::Script;
use std::io;
use std::io::{BufWriter, Read};

fn main(rt: HostRuntime) -> io::Result<()> {
    let mut input = Vec::new(rt.alloc());
    rt.stdin().read_to_end(&mut input)?;
    let out = BufWriter::new(rt.alloc(), rt.stdout())?;
    let mut console = Console::new(rt.alloc(), out);
    console.run(Script::new(&input))
}
