//! Prints the usage text, and so its file `stdout` is that text; the launcher prints that file for words that name no command.
#![tactic(auto)]

use std::io;
use usage::usage_text;

fn main(rt: HostRuntime) -> io::Result<()> {
    let text = usage_text(rt.alloc())?;
    print!(rt; "{}", text.as_str())
}
