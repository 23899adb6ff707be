// The cleaning program: one tape from standard input, its answer to standard output.

#![tactic(auto)]

mod clean;
mod input;

use clean::clean;
use input::read_input;
use std::io::ErrorKind;

fn main(rt: HostRuntime) {
    let mut tape = [0u8; 65537];
    let Ok(size) = read_input(&mut rt.stdin(), &mut tape) else {
        let _ = rt.eprintln("relief: standard input cannot be read");
        return;
    };
    let mut text = [0u8; 98304];
    let count = clean(&tape[..size], &mut text);
    if let Err(e) = rt.write_all(&text[..count]) {
        // A pipe that nobody reads ends it without a word.
        if e.kind() != ErrorKind::BrokenPipe {
            let _ = rt.eprintln("relief: standard output cannot be written");
        }
    }
}
