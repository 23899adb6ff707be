// The season report: tapes that follow one another from standard input, their totals to standard output.
//     window   the bytes at hand, in a buffer that is filled from standard input
//     jobs     the jobs of standard input, one behind the other
//     report   the text that is printed

#![tactic(auto)]

mod jobs;
mod report;
mod window;

use report::season_text;
use std::io::ErrorKind;

fn main(rt: HostRuntime) {
    let mut output = [0u8; 512];
    let Ok(count) = season_text(&mut rt.stdin(), &mut output) else {
        let _ = rt.eprintln("season: standard input cannot be read");
        return;
    };
    if let Err(e) = rt.write_all(&output[..count]) {
        // A pipe that nobody reads ends it without a word.
        if e.kind() != ErrorKind::BrokenPipe {
            let _ = rt.eprintln("season: standard output cannot be written");
        }
    }
}
