// Prints the root that standard input asks for, in seven lines, or `bad input`.
#![tactic(auto)]

use std::process::ExitCode;

fn main(rt: HostRuntime) -> ExitCode {
    // A good input has at most 18 bytes, so one that goes on behind the 32 of the window is bad, whatever stands there.
    let mut window = [0; 32];
    // A read that fails counts as the end of the input.
    let (read, _) = input::read_full(&mut rt.stdin(), &mut window);
    let mut out = [0; 128];
    let end = reply::reply_to_window(&window, read, &mut out).unwrap();
    match rt.write_all(&out[..end]) {
        Ok(()) => ExitCode::SUCCESS,
        Err(_) => {
            let _ = eprintln!(rt; "root: output lost");
            ExitCode::FAILURE
        }
    }
}
