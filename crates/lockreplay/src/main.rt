//! `lockreplay` runs scripts of record locks in a cluster and prints what came of them.
#![tactic(auto)]

use replay::respond::{read_words, refuse, respond};
use replay::{Disk, Meter};
use seat_commands::attend::attend;
use std::io::IsTerminal;
use std::process::ExitCode;

fn main(rt: HostRuntime) -> ExitCode {
    let mut out = rt.stdout();
    let mut err = rt.stderr();
    let terminal = Some(rt.stderr()).filter(|err| err.is_terminal());
    let mut meter = Meter::new(&rt, terminal);
    let status = match read_words(&rt) {
        Ok(words) => {
            let mut disk = Disk::new(&rt);
            let attended = attend(
                &rt,
                rt.alloc(),
                words.as_slice(),
                rt.stdin(),
                &mut disk,
                &mut out,
                &mut err,
            );
            match attended {
                Some(status) => status,
                None => respond(
                    &rt,
                    rt.alloc(),
                    words.as_slice(),
                    &mut disk,
                    &mut out,
                    &mut err,
                    &mut meter,
                ),
            }
        }
        Err(refusal) => refuse(&refusal, &mut out, &mut err),
    };
    ExitCode::from(status)
}
