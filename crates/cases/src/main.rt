// Feeds beside document 01's printed case: each is named, read and its report printed.
#![tactic(auto)]

use intake::STANDARD_OUTPUT;
use intake::ends::{Source, Target};
use intake::files::open;

fn print_case(rt: &HostRuntime, name: &[u8]) {
    io::write_all(STANDARD_OUTPUT, name);
    io::write_all(STANDARD_OUTPUT, b"\n");
    if let Some(file) = open(rt, name) {
        intake::run(&Source::Named(file), name, &Target::Standard(rt.stdout()));
    }
}

fn main(rt: HostRuntime) {
    let names: [&[u8]; 7] = [
        b"1-empty",
        b"2-unended",
        b"3-overlong",
        b"4-full",
        b"5-damaged",
        b"6-order",
        b"7-blocks",
    ];
    for name in names {
        print_case(&rt, name);
    }
}
