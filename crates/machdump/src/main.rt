//! Prints the load commands, the exports or the imports of a Mach-O file, a line each; of a fat file those of each entry.
#![tactic(auto)]

mod output;

use output::{Word, run};
use std::io::BufWriter;
use std::process::ExitCode;
use std::{env, fs, io};

const USAGE: &str = "usage: machdump commands|exports|imports FILE";

fn main(rt: HostRuntime) -> ExitCode {
    let alloc = rt.alloc();
    let Ok(args) = env::args(&rt) else {
        return bad_usage(&rt);
    };
    let Ok(args) = args.collect::<Vec<String>>(alloc) else {
        return bad_usage(&rt);
    };
    let [_, word, file] = args.as_slice() else {
        return bad_usage(&rt);
    };
    let Some(word) = Word::parse(word.as_str()) else {
        return bad_usage(&rt);
    };
    let Ok(bytes) = fs::read(&rt, file) else {
        let _ = rt.eprintln(format_args!("machdump: cannot read {file}"));
        return ExitCode::from(2);
    };
    let Ok(mut lines) = BufWriter::new(alloc, io::writer(&rt)) else {
        let _ = rt.eprintln("machdump: out of memory");
        return ExitCode::from(1);
    };
    let status = run(alloc, word, bytes.as_slice(), &mut lines, &mut rt.stderr());
    ExitCode::from(status)
}

fn bad_usage(rt: &impl Eprint) -> ExitCode {
    let _ = rt.eprintln(USAGE);
    ExitCode::from(2)
}
