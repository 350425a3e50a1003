//! What is shown of each file: a report of it.

use crate::options::Options;
use crate::output::{Call, NAME, refuse};
use crate::selection::run_for;
use mach_cli::output::failed;
use mach_cli::{Cpu, FileView, Refusal, ShowFailure};
use std::alloc::Allocator;
use std::io::{BufWriter, Write};

/// What is shown of each file: a report of what is for the cpu.
#[derive(Drop)]
pub struct Audits {
    pub cpu: Cpu,
    pub options: Options,
    /// The only file of the call, whose report has no heading; empty if there may be several.
    pub only: String,
}

impl<W: Write + Drop, B: Allocator> FileView<BufWriter<W, B>> for Audits {
    ghost use Rattle.machaudit.specs.Audited.{ShowsAudit};

    ghost shows = { λ s. ShowsAudit W.contents s.options s.cpu };

    fn show(&self, rt: &HostRuntime, name: &str, bytes: &[u8], out: &mut BufWriter<W, B>) -> u8 {
        let call = Call {
            options: self.options,
            name,
            heading: self.only.as_str() != name,
            outside: None,
        };
        let err = &mut rt.stderr();
        match run_for(&rt.alloc(), self.cpu, call, bytes, out, err) {
            Ok(status) => status,
            Err(ShowFailure::Memory) => refuse(name, Refusal::Memory, err),
            Err(ShowFailure::Unwritten(error)) => failed(NAME, "", error, err),
        }
    }
}
