// Real files and streams, which tell no contents: what they hold is trusted, not proved.
ghost use Rattle.std.specs.Prelude.{◌≤◌, length, IfOk};

use crate::{FileFault, Files, Sink, SinkFailed};
use std::alloc::Global;
use std::io::{Read, Write};
use std::rt::Files as FileSystem;

/// The files of the host, by path.
#[derive(Drop)]
pub struct HostFiles<'a, R: FileSystem> {
    rt: &'a R,
    alloc: Global,
    faults: u64,
    failed: String,
}

impl<'a, R: FileSystem> HostFiles<'a, R> {
    ghost use Rattle.std.specs.Prelude.{◌≡◌, [], string_bytes};

    pub fn new(rt: &'a R, alloc: Global) -> HostFiles<'a, R>
        ensures faults { result.faults ≡ 0 }
        ensures failed { string_bytes result.failed ≡ [] }
    {
        HostFiles {
            rt,
            alloc,
            faults: 0,
            failed: String::new(alloc),
        }
    }
}

// Reads at most a byte more than the limit.
fn read_to_limit<F: Read>(alloc: Global, file: &mut F, limit: usize) -> Result<Vec<u8>, FileFault>
    ensures { IfOk result (λ v. length v.items ≤ limit) }
{
    let mut bytes = Vec::new(alloc);
    let mut buffer = [0u8; 4096];
    for _ in 0..u64::MAX {
        let most = limit
            .saturating_sub(bytes.len())
            .saturating_add(1)
            .min(buffer.len());
        let Ok(count) = file.read(&mut buffer[..most]) else {
            return Err(FileFault::Failed);
        };
        if bytes.extend_from_slice(&buffer[..count]).is_err() {
            return Err(FileFault::NoMemory);
        }
        if bytes.len() > limit {
            return Err(FileFault::TooLong);
        }
        if count == 0 {
            return Ok(bytes);
        }
    }
    Err(FileFault::Failed)
}

fn read_file<R: FileSystem>(
    rt: &R,
    alloc: Global,
    name: &str,
    limit: usize,
) -> Result<Vec<u8>, FileFault>
    ensures { IfOk result (λ v. length v.items ≤ limit) }
{
    match std::fs::open(rt, name) {
        Ok(mut file) => read_to_limit(alloc, &mut file, limit),
        Err(_) => Err(FileFault::Failed),
    }
}

impl<'a, R: FileSystem> Files for HostFiles<'a, R> {
    ghost use Rattle.std.specs.Prelude.{None, string_bytes};

    ghost contents = { λ h. None };

    ghost faults = { λ h. h.faults };

    ghost failed = { λ h. string_bytes h.failed };

    fn faults(&self) -> u64 {
        self.faults
    }

    fn failed(&self) -> &str {
        self.failed.as_str()
    }

    fn read_all(&mut self, name: &str, limit: usize) -> Result<Vec<u8>, FileFault> {
        let Ok(copy) = String::from_str(self.alloc, name) else {
            return Err(FileFault::NoMemory);
        };
        match read_file(self.rt, self.alloc, name, limit) {
            Err(FileFault::Failed) => {
                self.faults = self.faults.saturating_add(1);
                self.failed = copy;
                Err(FileFault::Failed)
            }
            other => other,
        }
    }
}

/// A writer as a sink, as standard output.
#[derive(Drop)]
pub struct HostSink<W> {
    writer: W,
    faults: u64,
}

impl<W> HostSink<W> {
    ghost use Rattle.std.specs.Prelude.{◌≡◌};

    pub fn new(writer: W) -> HostSink<W>
        ensures { result.faults ≡ 0 }
    {
        HostSink { writer, faults: 0 }
    }
}

impl<W: Write> Sink for HostSink<W> {
    ghost use Rattle.std.specs.Prelude.{None};

    ghost contents = { λ h. None };

    ghost faults = { λ h. h.faults };

    fn faults(&self) -> u64 {
        self.faults
    }

    fn put(&mut self, bytes: &[u8]) -> Result<(), SinkFailed> {
        match self.writer.write_all(bytes) {
            Ok(()) => Ok(()),
            Err(_) => {
                self.faults = self.faults.saturating_add(1);
                Err(SinkFailed)
            }
        }
    }
}
