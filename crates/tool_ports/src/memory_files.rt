// Files in memory, of which some reads fail.
ghost use Rattle.std.specs.Prelude.{◌≡◌, ◌==◌, ◌≤◌, [], ◌∷◌, ◌++◌, OnErr, OnOk, IfOk, Some, None, if◌then◌else◌, map, string_bytes};
ghost use Rattle.std.specs.List.{list_any};
ghost use Rattle.std.specs.Option.{option_map, option_copied};
ghost use Rattle.tool_ports.specs.Ports.{file_named, ReadsFrom, ReadCause};
ghost use Rattle.tool_ports.specs.MemoryFiles.{pair_of, bytes_of};
ghost use Rattle.tool_ports.specs.Memory.{Answers, next};

use crate::{FileFault, Files};
use std::alloc::{AllocError, Global};
use std::marker::Model;

#[derive(Drop)]
struct NamedFile {
    name: String,
    bytes: Vec<u8>,
}

/// Files in memory. The reads are numbered from 1, and those of a list fail. A read that finds no memory has a number, too.
#[derive(Drop)]
pub struct MemoryFiles {
    alloc: Global,
    files: Vec<NamedFile>,
    fails: Vec<u32>,
    reads: u64,
    faults: u64,
    failed: String,
}

impl Model for MemoryFiles {
    ghost use Rattle.std.specs.Prelude.{map, string_bytes};
    ghost use Rattle.tool_ports.specs.Memory.{FilesInMemory};
    ghost use Rattle.tool_ports.specs.MemoryFiles.{pair_of};

    ghost Value = { FilesInMemory };

    ghost view = { λ m. record { files = map pair_of m.files.items; fails = m.fails.items; reads = m.reads; faults = m.faults; failed = string_bytes m.failed } };
}

/// The first file of that name.
fn find<'a>(files: &'a [NamedFile], name: &str) -> Option<&'a NamedFile>
    ensures { option_map bytes_of (option_copied result) ≡ file_named name.now (map pair_of files.now) }
{
    for file in files {
        if file.name.as_str() == name {
            return Some(file);
        }
    }
    None
}

impl MemoryFiles {
    /// No files. The reads whose numbers are in `fails` will fail.
    pub fn new(alloc: Global, fails: &[u32]) -> Result<MemoryFiles, AllocError>
        ensures { IfOk result (λ m. m ≡ record { files = []; fails = fails.now; reads = 0; faults = 0; failed = [] }) }
    {
        Ok(MemoryFiles {
            alloc,
            files: Vec::new(alloc),
            fails: Vec::from_slice(alloc, fails)?,
            reads: 0,
            faults: 0,
            failed: String::new(alloc),
        })
    }

    /// Puts a file at the end of the list; after an error nothing has changed.
    pub fn add(&mut self, name: &str, bytes: &[u8]) -> Result<(), AllocError>
        ensures ok { OnOk result (self.new ≡ record self.old { files = self.old.files ++ (name.now, bytes.now) ∷ [] }) }
        ensures err { OnErr result (self.new ≡ self.old) }
    {
        let file = NamedFile {
            name: String::from_str(self.alloc, name)?,
            bytes: Vec::from_slice(self.alloc, bytes)?,
        };
        self.files.push(file)?;
        Ok(())
    }

    // Whether the read of the present number is listed.
    fn is_refused(&self) -> bool
        ensures { result ≡ list_any (λ number. number == self.now.reads) self.now.fails }
    {
        self.fails.iter().any(|number| *number as u64 == self.reads)
    }

    // What the read of the present number finds.
    fn lookup(&self, name: &str) -> Option<&[u8]>
        ensures { option_copied result ≡ (if list_any (λ number. number == self.now.reads) self.now.fails then None else file_named name.now self.now.files) }
    {
        if self.is_refused() {
            return None;
        }
        match find(&self.files, name) {
            Some(file) => Some(file.bytes.as_slice()),
            None => None,
        }
    }

    fn fail(&mut self, name: String)
        ensures later { self.old.faults ≤ self.new.faults }
        ensures kept { self.new ≡ record self.old { faults = next self.old.faults; failed = string_bytes name } }
    {
        self.faults = self.faults.saturating_add(1);
        self.failed = name;
    }
}

impl Files for MemoryFiles {
    ghost use Rattle.std.specs.Prelude.{Some};

    ghost contents = { λ m. Some m.files };

    ghost faults = { λ m. m.faults };

    ghost failed = { λ m. m.failed };

    fn faults(&self) -> u64 {
        self.faults
    }

    fn failed(&self) -> &str {
        self.failed.as_str()
    }

    fn read_all(&mut self, name: &str, limit: usize) -> Result<Vec<u8>, FileFault>
        ensures same { Some self.new.files ≡ Some self.old.files }
        ensures bytes { ReadsFrom (Some self.old.files) name.now limit result }
        ensures cause { ReadCause name.now self.old.faults self.new.faults self.old.failed self.new.failed result }
        ensures exact { Answers self.old self.new name.now limit result }
    {
        self.reads = self.reads.saturating_add(1);
        let Ok(copy) = String::from_str(self.alloc, name) else {
            return Err(FileFault::NoMemory);
        };
        let Some(bytes) = self.lookup(name) else {
            self.fail(copy);
            return Err(FileFault::Failed);
        };
        if bytes.len() > limit {
            return Err(FileFault::TooLong);
        }
        match Vec::from_slice(self.alloc, bytes) {
            Ok(bytes) => Ok(bytes),
            Err(_) => Err(FileFault::NoMemory),
        }
    }
}

#[cfg(test)]
mod tests {
    use super::*;
    use std::test::Fail;

    #[test]
    fn reads_fail_by_number_and_by_name(rt: HostRuntime) -> Result<(), Fail> {
        let mut files = MemoryFiles::new(rt.alloc(), &[2])?;
        files.add("a", b"one")?;
        files.add("a", b"other")?;
        let first = files.read_all("a", 3);
        assert_eq!(rt; first.ok().ok_or("read 1")?.as_slice(), b"one".as_slice());
        assert_eq!(rt; files.read_all("a", 3).err(), Some(FileFault::Failed));
        assert_eq!(rt; files.read_all("a", 2).err(), Some(FileFault::TooLong));
        assert_eq!(rt; files.faults(), 1);
        assert_eq!(rt; files.read_all("b", 2).err(), Some(FileFault::Failed));
        assert_eq!(rt; files.failed(), "b");
        assert_eq!(rt; files.faults(), 2);
        Ok(())
    }
}
