// The file of a transcript.

ghost use Rattle.std.specs.Prelude.{◌≡◌, ◌≤◌, ◌<◌, false, length, IfOk, IsSome, OnOk};
ghost use Rattle.zk_system.specs.ScriptFiles.{failed_in};

use crate::watched::{DeviceNotes, Watched};
use std::fs::File;
use zk_term::io_device::IoDevice;
use zk_term::target::{Failed, Target};

/// A file that the first write makes or empties, even a write of no bytes, where an option names one. Without one what
/// it takes is dropped, and standard error says so once.
#[derive(Drop)]
pub struct ScriptFile<'a> {
    rt: &'a HostRuntime,
    path: Option<&'a str>,
    notes: &'a DeviceNotes,
    file: Option<IoDevice<Watched<'a, File>>>,
    told: bool,
    failed: bool,
}

impl<'a> ScriptFile<'a> {
    pub fn new(rt: &'a HostRuntime, path: Option<&'a str>, notes: &'a DeviceNotes) -> ScriptFile<'a>
        ensures { failed_in result.path result.failed ≡ false }
    {
        ScriptFile {
            rt,
            path,
            notes,
            file: None,
            told: false,
            failed: false,
        }
    }

    /// Drops bytes, and tells which option is missing.
    fn drop_bytes(&mut self, bytes: &[u8]) -> usize
        ensures count { result ≡ length bytes.now }
        ensures path { self.new.path ≡ self.old.path }
    {
        if !self.told && !bytes.is_empty() {
            self.told = true;
            let _ = eprintln!(self.rt;
                "zkit: the story writes a transcript, and has no file for it: --script FILE names one"
            );
        }
        bytes.len()
    }
}

/// Writes to a file, which is made or emptied where it is not open yet.
fn write_to<'a>(
    rt: &HostRuntime,
    path: &str,
    notes: &'a DeviceNotes,
    file: &mut Option<IoDevice<Watched<'a, File>>>,
    bytes: &[u8],
) -> Result<usize, Failed>
    ensures count { IfOk result (λ n. n ≤ length bytes.now) }
    ensures progress { 0 < length bytes.now → IfOk result (λ n. 0 < n) }
    ensures open { OnOk result (IsSome file.new) }
{
    if let Some(open) = file {
        return open.write(bytes);
    }
    let made = match File::create(rt, path) {
        Ok(made) => made,
        Err(error) => {
            notes.note(&error);
            return Err(Failed);
        }
    };
    let mut open = IoDevice::new(Watched::new(made, notes));
    let written = open.write(bytes);
    *file = Some(open);
    written
}

impl Target for ScriptFile<'_> {
    ghost use Rattle.std.specs.Prelude.{◌≡◌, None, true};
    ghost use Rattle.zk_system.specs.ScriptFiles.{failed_in};

    ghost taken = { λ _. None };

    ghost failed = { λ s. failed_in s.path s.failed };

    ghost fails = { λ _ s. failed_in s.path s.failed ≡ true };

    ghost whole = { λ _. Unit {0} };

    fn write(&mut self, bytes: &[u8]) -> Result<usize, Failed> {
        let Some(path) = self.path else {
            return Ok(self.drop_bytes(bytes));
        };
        match write_to(self.rt, path, self.notes, &mut self.file, bytes) {
            Ok(count) => Ok(count),
            Err(Failed) => {
                self.failed = true;
                Err(Failed)
            }
        }
    }

    fn flush(&mut self) -> Result<(), Failed> {
        let Some(_path) = self.path else {
            return Ok(());
        };
        let Some(file) = &mut self.file else {
            return Ok(());
        };
        match file.flush() {
            Ok(()) => Ok(()),
            Err(Failed) => {
                self.failed = true;
                Err(Failed)
            }
        }
    }
}
