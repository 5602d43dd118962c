// The devices of a play in memory: its commands, what it shows, and its saved game.

ghost use Rattle.std.specs.Prelude.{◌≡◌, false};

use std::alloc::{AllocError, Global};
use std::cell::Cell;
use zk_save::restore::RestoreError;
use zk_term::source::Source;
use zk_term::target::{Failed, Target};
use zk_vm::slot::SaveSlot;

/// What a play in memory has shown, and how much of it there was as each command was asked for.
#[derive(Drop)]
pub struct Session {
    alloc: Global,
    text: Cell<Vec<u8>>,
    length: Cell<usize>,
    asked: Cell<Vec<usize>>,
    lacks_memory: Cell<bool>,
}

impl Session {
    pub fn new(alloc: Global) -> Session {
        Session {
            alloc,
            text: Cell::new(Vec::new(alloc)),
            length: Cell::new(0),
            asked: Cell::new(Vec::new(alloc)),
            lacks_memory: Cell::new(false),
        }
    }

    /// Whether something could not be kept, since there was no memory for it.
    pub fn lacks_memory(&self) -> bool {
        self.lacks_memory.get()
    }

    /// Notes that there was no memory where something could not be added.
    fn note(&self, is_added: bool) -> Result<(), AllocError> {
        if is_added {
            return Ok(());
        }
        self.lacks_memory.set(true);
        Err(AllocError)
    }

    /// Adds to what was shown.
    fn show(&self, bytes: &[u8]) -> Result<(), AllocError> {
        let mut text = self.text.replace(Vec::new(self.alloc));
        let added = text.extend_from_slice(bytes);
        self.length.set(text.len());
        self.text.set(text);
        self.note(added.is_ok())
    }

    /// Notes that a command is asked for.
    fn note_asked(&self) -> Result<(), AllocError> {
        let mut asked = self.asked.replace(Vec::new(self.alloc));
        let added = asked.push(self.length.get());
        self.asked.set(asked);
        self.note(added.is_ok())
    }

    /// All that was shown, and how many bytes of it there were as each command was asked for.
    pub fn into_parts(self) -> (Vec<u8>, Vec<usize>) {
        (self.text.into_inner(), self.asked.into_inner())
    }
}

/// The commands of a play, each with a new line after it.
#[derive(Drop)]
pub struct Commands<'a> {
    session: &'a Session,
    bytes: &'a [u8],
    at: usize,
}

impl<'a> Commands<'a> {
    pub fn new(session: &'a Session, bytes: &'a [u8]) -> Commands<'a> {
        Commands {
            session,
            bytes,
            at: 0,
        }
    }
}

impl Source for Commands<'_> {
    ghost use Rattle.std.specs.Prelude.{None, false};

    ghost left = { λ _. None };

    ghost failed = { λ _. false };

    ghost fails = { λ _ _. Unit {0} };

    ghost gives = { λ _ _ _. Unit {0} };

    ghost ends = { λ _ _. Unit {0} };

    fn read(&mut self, buffer: &mut [u8]) -> Result<usize, Failed> {
        let Some(byte) = self.bytes.get(self.at).copied() else {
            return Ok(0);
        };
        if buffer.is_empty() {
            return Ok(0);
        }
        if self.at == 0 || self.bytes[self.at - 1] == b'\n' {
            let _ = self.session.note_asked();
        }
        self.at += 1;
        buffer[0] = byte;
        Ok(1)
    }
}

/// The screen of a play in memory.
#[derive(Drop)]
pub struct SessionScreen<'a> {
    session: &'a Session,
    failed: bool,
}

impl<'a> SessionScreen<'a> {
    pub fn new(session: &'a Session) -> SessionScreen<'a>
        ensures { result.failed ≡ false }
    {
        SessionScreen {
            session,
            failed: false,
        }
    }
}

impl Target for SessionScreen<'_> {
    ghost use Rattle.std.specs.Prelude.{◌≡◌, None, true};

    ghost taken = { λ _. None };

    ghost failed = { λ s. s.failed };

    ghost fails = { λ _ s. s.failed ≡ true };

    ghost whole = { λ _. Unit {0} };

    fn write(&mut self, bytes: &[u8]) -> Result<usize, Failed> {
        match self.session.show(bytes) {
            Ok(()) => Ok(bytes.len()),
            Err(_) => {
                self.failed = true;
                Err(Failed)
            }
        }
    }

    fn flush(&mut self) -> Result<(), Failed> {
        Ok(())
    }
}

/// A saved game in memory.
#[derive(Drop)]
pub struct MemorySlot {
    alloc: Global,
    file: Option<Vec<u8>>,
}

impl MemorySlot {
    /// Without a saved game.
    pub fn new(alloc: Global) -> MemorySlot {
        MemorySlot { alloc, file: None }
    }
}

impl SaveSlot for MemorySlot {
    ghost use Rattle.std.specs.Prelude.{Some, None, option_map};

    ghost held = { λ s. Some (option_map (λ v. v.items) s.file) };

    ghost keeps = { λ _ _. None };

    fn put(&mut self, file: &[u8]) -> bool {
        match Vec::from_slice(self.alloc, file) {
            Ok(copy) => {
                self.file = Some(copy);
                true
            }
            Err(_) => false,
        }
    }

    fn get(&mut self, alloc: Global) -> Result<Option<Vec<u8>>, AllocError> {
        match &self.file {
            Some(file) => Ok(Some(Vec::from_slice(alloc, file.as_slice())?)),
            None => Ok(None),
        }
    }

    fn refuse(&mut self, _error: RestoreError) {}
}
