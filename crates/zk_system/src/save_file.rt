// The file of a saved game.

ghost use Rattle.std.specs.Prelude.{◌≡◌};
ghost use Rattle.zk_system.specs.Files.{is_folder_name, names_file};
ghost use Rattle.zk_system.specs.NoFile.{NothingIsKept};

use crate::asking::Asker;
use crate::keeping::{Kept, find, keep};
use crate::no_game::{NoGame, answer_of};
use crate::reason::tell_reason;
use crate::shown::Shown;
use std::alloc::{AllocError, Global};
use std::{fs, mem};
use zk_save::restore::RestoreError;
use zk_vm::slot::SaveSlot;

/// Tells why no game can be kept in a folder, where that is known: it is not there, or is none.
pub fn tell_no_folder(rt: &HostRuntime, folder: &str) {
    match fs::metadata(rt, folder) {
        Ok(found) if found.is_dir() => {}
        Ok(_) => {
            let _ = eprintln!(rt; "zkit: {}: it is no folder", Shown(folder));
        }
        Err(error) => tell_reason(rt, folder, &error),
    }
}

/// Where saved games are kept.
#[derive(Clone, Copy, Drop)]
pub enum SavePlace<'a> {
    /// In one file.
    File(&'a str),
    /// In files of a folder, whose names are asked for.
    Folder(&'a str),
}

/// A file that holds a saved game, where options name one or its folder. A new game is written beside it and then takes
/// its place: where that fails, the one before stays whole. What goes wrong is told on standard error, and so is once
/// that no file is named. In a folder each save and restore asks for the file's name, and offers the one before; a file
/// that is there is replaced where that is allowed.
#[derive(Drop)]
pub struct SaveFile<'a> {
    rt: &'a HostRuntime,
    place: Option<SavePlace<'a>>,
    asker: Asker<'a>,
    /// The name that is offered in a folder.
    offered: String,
    /// The name that was offered before, where another was typed.
    before: Option<String>,
    /// The file that was named last in a folder.
    named: Option<String>,
    told: bool,
}

impl<'a> SaveFile<'a> {
    pub fn new(
        rt: &'a HostRuntime,
        place: Option<SavePlace<'a>>,
        asker: Asker<'a>,
        offered: String,
    ) -> SaveFile<'a> {
        SaveFile {
            rt,
            place,
            asker,
            offered,
            before: None,
            named: None,
            told: false,
        }
    }

    /// Tells which option is missing.
    fn tell_missing(&mut self)
        ensures { self.new.place ≡ self.old.place }
    {
        if !self.told {
            self.told = true;
            let _ = eprintln!(self.rt;
                "zkit: the story saves or restores a game, and has no file for it: --save FILE names one"
            );
        }
    }

    /// The path of the file in a folder whose name is typed, if there is one; the name is offered from then on.
    fn ask_path(&mut self, folder: &str, doing: &str) -> Option<String>
        ensures { self.new.place ≡ self.old.place }
    {
        let Some(name) = self.asker.ask_name(doing, self.offered.as_str()) else {
            let _ = eprintln!(self.rt; "zkit: no file was named");
            return None;
        };
        if !is_name(name.as_str()) {
            let _ = eprintln!(self.rt;
                "zkit: {}: a file name without / is needed",
                Shown(name.as_str())
            );
            return None;
        }
        let path = format!(in self.rt.alloc(); "{folder}/{name}").ok()?;
        self.before = Some(mem::replace(&mut self.offered, name));
        Some(path)
    }

    /// Offers again what was offered before, since there is no saved game in the file that was named.
    fn take_back(&mut self)
        ensures { self.new.place ≡ self.old.place }
    {
        if let Some(name) = self.before.take() {
            self.offered = name;
        }
    }

    /// Keeps a saved game in a file of a folder.
    fn put_named(&mut self, folder: &str, file: &[u8]) -> bool
        ensures { self.new.place ≡ self.old.place }
    {
        let Some(path) = self.ask_path(folder, "save to") else {
            return false;
        };
        let is_there = fs::exists(self.rt, path.as_str()).unwrap_or(false);
        if is_there && !self.asker.may_replace(path.as_str()) {
            return false;
        }
        keep(self.rt, path.as_str(), file, Kept::Game)
    }

    /// The saved game in a file of a folder.
    fn get_named(&mut self, folder: &str, alloc: Global) -> Result<Option<Vec<u8>>, AllocError>
        ensures { self.new.place ≡ self.old.place }
    {
        let Some(path) = self.ask_path(folder, "restore from") else {
            return Ok(None);
        };
        let found = find_in(self.rt, alloc, path.as_str());
        self.named = Some(path);
        if !matches!(found, Ok(Some(_))) {
            self.take_back();
        }
        found
    }
}

/// Whether a name is that of a folder, or none.
fn names_folder(name: &[u8]) -> bool
    ensures { result ≡ is_folder_name name.now }
{
    name.is_empty() || name == b".".as_slice() || name == b"..".as_slice()
}

/// Whether a text names a file in a folder: it has no slash and no zero byte, which stands for what is no text, and is
/// no name of a folder.
fn is_name(text: &str) -> bool
    ensures { result ≡ names_file text.now }
{
    let name = text.as_bytes();
    !names_folder(name) && !name.contains(&b'/') && !name.contains(&0)
}

/// Tells why a saved game is refused.
fn tell_refused(rt: &HostRuntime, path: &str, error: RestoreError) {
    let _ = eprintln!(rt; "zkit: {}: no saved game: {}", Shown(path), error.text());
}

/// The saved game of a file, and tells why where there is none.
fn find_in(rt: &HostRuntime, alloc: Global, path: &str) -> Result<Option<Vec<u8>>, AllocError> {
    let found = find(rt, alloc, path);
    match &found {
        Err(error) if !error.lacks_memory() => {
            let _ = eprintln!(rt; "zkit: {}: no saved game: {}", Shown(path), error);
        }
        _ => {}
    }
    answer_of(found)
}

impl SaveSlot for SaveFile<'_> {
    ghost use Rattle.zk_system.specs.SaveFiles.{held_in, keeps_in};

    ghost held = { λ s. held_in s.place };

    ghost keeps = { λ s _. keeps_in s.place };

    fn put(&mut self, file: &[u8]) -> bool {
        match self.place {
            None => {
                self.tell_missing();
                false
            }
            Some(SavePlace::File(path)) => keep(self.rt, path, file, Kept::Game),
            Some(SavePlace::Folder(folder)) => self.put_named(folder, file),
        }
    }

    fn get(&mut self, alloc: Global) -> Result<Option<Vec<u8>>, AllocError> {
        match self.place {
            None => {
                self.tell_missing();
                Ok(None)
            }
            Some(SavePlace::File(path)) => find_in(self.rt, alloc, path),
            Some(SavePlace::Folder(folder)) => self.get_named(folder, alloc),
        }
    }

    fn refuse(&mut self, error: RestoreError) {
        if let Some(SavePlace::File(path)) = self.place {
            tell_refused(self.rt, path, error);
        } else if let Some(path) = &self.named {
            tell_refused(self.rt, path.as_str(), error);
            self.take_back();
        }
    }
}

/// Where no file is named, each answer of the slot is that no game was kept, or that there is none.
pub fn nothing_is_kept_without_a_file()
    ensures { NothingIsKept }
{}
