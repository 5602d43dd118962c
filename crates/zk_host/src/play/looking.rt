// What a host sees of a play, which stays as it is.

ghost use Rattle.std.specs.Prelude.{◌≡◌, drop, length};
ghost use Rattle.zk_host.specs.Looking.{AreObjects, IsFrame, frame_numbered, hash_at, locals_of, object_numbered};
ghost use Rattle.zk_host.specs.Looking.{place_figures, property_numbered, words_of};
ghost use Rattle.zk_host.specs.Names.{IsObjectName};
ghost use Rattle.zk_host.specs.Texts.{IsPutInFront};

use crate::looking::{
    FrameFigures, ObjectFigures, PlaceFigures, PropertyFigures, bytes_from, frame_of, hash_of,
    object_numbered, place_of, property_numbered, put_locals, put_stack,
};
use crate::name::object_name;
use crate::play::Play;
use crate::text::put_front;
use std::alloc::Global;
use zk_inspect::objects::count_objects;
use zk_mem::fault::Fault;

impl Play {
    /// How many bytes of the screen's text wait to be taken.
    pub fn waiting_text(&self) -> usize
        ensures { result ≡ length self.now.text.screen.bytes }
    {
        self.text.screen.len()
    }

    /// How many bytes of the transcript's text wait to be taken.
    pub fn waiting_script(&self) -> usize
        ensures { result ≡ length self.now.text.script.bytes }
    {
        self.text.script.len()
    }

    /// Where the play stands.
    pub fn place(&self) -> PlaceFigures
        ensures { result ≡ place_figures self.now.machine }
    {
        place_of(self.machine.machine())
    }

    /// What is known of the open routine of a number, if there is one: that which the story begins in has 0.
    pub fn frame(&self, number: u32) -> Option<FrameFigures>
        ensures { IsFrame self.now.machine number result }
    {
        frame_of(self.machine.machine(), number)
    }

    /// Puts the local variables of an open routine at the front of a buffer, as many as it has room for.
    pub fn locals(&self, number: u32, buffer: &mut [u16]) -> usize
        ensures { IsPutInFront (locals_of (frame_numbered self.now.machine number)) buffer.old buffer.new result }
    {
        put_locals(self.machine.machine(), number, buffer)
    }

    /// Puts the words of an open routine's evaluation stack there, the newest last.
    pub fn stack(&self, number: u32, buffer: &mut [u16]) -> usize
        ensures { IsPutInFront (words_of (frame_numbered self.now.machine number)) buffer.old buffer.new result }
    {
        put_stack(self.machine.machine(), number, buffer)
    }

    /// Puts the bytes of memory from an address on at the front of a buffer, as many as it has room for.
    pub fn memory(&self, address: u32, buffer: &mut [u8]) -> usize
        ensures { IsPutInFront (drop address self.now.machine.state.game.memory.bytes) buffer.old buffer.new result }
    {
        put_front(bytes_from(self.machine.machine().memory(), address), buffer)
    }

    /// The hash of so many bytes of memory from an address on.
    pub fn hash(&self, address: u32, count: u32) -> u64
        ensures { result ≡ hash_at self.now.machine.state.game.memory address count }
    {
        let bytes = bytes_from(self.machine.machine().memory(), address);
        hash_of(&bytes[..(count as usize).min(bytes.len())])
    }

    /// How many objects the story has.
    pub fn objects(&self) -> u16
        ensures { AreObjects self.now.machine result }
    {
        count_objects(self.machine.machine().memory())
    }

    /// An object as it stands.
    pub fn object(&self, object: u32) -> Result<ObjectFigures, Fault>
        ensures { result ≡ object_numbered self.now.machine.state.game.memory object }
    {
        object_numbered(self.machine.machine().memory(), object)
    }

    /// A property of an object.
    pub fn property(&self, object: u32, number: u32) -> Result<PropertyFigures, Fault>
        ensures { result ≡ property_numbered self.now.machine.state.game.memory object number }
    {
        property_numbered(self.machine.machine().memory(), object, number)
    }

    /// Collects the short name of an object in the place of that of the status line.
    pub fn name_object(&mut self, alloc: Global, object: u32)
        ensures name { IsObjectName self.old.machine.state.game.memory object self.new.name }
        ensures beside { self.new ≡ record self.old { name = self.new.name } }
    {
        self.name = object_name(alloc, self.machine.machine().memory(), object);
    }
}
