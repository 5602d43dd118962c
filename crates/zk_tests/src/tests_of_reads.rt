// Machines that read: what they wait for, and what is written when the reader is asked.

use crate::tests_of_machines::started;
use crate::tests_same::{demand, same};
use std::cell::Cell;
use std::io::{self, Read, Write};
use std::test::Fail;
use zk_fast::places::Unnoted;
use zk_mem::memory::ScreenSetup;
use zk_step::state::ending::Event;
use zk_term::io_device::IoDevice;
use zk_term::nothing::Nothing;
use zk_vm::limits::Limits;
use zk_vm::play::{play, turn};
use zk_vm::slot::NoSlot;
use zk_vm::stop::Stop;

pub(crate) const AMPLE: Limits = Limits {
    frames: 9,
    words: 9,
    undo: 0,
    steps: 99,
    screen: ScreenSetup {
        columns: 80,
        styles: false,
    },
};

/// Counts the bytes that it takes.
#[derive(Drop)]
struct Counting<'a> {
    taken: &'a Cell<u32>,
}

impl Write for Counting<'_> {
    fn write(&mut self, bytes: &[u8]) -> io::Result<usize> {
        for _i in 0..bytes.len() {
            self.taken.set(self.taken.get().wrapping_add(1));
        }
        Ok(bytes.len())
    }

    fn flush(&mut self) -> io::Result<()> {
        Ok(())
    }
}

/// Gives one byte at a time, and notes as a decimal digit how many bytes were written when it was asked.
#[derive(Drop)]
struct Watching<'a> {
    taken: &'a Cell<u32>,
    noted: &'a Cell<u32>,
    rest: &'a [u8],
}

impl Read for Watching<'_> {
    fn read(&mut self, buffer: &mut [u8]) -> io::Result<usize> {
        let digit = self.taken.get();
        self.noted
            .set(self.noted.get().wrapping_mul(10).wrapping_add(digit));
        match (self.rest, buffer) {
            ([byte, rest @ ..], [first, ..]) => {
                *first = *byte;
                self.rest = rest;
                Ok(1)
            }
            _ => Ok(0),
        }
    }
}

#[test]
fn turns_go_from_read_to_read(rt: HostRuntime) -> Result<(), Fail> {
    // print_char a, read_char -> sp, quit
    let code = [0xe5, 0x7f, 0x61, 0xf6, 0x7f, 0x01, 0x00, 0xba];
    let mut machine = started(&rt, AMPLE, &code)?;
    let taken = Cell::new(0);
    let mut screen = IoDevice::new(Counting { taken: &taken });
    demand(&rt, machine.waiting() == None);
    let first = turn(
        rt.alloc(),
        &mut screen,
        &mut Nothing,
        &mut NoSlot,
        &mut machine,
        &mut Unnoted,
    );
    same(&rt, first, Ok(Event::Char));
    same(&rt, taken.get(), 1);
    same(&rt, machine.waiting(), Some(Event::Char));
    if machine.waiting() == Some(Event::Char) {
        machine.answer_char(120);
        demand(&rt, machine.waiting() == None);
        let mut screen = IoDevice::new(Counting { taken: &taken });
        let last = turn(
            rt.alloc(),
            &mut screen,
            &mut Nothing,
            &mut NoSlot,
            &mut machine,
            &mut Unnoted,
        );
        same(&rt, last, Err(Stop::Quit));
        same(&rt, taken.get(), 1);
    }
    Ok(())
}

#[test]
fn all_text_is_written_before_the_reader_is_asked(rt: HostRuntime) -> Result<(), Fail> {
    // print_char a, read_char -> sp, print_char b, print_char c, read_char -> sp, quit
    let code = [
        0xe5, 0x7f, 0x61, 0xf6, 0x7f, 0x01, 0x00, 0xe5, 0x7f, 0x62, 0xe5, 0x7f, 0x63, 0xf6, 0x7f,
        0x01, 0x00, 0xba,
    ];
    let mut machine = started(&rt, AMPLE, &code)?;
    let (taken, noted) = (Cell::new(0), Cell::new(0));
    let mut screen = IoDevice::new(Counting { taken: &taken });
    let mut reader = IoDevice::new(Watching {
        taken: &taken,
        noted: &noted,
        rest: b"x\ny\n",
    });
    let stop = play(
        rt.alloc(),
        &mut reader,
        &mut screen,
        &mut Nothing,
        &mut NoSlot,
        &mut machine,
        &mut Unnoted,
    );
    same(&rt, stop, Stop::Quit);
    // each of the four bytes was asked for when one, one, three and three bytes were written
    same(&rt, noted.get(), 1133);
    same(&rt, taken.get(), 3);
    Ok(())
}
