// Listings of small stories.

use crate::tests_same::same;
use std::alloc::Global;
use std::io::{self, Write};
use std::test::Fail;
use zk_inspect::listing::list_reached;
use zk_inspect::plain_text::PlainText;
use zk_mem::memory::{Memory, ScreenSetup, Setup};
use zk_mem::story::Story;
use zk_term::io_device::IoDevice;
use zk_term::line_writer::TargetWriter;
use zk_term::target::{Failed, Target};

/// A story that ends with this code, which begins at 0x40.
pub(crate) fn story(alloc: Global, version: u8, code: &[u8]) -> Result<Memory, Fail> {
    story_from(alloc, version, 0x40, code)
}

/// A story that ends with this code from 0x40 on, whose first instruction is given.
pub(crate) fn story_from(
    alloc: Global,
    version: u8,
    first: u8,
    code: &[u8],
) -> Result<Memory, Fail> {
    let mut header = [0; 64];
    header[0] = version;
    header[0x05] = 0x40;
    header[0x07] = first;
    header[0x0f] = 0x40;
    let mut file = header.to_vec(alloc)?;
    file.extend_from_slice(code)?;
    let story = Story::open(alloc, file.as_slice())?;
    Ok(Memory::start(
        alloc,
        story,
        Setup {
            undo_states: 16,
            screen: ScreenSetup::plain(),
        },
    )?)
}

/// The disassembly of such a story.
pub(crate) fn listed(alloc: Global, version: u8, code: &[u8]) -> Result<Vec<u8>, Fail> {
    list(alloc, &story(alloc, version, code)?)
}

/// Writes the disassembly of a story, and tells whether that failed.
pub(crate) fn disassemble<T: Target>(
    alloc: Global,
    memory: &Memory,
    target: &mut T,
) -> Result<(), Failed> {
    let mut writer = TargetWriter::new(target);
    let mut text = PlainText::new(memory, false, &mut writer);
    let listed = list_reached(alloc, memory, &[], &[], &mut text);
    match (writer.finish(), listed) {
        (Ok(()), Ok(())) => Ok(()),
        _ => Err(Failed),
    }
}

pub(crate) fn list(alloc: Global, memory: &Memory) -> Result<Vec<u8>, Fail> {
    let mut target = IoDevice::new(Vec::new(alloc));
    match disassemble(alloc, memory, &mut target) {
        Ok(()) => {}
        Err(Failed) => {}
    }
    Ok(target.into_inner())
}

#[test]
fn routines_are_listed(rt: HostRuntime) -> Result<(), Fail> {
    let text = listed(
        rt.alloc(),
        3,
        &[
            0xe0, 0x3f, 0, 0x23, 0, 0xba, 0, 0xe0, 0x3f, 0, 0x23, 0, 0xb0,
        ],
    )?;
    same(
        &rt,
        text.as_slice(),
        b"00040 call #0023 -> sp\n00045 quit\n00047 call #0023 -> sp\n0004c rtrue\nroutine 00046 locals 0\n".as_slice(),
    );
    Ok(())
}

/// Has no room for more than three bytes.
struct Narrow {
    taken: Vec<u8>,
}

impl Write for Narrow {
    fn write(&mut self, bytes: &[u8]) -> io::Result<usize> {
        match bytes {
            [first, ..] if self.taken.len() < 3 => {
                self.taken.push(*first)?;
                Ok(1)
            }
            _ => Err(io::ErrorKind::Other.into()),
        }
    }

    fn flush(&mut self) -> io::Result<()> {
        Ok(())
    }
}

#[test]
fn a_failed_write_is_told(rt: HostRuntime) -> Result<(), Fail> {
    let memory = story(rt.alloc(), 3, &[0xb2, 0xb5, 0xc5, 0xbb, 0xba])?;
    let mut target = IoDevice::new(Narrow {
        taken: Vec::new(rt.alloc()),
    });
    same(
        &rt,
        disassemble(rt.alloc(), &memory, &mut target),
        Err(Failed),
    );
    let Narrow { taken } = target.into_inner();
    same(&rt, taken.as_slice(), b"000".as_slice());
    Ok(())
}
