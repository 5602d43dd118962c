// States that are kept and gone back to.

use crate::tests_same::same;
use std::process::Abort;
use std::test::Fail;
use zk_mem::memory::{Memory, ScreenSetup, Setup};
use zk_mem::story::Story;
use zk_save::undo::Undo;
use zk_state::frames::Frames;

/// The memory of a story of version 3 with 128 bytes, of which 96 are dynamic.
pub(crate) fn started(rt: &(impl Abort + AllocGlobal)) -> Result<Memory, Fail> {
    let mut bytes = vec![in rt.alloc(); 0u8; 128]?;
    bytes[0x00] = 3;
    bytes[0x07] = 0x40;
    bytes[0x0f] = 0x60;
    bytes[0x40] = 9;
    bytes[0x5f] = 9;
    bytes[0x60] = 9;
    let story = Story::open(rt.alloc(), bytes.as_slice())?;
    Ok(Memory::start(
        rt.alloc(),
        story,
        Setup {
            undo_states: 2,
            screen: ScreenSetup::plain(),
        },
    )?)
}

/// The first frame, with a word.
pub(crate) fn first(rt: &(impl Abort + AllocGlobal)) -> Result<Frames, Fail> {
    let mut frames = Frames::new(rt.alloc(), 3, 9)?;
    same(&rt, frames.push(0), Ok(()));
    Ok(frames)
}

#[test]
fn the_newest_states_are_kept(rt: HostRuntime) -> Result<(), Fail> {
    let mut undo = Undo::new(rt.alloc(), 2)?;
    let mut memory = started(&rt)?;
    let mut frames = first(&rt)?;
    undo.put(&memory, &frames, 70)?;
    undo.put(&memory, &frames, 80)?;
    undo.put(&memory, &frames, 90)?;
    same(&rt, undo.len(), 2);
    same(&rt, undo.take(&mut memory, &mut frames), Some(90));
    same(&rt, undo.take(&mut memory, &mut frames), Some(80));
    same(&rt, undo.take(&mut memory, &mut frames), None);
    same(&rt, undo.take(&mut memory, &mut frames), None);
    same(&rt, undo.len(), 0);
    Ok(())
}

#[test]
fn without_room_nothing_is_kept(rt: HostRuntime) -> Result<(), Fail> {
    let mut undo = Undo::new(rt.alloc(), 0)?;
    let mut memory = started(&rt)?;
    let mut frames = first(&rt)?;
    same(&rt, undo.put(&memory, &frames, 70), Ok(()));
    same(&rt, undo.len(), 0);
    same(&rt, undo.take(&mut memory, &mut frames), None);
    Ok(())
}
