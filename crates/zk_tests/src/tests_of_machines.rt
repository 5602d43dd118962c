// Machines at their stops, limits, slots and screens that fail.

ghost use Rattle.std.specs.Prelude.{◌≡◌, None, IfOk, OnErr};

use crate::tests_same::{demand, same};
use std::alloc::Global;
use std::io::{self, Write};
use std::process::Abort;
use std::test::Fail;
use zk_fast::places::Unnoted;
use zk_mem::memory::ScreenSetup;
use zk_mem::story::Story;
use zk_state::refusal::Limit;
use zk_step::state::ending::Event;
use zk_step::state::game_state::View;
use zk_term::io_device::IoDevice;
use zk_term::nothing::Nothing;
use zk_vm::limits::Limits;
use zk_vm::machine::Machine;
use zk_vm::play::turn;
use zk_vm::slot::{NoSlot, SaveSlot};
use zk_vm::stop::Stop;

pub(crate) const AMPLE: Limits = Limits {
    frames: 1,
    words: 1,
    undo: 64,
    steps: 1_000_000_000,
    screen: ScreenSetup {
        columns: 80,
        styles: false,
    },
};

/// A machine of a story of version 5, with this code at address 64.
#[tactic(auto, unfolding(zk_vm::specs::Sessions::begun))]
pub(crate) fn started(
    rt: &(impl Abort + AllocGlobal),
    limits: Limits,
    code: &[u8],
) -> Result<Machine, Fail>
    ensures { IfOk result (λ m. m.waiting ≡ None) }
{
    let mut bytes = vec![in rt.alloc(); 0u8; 64]?;
    bytes[0] = 5;
    bytes[0x07] = 0x40;
    bytes[0x0f] = 0x40;
    bytes.extend_from_slice(code)?;
    let story = Story::open(rt.alloc(), bytes.as_slice())?;
    demand(&rt, limits.check());
    Ok(Machine::start(rt.alloc(), story, 1, limits, View::Plain)?)
}

/// Two instructions that do nothing, and a quit.
const IDLE: [u8; 3] = [0xb4, 0xb4, 0xba];

/// A turn of a machine that nobody hears.
fn quiet_turn(alloc: Global, machine: &mut Machine) -> Result<Event, Stop>
    requires { machine.old.waiting ≡ None }
    ensures { OnErr result (machine.new.waiting ≡ None) }
{
    turn(
        alloc,
        &mut Nothing,
        &mut Nothing,
        &mut NoSlot,
        machine,
        &mut Unnoted,
    )
}

#[test]
fn a_stop_is_kept(rt: HostRuntime) -> Result<(), Fail> {
    let mut machine = started(&rt, AMPLE, &IDLE)?;
    let first = quiet_turn(rt.alloc(), &mut machine);
    demand(&rt, first == Err(Stop::Quit));
    let again = quiet_turn(rt.alloc(), &mut machine);
    demand(&rt, again == Err(Stop::Quit));
    machine.close(Stop::Write);
    let closed = quiet_turn(rt.alloc(), &mut machine);
    demand(&rt, closed == Err(Stop::Write));
    let at_last = quiet_turn(rt.alloc(), &mut machine);
    same(&rt, at_last, Err(Stop::Write));
    Ok(())
}

#[test]
fn steps_are_counted(rt: HostRuntime) -> Result<(), Fail> {
    for (steps, stop) in [
        (3, Stop::Quit),
        (2, Stop::Limit(0x42, Limit::Steps)),
        (1, Stop::Limit(0x41, Limit::Steps)),
    ] {
        let mut machine = started(&rt, Limits { steps, ..AMPLE }, &IDLE)?;
        same(&rt, quiet_turn(rt.alloc(), &mut machine), Err(stop));
    }
    Ok(())
}

#[test]
fn no_slot_keeps_nothing(rt: HostRuntime) -> Result<(), Fail> {
    demand(&rt, !NoSlot.put(b""));
    demand(&rt, !NoSlot.put(b"abc"));
    demand(&rt, NoSlot.get(rt.alloc())?.is_none());
    Ok(())
}

/// Fails at its first byte, and takes all later ones.
struct FailsOnce {
    taken: Vec<u8>,
    has_failed: bool,
}

impl Write for FailsOnce {
    fn write(&mut self, bytes: &[u8]) -> io::Result<usize> {
        if !self.has_failed {
            self.has_failed = true;
            return Err(io::ErrorKind::Other.into());
        }
        self.taken.extend_from_slice(bytes)?;
        Ok(bytes.len())
    }

    fn flush(&mut self) -> io::Result<()> {
        Ok(())
    }
}

#[test]
fn nothing_is_written_after_a_failure(rt: HostRuntime) -> Result<(), Fail> {
    // output_stream 2, print_char a, print_char b, quit
    let code = [0xf3, 0x7f, 0x02, 0xe5, 0x7f, 0x61, 0xe5, 0x7f, 0x62, 0xba];
    let mut machine = started(&rt, AMPLE, &code)?;
    let fails = FailsOnce {
        taken: Vec::new(rt.alloc()),
        has_failed: false,
    };
    let (mut screen, mut script) = (IoDevice::new(fails), IoDevice::new(Vec::new(rt.alloc())));
    let stop = turn(
        rt.alloc(),
        &mut screen,
        &mut script,
        &mut NoSlot,
        &mut machine,
        &mut Unnoted,
    );
    same(&rt, stop, Err(Stop::Write));
    let FailsOnce { taken, has_failed } = screen.into_inner();
    demand(&rt, has_failed && taken.is_empty());
    demand(&rt, script.into_inner().is_empty());
    Ok(())
}
