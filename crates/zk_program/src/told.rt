// What is told on standard error beside plays and listings.

ghost use Rattle.std.specs.Prelude.{◌≡◌};
ghost use Rattle.std.specs.IoError.{error_kind};
ghost use Rattle.zk_program.specs.Status.{exit_status, unread_status};

use crate::about::About;
use crate::exit::Exit;
use crate::report::{report_briefly, report_listing};
use std::io::{self, ErrorKind};
use zk_system::reason::tell_reason;
use zk_term::io_device::IoDevice;
use zk_vm::stop::Stop;

/// Tells how the program ends before a play or a listing, and answers its status.
pub fn tell_exit(rt: &HostRuntime, exit: &Exit, about: &About) -> u8
    ensures { result ≡ exit_status exit.now }
{
    report_listing(rt.alloc(), exit, about, &mut IoDevice::new(rt.stderr()))
}

/// Tells the last line alone, and answers the program's status.
pub fn tell_last_line(rt: &HostRuntime, exit: &Exit) -> u8
    ensures { result ≡ exit_status exit.now }
{
    report_briefly(exit, &mut IoDevice::new(rt.stderr()))
}

/// Tells why a file can't be read that is no story, and answers the program's status.
pub fn tell_unread(rt: &HostRuntime, path: &str, error: io::Error) -> u8
    ensures { result ≡ unread_status (error_kind error) }
{
    if error.kind() != ErrorKind::OutOfMemory {
        tell_reason(rt, path, &error);
    }
    tell_last_line(rt, &Exit::Unread(error))
}

/// Tells why a file can't be made or written, and answers the program's status.
pub fn tell_unmade(rt: &HostRuntime, path: &str, error: &io::Error) -> u8
    ensures { result ≡ unread_status (error_kind error.now) }
{
    if error.kind() == ErrorKind::OutOfMemory {
        return out_of_memory(rt);
    }
    tell_reason(rt, path, error);
    tell_last_line(rt, &Exit::Stopped(Stop::Write))
}

/// Tells why what is said can't be written to the screen, and answers the program's status.
pub fn tell_unwritten(rt: &HostRuntime, failure: &io::Error) -> u8
    ensures { result ≡ 4 }
{
    let about = About::new("", "");
    about.screen.note(failure);
    tell_exit(rt, &Exit::Stopped(Stop::Write), &about)
}

/// Tells that there is no memory, and answers the program's status.
pub fn out_of_memory(rt: &HostRuntime) -> u8
    ensures { result ≡ 5 }
{
    report_briefly(
        &Exit::Stopped(Stop::Memory),
        &mut IoDevice::new(rt.stderr()),
    )
}
