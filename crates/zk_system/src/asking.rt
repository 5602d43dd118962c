// Questions at the terminal, or to a pipe.

ghost use Rattle.std.specs.Prelude.{◌≡◌};
ghost use Rattle.zk_system.specs.Terminals.{is_yes};

use crate::record::Record;
use crate::shown::Shown;
use crate::typed_bytes::{InputNotes, TypedBytes};
use crate::watched::Watched;
use std::alloc::Global;
use std::io::Printer;
use zk_term::echo::Echo;
use zk_term::io_device::IoDevice;
use zk_term::source::Source;
use zk_term::target::Failed;

/// So many bytes of an answer are read at most.
const MOST_BYTES: u32 = 4096;

/// Standard output, with notes on how it went.
pub type StandardOutput<'a> = IoDevice<Watched<'a, Printer<'a, HostRuntime>>>;

/// What is typed: it is recorded, and then shown, where that is asked for.
pub type TypedInput<'a> = Echo<Echo<IoDevice<TypedBytes<'a>>, Record<'a>>, StandardOutput<'a>>;

/// Asks on standard error, and reads answers from what is typed, a byte at a time: what comes after an answer is left
/// for others that read it.
#[derive(Drop)]
pub struct Asker<'a> {
    rt: &'a HostRuntime,
    input: TypedInput<'a>,
    notes: &'a InputNotes,
}

/// What is made of an answer's bytes: a text without spaces at its ends, where it is one.
fn answer_in(alloc: Global, bytes: &[u8]) -> Option<String> {
    let Ok(text) = std::str::from_utf8(bytes) else {
        return None;
    };
    String::from_str(alloc, text.trim()).ok()
}

/// Whether an answer allows what was asked.
fn is_yes(answer: &[u8]) -> bool
    ensures { result ≡ is_yes answer.now }
{
    answer == b"y".as_slice() || answer == b"Y".as_slice() || answer == b"yes".as_slice()
}

impl<'a> Asker<'a> {
    pub fn new(rt: &'a HostRuntime, input: TypedInput<'a>, notes: &'a InputNotes) -> Asker<'a> {
        Asker { rt, input, notes }
    }

    /// Reads the bytes of the next line, and tells whether that has come to its end.
    fn read_line(&mut self, bytes: &mut Vec<u8>) -> bool {
        let mut byte = [0u8];
        for _k in 0..MOST_BYTES {
            match self.input.read(&mut byte) {
                Ok(0) | Err(Failed) => return false,
                Ok(_) if byte[0] == b'\n' => return true,
                Ok(_) if bytes.push(byte[0]).is_err() => return false,
                Ok(_) => {}
            }
        }
        false
    }

    /// The next line: none at the end of the input, or where it can't be read or is no text.
    fn read_answer(&mut self) -> Option<String> {
        let mut bytes = Vec::new(self.rt.alloc());
        if self.read_line(&mut bytes) {
            answer_in(self.rt.alloc(), bytes.as_slice())
        } else {
            None
        }
    }

    /// The name that is typed for a file, or the offered one for an empty line.
    pub fn ask_name(&mut self, doing: &str, offered: &str) -> Option<String> {
        let _ = eprint!(self.rt; "zkit: {doing} which file [{}]? ", Shown(offered));
        match self.read_answer() {
            Some(answer) if !answer.is_empty() => Some(answer),
            Some(_) => String::from_str(self.rt.alloc(), offered).ok(),
            None => None,
        }
    }

    /// Waits for Enter. What is typed before that is kept for the next read.
    pub fn wait(&mut self) {
        let _ = eprint!(self.rt; "-- more --");
        let mut bytes = Vec::new(self.rt.alloc());
        let ended = self.read_line(&mut bytes);
        if !bytes.is_empty() && (!ended || bytes.push(b'\n').is_ok()) {
            let _ = self.notes.keep(self.rt.alloc(), bytes.as_slice());
        }
    }

    /// Whether a file may be replaced: only where `y` or `yes` is typed.
    pub fn may_replace(&mut self, name: &str) -> bool {
        let _ = eprint!(self.rt;
            "zkit: {} is there already; replace it (y or n)? ",
            Shown(name)
        );
        match self.read_answer() {
            Some(answer) => is_yes(answer.as_bytes()),
            None => false,
        }
    }
}
