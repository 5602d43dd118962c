// A story, from the bytes of its file.

ghost use Rattle.std.specs.Prelude.{◌≡◌, ◌++◌, IfOk, OnOk, IfSome};
ghost use Rattle.zk_program.specs.Playing.{IsOpened, bytes_read};

use crate::about::About;
use crate::exit::Exit;
use std::alloc::Global;
use std::io::{self, ErrorKind, Read};
use zk_blorb::looks::Looks;
use zk_mem::story::{OpenError, Story};
use zk_vm::stop::Stop;

/// One byte past the greatest length of a story: a longer file is too long by what is read of it.
const MOST_BYTES: u64 = 524_289;

/// So many bytes of a file are read at a time.
const PIECE: usize = 4_096;

/// Puts what a reader gives after other bytes, piece by piece: room for all of it would have to be cleared before it is
/// read into.
fn read_pieces<R: Read>(reader: &mut R, bytes: &mut Vec<u8>) -> io::Result<()>
    ensures { OnOk result
        (IfSome (R.remaining reader.old) (λ xs. bytes.new.items ≡ bytes.old.items ++ xs)) }
{
    let mut piece = [0; PIECE];
    // each read gives a byte or more, until the last
    for _k in 0..u64::MAX {
        match reader.read(&mut piece) {
            Ok(0) => return Ok(()),
            Ok(count) => bytes.extend_from_slice(&piece[..count])?,
            Err(error) => {
                if error.kind() != ErrorKind::Interrupted {
                    return Err(error);
                }
            }
        }
    }
    Err(ErrorKind::Interrupted.into())
}

/// The bytes of a story's file, as many as a story may have and one more.
pub fn read_story<R: Read + Drop>(alloc: Global, reader: R) -> io::Result<Vec<u8>>
    ensures { IfOk result (λ v. IfSome (R.remaining reader) (λ file. v.items ≡ bytes_read file)) }
{
    // room for the longest, of which as much is used as there are bytes
    let mut bytes = Vec::with_capacity(alloc, MOST_BYTES as usize)?;
    read_pieces(&mut reader.take(MOST_BYTES), &mut bytes)?;
    Ok(bytes)
}

/// Opens the story that a reader gives, and notes what its bytes look like. Refused too where it can't be read, and for
/// lack of memory.
pub fn open_story<R: Read + Drop>(alloc: Global, reader: R, about: &About) -> Result<Story, Exit>
    ensures { IsOpened (R.remaining reader) result }
{
    let bytes = match read_story(alloc, reader) {
        Ok(bytes) => bytes,
        Err(error) => return Err(Exit::Unread(error)),
    };
    about.looks.set(Looks::of(bytes.as_slice()));
    match Story::of(bytes) {
        Ok(story) => Ok(story),
        Err(error) => {
            if error == OpenError::OutOfMemory {
                return Err(Exit::Stopped(Stop::Memory));
            }
            Err(Exit::Refused(error))
        }
    }
}
