// Bytes and words of code.

ghost use Rattle.std.specs.Prelude.{◌≡◌, ◌<◌, OnOk};
ghost use Rattle.zk_code.specs.Reading.{code_byte, code_word};

use zk_mem::fault::Fault;
use zk_mem::memory::Memory;

#[tactic(auto, unfolding(crate::specs::Reading::code_byte))]
pub(crate) fn read_byte(memory: &Memory, address: u32) -> Result<u8, Fault>
    ensures value { result ≡ code_byte memory.now address }
    ensures bound { OnOk result (address < 524288) }
{
    memory.cell(address).ok_or(Fault::CodePastEnd)
}

#[tactic(auto, unfolding(crate::specs::Reading::code_word))]
pub(crate) fn read_word(memory: &Memory, address: u32) -> Result<u16, Fault>
    ensures value { result ≡ code_word memory.now address }
    ensures bound { OnOk result (address < 524288) }
{
    memory.code_word(address).ok_or(Fault::CodePastEnd)
}
