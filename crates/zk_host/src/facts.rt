// What a story's file says of it.

ghost use Rattle.std.specs.Prelude.{◌≡◌};
ghost use Rattle.zk_host.specs.Exports.{facts_of};

use zk_mem::header::Header;

/// What a story's file says of it.
#[repr(C)]
#[derive(Drop)]
pub struct Facts {
    pub version: u32,
    pub release: u32,
    pub checksum: u32,
}

/// The same of a header.
pub fn facts_of(header: &Header) -> Facts
    ensures { result ≡ facts_of header.now }
{
    Facts {
        version: header.version as u32,
        release: header.release as u32,
        checksum: header.checksum as u32,
    }
}
