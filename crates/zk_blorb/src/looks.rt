// What a file is that is no story, by its first bytes.

ghost use Rattle.std.specs.Prelude.{◌≡◌, option_map};
ghost use Rattle.zk_blorb.specs.Blorb.{begins_as_blorb};
ghost use Rattle.zk_blorb.specs.Looks.{is_of_text, is_text, looks_of, looks_text, other_looks, text_looks};

use crate::story::begins_as_blorb;

/// What the first bytes of a file look like.
#[derive(Clone, Copy, Drop)]
pub enum Looks {
    /// Nothing that is known by them.
    Unknown,
    /// Resources of a story, perhaps with the story (Blorb).
    Blorb,
    /// A story of another machine.
    Glulx,
    Gzip,
    Zip,
    /// Letters and signs alone.
    Text,
}

/// So many bytes are looked at to tell a text.
const LEAD: usize = 64;

/// Whether a byte may stand in a text: a tab, a line's end, a sign of ASCII, or a part of another character.
fn is_of_text(byte: u8) -> bool
    ensures { result ≡ is_of_text byte }
{
    byte == 9 || byte == 10 || byte == 13 || (byte >= 32 && byte <= 126) || byte >= 128
}

/// Whether bytes are those of a text.
fn is_text(bytes: &[u8]) -> bool
    ensures { result ≡ is_text bytes.now }
{
    for byte in bytes {
        if !is_of_text(*byte) {
            return false;
        }
    }
    !bytes.is_empty()
}

/// Whether a file begins as a Blorb file.
fn is_blorb(file: &[u8]) -> bool
    ensures { result ≡ begins_as_blorb file.now }
{
    file.len() >= 8 && begins_as_blorb(file)
}

/// What a file looks like by its letters.
#[tactic(auto, using(std::proofs::lemmas::List::take_min))]
fn text_looks(file: &[u8]) -> Looks
    ensures { result ≡ text_looks file.now }
{
    if is_text(&file[..LEAD.min(file.len())]) {
        Looks::Text
    } else {
        Looks::Unknown
    }
}

/// What a file looks like that is no Blorb file.
fn other_looks(file: &[u8]) -> Looks
    ensures { result ≡ other_looks file.now }
{
    if file.starts_with(b"Glul") {
        Looks::Glulx
    } else if file.starts_with(b"\x1f\x8b") {
        Looks::Gzip
    } else if file.starts_with(b"PK\x03\x04") {
        Looks::Zip
    } else {
        text_looks(file)
    }
}

impl Looks {
    /// What a file looks like that begins with these bytes: the first that fits, in the order of the variants behind
    /// `Unknown`. A text is told by 64 bytes.
    pub fn of(bytes: &[u8]) -> Looks
        ensures { result ≡ looks_of bytes.now }
    {
        if is_blorb(bytes) {
            Looks::Blorb
        } else {
            other_looks(bytes)
        }
    }

    /// What the file is, in words.
    pub fn text(self) -> Option<&'static str>
        ensures { option_map (λ s. s.now) result ≡ looks_text self }
    {
        match self {
            Looks::Unknown => None,
            Looks::Blorb => Some("it is a Blorb file: `zkit unpack FILE OUT` takes the story out"),
            Looks::Glulx => Some("it is a Glulx story, which is for another machine"),
            Looks::Gzip => Some("it is compressed by gzip; unpack it"),
            Looks::Zip => Some("it is a zip archive; unpack it"),
            Looks::Text => Some("it is a text file"),
        }
    }
}
