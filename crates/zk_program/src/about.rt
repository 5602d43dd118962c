// What is known of a run, for the lines in words.

ghost use Rattle.std.specs.Prelude.{◌≡◌, None, false, option_map};

use crate::bad_destination::BadDestination;
use std::cell::Cell;
use zk_blorb::looks::Looks;
use zk_names::names::Names;
use zk_system::typed_bytes::InputNotes;
use zk_system::watched::DeviceNotes;

/// What is known of a run: the paths of its files, what stands in the line before a listing, what the story's file
/// looks like, how its devices went, and where a bad target leads.
#[derive(Drop)]
pub struct About<'a, 'n> {
    pub path: &'a str,
    pub script_path: &'a str,
    /// The path of one of several stories that are listed, as it is shown.
    pub heading: Option<&'a str>,
    pub looks: Cell<Looks>,
    pub bad_destination: Cell<Option<BadDestination>>,
    /// Whether the calls that led to a fault or a limit are told, and what is told of them.
    pub tells_calls: bool,
    pub calls: Cell<Option<String>>,
    /// The names by which they are told, where there are some.
    pub names: Option<Names<'n>>,
    pub input: InputNotes,
    pub screen: DeviceNotes,
    pub script: DeviceNotes,
}

impl<'a, 'n> About<'a, 'n> {
    /// Of a run that has not begun, by the paths of the story and its transcript.
    pub fn new(path: &'a str, script_path: &'a str) -> About<'a, 'n>
        ensures paths { (result.path.now ≡ path.now) × (result.script_path.now ≡ script_path.now) }
        ensures alone { result.heading ≡ None }
        ensures silent { result.tells_calls ≡ false }
    {
        About {
            path,
            script_path,
            heading: None,
            looks: Cell::new(Looks::Unknown),
            bad_destination: Cell::new(None),
            tells_calls: false,
            calls: Cell::new(None),
            names: None,
            input: InputNotes::new(),
            screen: DeviceNotes::new(),
            script: DeviceNotes::new(),
        }
    }

    /// Of a listing that has not begun, by the story's path, and how that is shown where it is one of several.
    pub fn listed(path: &'a str, heading: Option<&'a str>) -> About<'a, 'n>
        ensures path { result.path.now ≡ path.now }
        ensures heading { option_map (λ p. p.now) result.heading ≡ option_map (λ p. p.now) heading.entry }
        ensures silent { result.tells_calls ≡ false }
    {
        About {
            heading,
            ..About::new(path, "")
        }
    }
}
