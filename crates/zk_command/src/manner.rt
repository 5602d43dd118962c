// How a story is played for a test, by settings with a name and a text.

ghost use Rattle.std.specs.Prelude.{◌≤◌, IfOk};
ghost use Rattle.zk_vm.specs.Bounds.{AreInRange};

use crate::choice::number_from;
use crate::options::{FRAMES, NumberOption, SEED, STEPS, UNDO, WIDTH, WORDS};
use crate::settings::Settings;
use thiserror::Error;
use zk_mem::memory::ScreenSetup;
use zk_step::state::game_state::View;
use zk_vm::limits::Limits;

/// What a play for a test depends on.
#[derive(Clone, Copy, Drop)]
pub struct Manner {
    pub settings: Settings,
    /// The columns of the screen's lines, where they are wrapped.
    pub width: Option<u8>,
}

/// Why a setting is not taken.
#[derive(Debug, Drop, Error)]
pub enum SettingError {
    #[error("there is no such setting")]
    Unknown,
    #[error("it takes a number from {least} to {most}")]
    OutOfRange { least: u64, most: u64 },
    #[error("it takes yes or no")]
    NotYesOrNo,
}

/// The number that a text says, in the range of an option.
fn number_in(text: &str, option: NumberOption) -> Result<u64, SettingError>
    ensures least { IfOk result (λ n. option.least ≤ n) }
    ensures most { IfOk result (λ n. n ≤ option.most) }
{
    let NumberOption { least, most, .. } = option;
    match number_from(text, option) {
        Some(number) => Ok(number),
        None => Err(SettingError::OutOfRange { least, most }),
    }
}

/// What is shown of the upper window, by a text that says whether it is.
fn view_in(text: &str) -> Result<View, SettingError> {
    match text {
        "yes" => Ok(View::Upper),
        "no" => Ok(View::Plain),
        _ => Err(SettingError::NotYesOrNo),
    }
}

impl Manner {
    /// As `play` plays a story without options.
    pub fn new() -> Manner
        ensures { AreInRange result.settings.limits }
    {
        let limits = Limits {
            frames: 1024,
            words: 16_384,
            undo: 16,
            steps: 10_000_000,
            screen: ScreenSetup::plain(),
        };
        Manner {
            settings: Settings {
                limits,
                seed: 1,
                view: View::Plain,
            },
            width: None,
        }
    }

    /// Takes a setting: the name of an option of `play`, and its text.
    pub fn set(&mut self, name: &str, text: &str) -> Result<(), SettingError>
        requires { AreInRange self.old.settings.limits }
        ensures { AreInRange self.new.settings.limits }
    {
        match name {
            "frames" => self.settings.limits.frames = number_in(text, FRAMES)? as u16,
            "words" => self.settings.limits.words = number_in(text, WORDS)? as u16,
            "undo" => self.settings.limits.undo = number_in(text, UNDO)? as u8,
            "steps" => self.settings.limits.steps = number_in(text, STEPS)? as u32,
            "seed" => self.settings.seed = number_in(text, SEED)?,
            "width" => self.width = Some(number_in(text, WIDTH)? as u8),
            "upper" => self.settings.view = view_in(text)?,
            _ => return Err(SettingError::Unknown),
        }
        Ok(())
    }
}
