// The settings that words give, one by one.
ghost use Rattle.std.specs.Prelude.{◌≡◌, ◌≤◌, IfOk, IfErr, OnOk, OnErr, length};
ghost use Rattle.view_settings.specs.Settings.{after_word, begun, finished};
ghost use Rattle.view_settings.specs.Verbs.{IsJob};

use crate::given::job_given;
use crate::setting::{Setting, read_setting};
use crate::{Job, Verb, WordReason};
use arrayvec::ArrayVec;
use std::marker::Model;

/// A verb, and the settings that were taken for it, in their order. Each is one of the verb, and no
/// name is given twice.
#[derive(Debug, Drop)]
pub struct Settings {
    verb: Verb,
    taken: ArrayVec<Setting, 16>,
}

impl Model for Settings {
    ghost use Rattle.view_settings.specs.Settings.{Given, AreSettings};

    ghost Value = { Given };

    ghost view = { λ s. record { verb = s.verb; settings = s.taken.items } };

    ghost invariant = { λ s. AreSettings (record { verb = s.verb; settings = s.taken.items }) };
}

impl Settings {
    /// The verb without a setting.
    pub fn start(verb: Verb) -> Settings
        ensures { result ≡ begun verb }
    {
        Settings {
            verb,
            taken: ArrayVec::new(),
        }
    }

    /// Takes the setting that a word gives. After an `Err` the settings are as they were.
    ///
    /// The first of these that holds is answered. `NotASetting`: the word has no `=`.
    /// `UnknownSetting`: the verb has no setting of that name. `Twice`: the name was taken before.
    /// `BadValue`: the value is no numeral, or no count. `OutOfRange`: the count is out of its
    /// range.
    pub fn take(&mut self, word: &[u8]) -> Result<(), WordReason>
        ensures ok { OnOk result (after_word self.old word.now ≡ Ok self.new) }
        ensures fault { IfErr result (λ reason. after_word self.old word.now ≡ Err reason) }
        ensures err { OnErr result (self.new ≡ self.old) }
    {
        let setting = read_setting(self.verb, self.taken.as_slice(), word)?;
        self.taken.push(setting);
        Ok(())
    }

    /// The job of the verb with the settings that were taken, and the defaults elsewhere.
    ///
    /// `EmptySpan`: the ends of an axis are not in order. `CellTooSmall`: they are, and the ends of an
    /// axis are nearer than 65536 raw units a cell, where the verb is `mesh`, or the axis is x or y and
    /// the verb is `contour`. `TooManyCells`: they are not, the verb is `mesh`, and the mesh has more
    /// than 16777216 cells.
    pub fn finish(self) -> Result<Job, WordReason>
        ensures job { result ≡ finished self }
        ensures keeps { IfOk result IsJob }
    {
        job_given(self.verb, &self.taken)
    }

    // How many settings were taken.
    pub(crate) fn len(&self) -> u32
        ensures len { result ≡ length self.now.settings }
        ensures few { result ≤ 16 }
    {
        self.taken.len() as u32
    }
}
