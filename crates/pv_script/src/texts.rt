//! Storage for the texts of a call.
ghost use Rattle.std.specs.Prelude.{◌≡◌, option_copied};

use pv_model::Text;

/// Storage for the texts of a call. It lets a call outlive changes to the program that made it.
#[derive(Drop)]
pub struct CallTexts {
    first: Text,
    second: Text,
}

impl CallTexts {
    /// Creates empty storage.
    pub fn new() -> CallTexts {
        CallTexts {
            first: Text::empty(),
            second: Text::empty(),
        }
    }

    // Copies a text to the storage.
    pub(crate) fn one<'a>(&'a mut self, text: &Text) -> &'a Text
        ensures { result.now ≡ text.now }
    {
        self.first.copy_from(text);
        &self.first
    }

    // Copies two texts to the storage.
    pub(crate) fn two<'a>(&'a mut self, first: &Text, second: &Text) -> (&'a Text, &'a Text)
        ensures first { result.0.now ≡ first.now }
        ensures second { result.1.now ≡ second.now }
    {
        self.first.copy_from(first);
        self.second.copy_from(second);
        (&self.first, &self.second)
    }

    // Copies the texts that are present to the storage.
    pub(crate) fn options<'a>(
        &'a mut self,
        first: Option<&Text>,
        second: Option<&Text>,
    ) -> (Option<&'a Text>, Option<&'a Text>)
        ensures first { option_copied result.0 ≡ option_copied first.entry }
        ensures second { option_copied result.1 ≡ option_copied second.entry }
    {
        let first = keep_option(&mut self.first, first);
        let second = keep_option(&mut self.second, second);
        (first, second)
    }
}

// Copies a text to `place` if it is present.
fn keep_option<'a>(place: &'a mut Text, text: Option<&Text>) -> Option<&'a Text>
    ensures { option_copied result ≡ option_copied text.entry }
{
    match text {
        Some(text) => {
            place.copy_from(text);
            Some(place)
        }
        None => None,
    }
}
