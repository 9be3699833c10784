//! The words of the kinds of events.

ghost use Rattle.std.specs.Prelude.{◌≡◌};
ghost use Rattle.std.specs.Str.{bytes_eq};
ghost use Rattle.event_text.specs.EventText.{event_word, word_of_event};

/// A kind of event, without its numbers.
#[derive(Clone, Copy)]
pub enum EventWord {
    Begin,
    Op,
    Busy,
    None,
    Commit,
    Abort,
    Rollback,
}

impl EventWord {
    /// Its word.
    pub const fn text(self) -> &'static str
        ensures { result.now ≡ event_word self }
    {
        match self {
            EventWord::Begin => "begin",
            EventWord::Op => "op",
            EventWord::Busy => "busy",
            EventWord::None => "none",
            EventWord::Commit => "commit",
            EventWord::Abort => "abort",
            EventWord::Rollback => "rollback",
        }
    }

    /// Whether the word is its own.
    fn is(self, word: &[u8]) -> bool
        ensures { result ≡ bytes_eq word.now (event_word self) }
    {
        word == self.text().as_bytes()
    }

    /// The kind of a word, which is `None` for every other word.
    pub fn of_text(word: &[u8]) -> Option<EventWord>
        ensures { result ≡ word_of_event word.now }
    {
        if EventWord::Begin.is(word) {
            Some(EventWord::Begin)
        } else if EventWord::Op.is(word) {
            Some(EventWord::Op)
        } else if EventWord::Busy.is(word) {
            Some(EventWord::Busy)
        } else if EventWord::None.is(word) {
            Some(EventWord::None)
        } else if EventWord::Commit.is(word) {
            Some(EventWord::Commit)
        } else if EventWord::Abort.is(word) {
            Some(EventWord::Abort)
        } else if EventWord::Rollback.is(word) {
            Some(EventWord::Rollback)
        } else {
            None
        }
    }
}
