// Verbs.
ghost use Rattle.std.specs.Prelude.{◌≡◌};
ghost use Rattle.script_lang.specs.Verbs.{verb_of, plain_words, takes_label, takes_data, is_create, is_clock, is_of_lane_0};

/// What a line asks for.
#[derive(Clone, Copy)]
pub enum Verb {
    Access,
    Create,
    Request,
    Update,
    Close,
    Remove,
    Certificate,
    Feed,
    Clock,
    Evict,
    Settle,
}

impl Verb {
    /// The verb of a word.
    pub fn of(word: &[u8]) -> Option<Verb>
        ensures { result ≡ verb_of word.now }
    {
        if word == b"access".as_slice() {
            Some(Verb::Access)
        } else if word == b"create".as_slice() {
            Some(Verb::Create)
        } else if word == b"request".as_slice() {
            Some(Verb::Request)
        } else if word == b"update".as_slice() {
            Some(Verb::Update)
        } else if word == b"close".as_slice() {
            Some(Verb::Close)
        } else if word == b"remove".as_slice() {
            Some(Verb::Remove)
        } else if word == b"certificate".as_slice() {
            Some(Verb::Certificate)
        } else if word == b"feed".as_slice() {
            Some(Verb::Feed)
        } else if word == b"clock".as_slice() {
            Some(Verb::Clock)
        } else if word == b"evict".as_slice() {
            Some(Verb::Evict)
        } else if word == b"settle".as_slice() {
            Some(Verb::Settle)
        } else {
            None
        }
    }

    /// How many words stand behind the verb, before data or a moment.
    pub fn plain_words(self) -> usize
        ensures { result ≡ plain_words self }
    {
        match self {
            Verb::Create | Verb::Request => 2,
            Verb::Access | Verb::Update | Verb::Close | Verb::Remove | Verb::Evict => 1,
            Verb::Certificate | Verb::Feed | Verb::Clock | Verb::Settle => 0,
        }
    }

    /// Whether the first of these words is a label.
    pub fn takes_label(self) -> bool
        ensures { result ≡ takes_label self }
    {
        match self {
            Verb::Create
            | Verb::Request
            | Verb::Update
            | Verb::Close
            | Verb::Remove
            | Verb::Evict => true,
            Verb::Access | Verb::Certificate | Verb::Feed | Verb::Clock | Verb::Settle => false,
        }
    }

    /// Whether data is last.
    pub fn takes_data(self) -> bool
        ensures { result ≡ takes_data self }
    {
        matches!(
            self,
            Verb::Access | Verb::Request | Verb::Update | Verb::Certificate
        )
    }

    /// Whether it creates a session.
    pub fn is_create(self) -> bool
        ensures { result ≡ is_create self }
    {
        matches!(self, Verb::Create)
    }

    /// Whether a moment is last.
    pub fn is_clock(self) -> bool
        ensures { result ≡ is_clock self }
    {
        matches!(self, Verb::Clock)
    }

    /// Whether only lane 0 has it.
    pub fn is_of_lane_0(self) -> bool
        ensures { result ≡ is_of_lane_0 self }
    {
        matches!(self, Verb::Feed | Verb::Clock | Verb::Evict | Verb::Settle)
    }
}
