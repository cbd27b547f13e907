//! Reads the words after a command one after another: names and options.

ghost use Rattle.std.specs.Prelude.{◌≡◌, Some, None, codes, option_map, map, string_bytes};
ghost use Rattle.command_words.specs.Reading.{is_plain as plain, nothing, rest_after as rest, with_name, with_images, with_summary, with_any, with_joined, then_word, after};
ghost use Rattle.command_words.specs.Requests.{awaits_value};
ghost use Rattle.command_words.specs.Shown.{given_shown, text_shown};

/// The names among some words, in their order. No command takes more than two.
#[derive(Clone, Copy, Debug)]
pub enum Names<'a> {
    /// None.
    Zero,
    /// One name.
    One(&'a str),
    /// The first and the second name.
    Two(&'a str, &'a str),
}

/// What the next word may be.
#[derive(Clone, Copy, Debug, PartialEq)]
pub enum Next {
    /// A name, an option or `--`.
    Any,
    /// The value of `--images`.
    ImagesValue,
    /// The value of `--summary`.
    SummaryValue,
    /// A name, since `--` stood before.
    OnlyNames,
}

/// What was read of some words: their names, the values of their options, and what the next word may be.
#[derive(Clone, Copy, Debug)]
pub struct Given<'a> {
    pub names: Names<'a>,
    pub images: Option<&'a str>,
    pub summary: Option<&'a str>,
    pub next: Next,
}

/// Whether a word can be a name or an option's value: it isn't empty and doesn't begin with `-`.
fn is_plain(word: &str) -> bool
    ensures { result ≡ plain word.now }
{
    match word.as_bytes() {
        [] => false,
        [first, ..] => *first != b'-',
    }
}

/// What a word has after these bytes; none exactly where it doesn't begin with them.
#[tactic(auto, using(crate::proofs::Prefixes::stripped))]
fn rest_after<'a>(bytes: &str, word: &'a str) -> Option<&'a str>
    ensures { text_shown result ≡ rest bytes.now word.now }
{
    word.strip_prefix(bytes)
}

impl<'a> Given<'a> {
    /// Before the first word.
    fn nothing() -> Given<'a>
        ensures { given_shown result ≡ nothing }
    {
        Given {
            names: Names::Zero,
            images: None,
            summary: None,
            next: Next::Any,
        }
    }

    /// With one more name; none exactly where the word can't be one, or two names were there.
    #[tactic(auto, unfolding(crate::specs::Reading::with_name))]
    fn with_name(self, word: &'a str) -> Option<Given<'a>>
        ensures { option_map given_shown result ≡ with_name (given_shown self.entry) word.now }
    {
        if !is_plain(word) {
            return None;
        }
        let names = match self.names {
            Names::Zero => Names::One(word),
            Names::One(first) => Names::Two(first, word),
            Names::Two(_, _) => return None,
        };
        Some(Given { names, ..self })
    }

    /// With the value of `--images`; none exactly where the word can't be one, or the option stood before.
    #[tactic(auto, unfolding(crate::specs::Reading::with_images))]
    fn with_images(self, value: &'a str) -> Option<Given<'a>>
        ensures { option_map given_shown result ≡ with_images (given_shown self.entry) value.now }
    {
        if self.images.is_some() || !is_plain(value) {
            return None;
        }
        Some(Given {
            images: Some(value),
            next: Next::Any,
            ..self
        })
    }

    /// With the value of `--summary`; none exactly where the word can't be one, or the option stood before.
    #[tactic(auto, unfolding(crate::specs::Reading::with_summary))]
    fn with_summary(self, value: &'a str) -> Option<Given<'a>>
        ensures { option_map given_shown result ≡ with_summary (given_shown self.entry) value.now }
    {
        if self.summary.is_some() || !is_plain(value) {
            return None;
        }
        Some(Given {
            summary: Some(value),
            next: Next::Any,
            ..self
        })
    }

    /// With a word where any may come; none exactly where it fits nothing.
    #[tactic(auto, unfolding(crate::specs::Reading::with_any))]
    fn with_any(self, word: &'a str) -> Option<Given<'a>>
        ensures { option_map given_shown result ≡ with_any (given_shown self.entry) word.now }
    {
        let bytes = word.as_bytes();
        if bytes == b"--".as_slice() {
            Some(Given {
                next: Next::OnlyNames,
                ..self
            })
        } else if bytes == b"--images".as_slice() {
            Some(Given {
                next: Next::ImagesValue,
                ..self
            })
        } else if bytes == b"--summary".as_slice() {
            Some(Given {
                next: Next::SummaryValue,
                ..self
            })
        } else {
            self.with_joined(word)
        }
    }

    /// With an option and its value in one word, or with a name.
    fn with_joined(self, word: &'a str) -> Option<Given<'a>>
        ensures { option_map given_shown result ≡ with_joined (given_shown self.entry) word.now (rest (codes "--images=") word.now) (rest (codes "--summary=") word.now) }
    {
        match rest_after("--images=", word) {
            Some(value) => self.with_images(value),
            None => match rest_after("--summary=", word) {
                Some(value) => self.with_summary(value),
                None => self.with_name(word),
            },
        }
    }

    /// With one more word; none exactly where it can't stand here.
    fn with_word(self, word: &'a str) -> Option<Given<'a>>
        ensures { option_map given_shown result ≡ then_word (Some (given_shown self.entry)) word.now }
    {
        match self.next {
            Next::Any => self.with_any(word),
            Next::ImagesValue => self.with_images(word),
            Next::SummaryValue => self.with_summary(word),
            Next::OnlyNames => self.with_name(word),
        }
    }

    /// With some more words; none exactly where one of them can't stand where it does. At most eight words are read: more
    /// don't fit.
    #[tactic(auto, using(crate::proofs::OneByOne::no_words, crate::proofs::OneByOne::one_word, crate::proofs::OneByOne::none_stays))]
    fn with_words(self, words: &'a [String]) -> Option<Given<'a>>
        ensures { option_map given_shown result ≡ after (Some (given_shown self.entry)) (map string_bytes words.now) }
    {
        match words.split_first() {
            None => Some(self),
            Some((word, rest)) => match self.with_word(word.as_str()) {
                Some(given) => given.with_words(rest),
                None => None,
            },
        }
    }

    /// What some words give; none exactly where one of them can't stand where it does.
    pub fn of_words(words: &'a [String]) -> Option<Given<'a>>
        ensures { option_map given_shown result ≡ after (Some nothing) (map string_bytes words.now) }
    {
        Given::nothing().with_words(words)
    }

    /// Whether an option's value is still to come.
    pub fn awaits_value(self) -> bool
        ensures { result ≡ awaits_value self.entry.next }
    {
        match self.next {
            Next::ImagesValue | Next::SummaryValue => true,
            Next::Any | Next::OnlyNames => false,
        }
    }
}
