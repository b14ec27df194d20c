//! The languages of a page.
ghost use Rattle.std.specs.Prelude.{◌≡◌};
ghost use Rattle.pb_words.specs.Languages.{decimal_sign, language_of};

/// A language.
#[derive(Clone, Copy, Debug, PartialEq, Eq)]
pub enum Language {
    English,
    Polish,
    German,
    French,
}

impl Language {
    /// The language that has this code, as `pl`.
    pub fn of_code(code: &[u8]) -> Option<Language>
        ensures { result ≡ language_of code.now }
    {
        if code == b"en".as_slice() {
            return Some(Language::English);
        }
        if code == b"pl".as_slice() {
            return Some(Language::Polish);
        }
        if code == b"de".as_slice() {
            return Some(Language::German);
        }
        if code == b"fr".as_slice() {
            return Some(Language::French);
        }
        None
    }

    /// Its code.
    pub fn code(self) -> &'static str {
        match self {
            Language::English => "en",
            Language::Polish => "pl",
            Language::German => "de",
            Language::French => "fr",
        }
    }

    /// What stands before the decimals of an amount.
    pub fn decimal_sign(self) -> &'static str
        ensures { result.now ≡ decimal_sign self }
    {
        match self {
            Language::English => ".",
            Language::Polish | Language::German | Language::French => ",",
        }
    }
}
