//! The answer in a sentence, in each language.
ghost use Rattle.std.specs.Prelude.{◌≡◌};
ghost use Rattle.pb_words.specs.Headlines as spec;

use crate::language::Language;

/// The answer in a sentence.
#[derive(Clone, Copy)]
pub enum Headline {
    /// The prices support the outcome, in the plain form.
    Supported,
    /// The prices support the outcome, in the stable form.
    SupportedStable,
    /// The prices do not support the outcome.
    NotSupported,
    /// The group deserves what it demands, and each member gets less.
    Violation,
    /// The certificate proves no violation.
    NoViolation,
    /// No prices whatever support the outcome.
    Unpriceable,
    /// No prices support the outcome whose budgets together are more than the limit.
    UnpriceableUnderCover,
    /// No stable prices support the outcome.
    UnpriceableStable,
    /// No stable prices support the outcome whose budgets together are more than the limit.
    UnpriceableStableUnderCover,
    /// The certificate doesn't prove that no prices support the outcome.
    NotRefuted,
    /// The certificate doesn't prove that no stable prices support the outcome.
    NotRefutedStable,
    /// No group of voters falls short.
    NoGroupFallsShort,
    /// A group of voters falls short.
    GroupFallsShort,
}

/// What an answer says in a language.
pub fn headline_words(language: Language, headline: Headline) -> &'static str
    ensures { result.now ≡ spec.headline_words language headline }
{
    match language {
        Language::English => english(headline),
        Language::Polish => polish(headline),
        Language::German => german(headline),
        Language::French => french(headline),
    }
}

fn english(headline: Headline) -> &'static str
    ensures { result.now ≡ spec.english headline }
{
    match headline {
        Headline::Supported => "The prices support this outcome",
        Headline::SupportedStable => "The prices support this outcome in the stable form",
        Headline::NotSupported => "The prices don’t support this outcome",
        Headline::Violation => "This group was treated worse than it deserves",
        Headline::NoViolation => "This certificate doesn’t prove unfair treatment",
        Headline::Unpriceable => "No prices can support this outcome",
        Headline::UnpriceableUnderCover =>
            "No prices with budgets above the limit can support this outcome",
        Headline::UnpriceableStable => "No stable prices can support this outcome",
        Headline::UnpriceableStableUnderCover =>
            "No stable prices with budgets above the limit can support this outcome",
        Headline::NotRefuted =>
            "This certificate doesn’t prove that no prices can support this outcome",
        Headline::NotRefutedStable =>
            "This certificate doesn’t prove that no stable prices can support this outcome",
        Headline::NoGroupFallsShort => "No group of voters falls short",
        Headline::GroupFallsShort => "A group of voters falls short",
    }
}

fn polish(headline: Headline) -> &'static str
    ensures { result.now ≡ spec.polish headline }
{
    match headline {
        Headline::Supported => "Ceny wspierają ten wynik",
        Headline::SupportedStable => "Ceny wspierają ten wynik w wersji stabilnej",
        Headline::NotSupported => "Ceny nie wspierają tego wyniku",
        Headline::Violation => "Tę grupę potraktowano gorzej, niż na to zasługuje",
        Headline::NoViolation => "Ten certyfikat nie dowodzi niesprawiedliwego potraktowania",
        Headline::Unpriceable => "Żadne ceny nie mogą wesprzeć tego wyniku",
        Headline::UnpriceableUnderCover =>
            "Żadne ceny z budżetami większymi niż pula nie mogą wesprzeć tego wyniku",
        Headline::UnpriceableStable => "Żadne stabilne ceny nie mogą wesprzeć tego wyniku",
        Headline::UnpriceableStableUnderCover =>
            "Żadne stabilne ceny z budżetami większymi niż pula nie mogą wesprzeć tego wyniku",
        Headline::NotRefuted =>
            "Ten certyfikat nie dowodzi, że żadne ceny nie mogą wesprzeć tego wyniku",
        Headline::NotRefutedStable =>
            "Ten certyfikat nie dowodzi, że żadne stabilne ceny nie mogą wesprzeć tego wyniku",
        Headline::NoGroupFallsShort => "Żadna grupa głosujących nie dostała za mało",
        Headline::GroupFallsShort => "Pewna grupa głosujących dostała za mało",
    }
}

fn german(headline: Headline) -> &'static str
    ensures { result.now ≡ spec.german headline }
{
    match headline {
        Headline::Supported => "Die Preise stützen dieses Ergebnis",
        Headline::SupportedStable => "Die Preise stützen dieses Ergebnis in der stabilen Form",
        Headline::NotSupported => "Die Preise stützen dieses Ergebnis nicht",
        Headline::Violation => "Diese Gruppe wurde schlechter behandelt, als ihr zusteht",
        Headline::NoViolation => "Eine ungerechte Behandlung ist damit nicht bewiesen",
        Headline::Unpriceable => "Keine Preise können dieses Ergebnis stützen",
        Headline::UnpriceableUnderCover =>
            "Keine Preise mit Budgets über dem Gesamtbudget können dieses Ergebnis stützen",
        Headline::UnpriceableStable => "Keine stabilen Preise können dieses Ergebnis stützen",
        Headline::UnpriceableStableUnderCover =>
            "Keine stabilen Preise mit Budgets über dem Gesamtbudget können dieses Ergebnis stützen",
        Headline::NotRefuted =>
            "Dass keine Preise dieses Ergebnis stützen können, ist damit nicht bewiesen",
        Headline::NotRefutedStable =>
            "Dass keine stabilen Preise dieses Ergebnis stützen können, ist damit nicht bewiesen",
        Headline::NoGroupFallsShort => "Keine Gruppe von Abstimmenden kommt zu kurz",
        Headline::GroupFallsShort => "Eine Gruppe von Abstimmenden kommt zu kurz",
    }
}

fn french(headline: Headline) -> &'static str
    ensures { result.now ≡ spec.french headline }
{
    match headline {
        Headline::Supported => "Les prix soutiennent ce résultat",
        Headline::SupportedStable => "Les prix soutiennent ce résultat sous sa forme stable",
        Headline::NotSupported => "Les prix ne soutiennent pas ce résultat",
        Headline::Violation => "Ce groupe a été traité moins bien qu’il ne le mérite",
        Headline::NoViolation => "Ce certificat ne prouve aucun traitement injuste",
        Headline::Unpriceable => "Aucun prix ne peut soutenir ce résultat",
        Headline::UnpriceableUnderCover =>
            "Aucun prix dont les budgets dépassent l’enveloppe ne peut soutenir ce résultat",
        Headline::UnpriceableStable => "Aucun prix stable ne peut soutenir ce résultat",
        Headline::UnpriceableStableUnderCover =>
            "Aucun prix stable dont les budgets dépassent l’enveloppe ne peut soutenir ce résultat",
        Headline::NotRefuted =>
            "Ce certificat ne prouve pas qu’aucun prix ne peut soutenir ce résultat",
        Headline::NotRefutedStable =>
            "Ce certificat ne prouve pas qu’aucun prix stable ne peut soutenir ce résultat",
        Headline::NoGroupFallsShort => "Aucun groupe de votants n’est laissé pour compte",
        Headline::GroupFallsShort => "Un groupe de votants est laissé pour compte",
    }
}
