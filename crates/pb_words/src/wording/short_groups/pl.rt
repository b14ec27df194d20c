//! The sentences on groups that fall short in Polish.
use crate::sentence::Plural;
use crate::short_groups::ShortGroups;

/// What a sentence says.
pub fn wording(sentence: ShortGroups) -> &'static str {
    match sentence {
        ShortGroups::NoneByCost =>
            "Weźmy dowolnych głosujących, którzy wszyscy głosowali na ten sam niewybrany projekt. \
             Gdyby podzielić pulę równo między wszystkich głosujących, ich część byłaby mniejsza \
             od kosztu tego projektu powiększonego o koszt wybranych projektów, które są na karcie \
             przynajmniej jednego z nich.",
        ShortGroups::NoneByCount =>
            "Weźmy dowolnych głosujących, którzy wszyscy głosowali na ten sam niewybrany projekt. \
             Gdyby podzielić pulę równo między wszystkich głosujących, ich część byłaby mniejsza \
             od kosztu tego projektu pomnożonego przez liczbę o jeden większą od liczby wybranych \
             projektów, które są na karcie przynajmniej jednego z nich.",
        ShortGroups::NobodyWantsMore =>
            "Nikt nie głosował na projekt, którego nie wybrano, więc żadna grupa nie mogła dostać \
             za mało.",
        ShortGroups::SomeByCost =>
            "{count} z {all} głosujących na projekt {project}: ich równa część puli to {share}. \
             Projekt kosztuje {cost}; u nikogo z nich wybrane projekty z jego własnej karty nie \
             kosztują więcej niż {most}. {cost} + {most} = {need} to nie więcej niż {share}.",
        ShortGroups::SomeByCount =>
            "{count} z {all} głosujących na projekt {project}: ich równa część puli to {share}. \
             Projekt kosztuje {cost}; nikt z nich nie ma na własnej karcie więcej wybranych \
             projektów niż {most}. {cost} × ({most} + 1) = {need} to nie więcej niż {share}.",
        ShortGroups::Closest =>
            "Najbliżej jest projekt {project}: {count} z {all} głosujących na niego ma równą część \
             puli {share}, a potrzeba {need}.",
        ShortGroups::BeyondLimit =>
            "Wybrane projekty kosztują o {amount} więcej niż pula. Jeśli wybierze się dodatkowe \
             projekty, wynik nigdy nie wypada w tym pytaniu gorzej.",
        ShortGroups::AskedByCost =>
            "Liczy się koszt: głosujący dostaje tyle, ile kosztują wybrane projekty z jego własnej \
             karty.",
        ShortGroups::AskedByCount =>
            "Liczą się projekty: głosujący dostaje tyle, ile projektów z jego własnej karty \
             wybrano.",
        ShortGroups::HowTable =>
            "Dla każdego niewybranego projektu: największa grupa, która dostała za mało, albo, \
             jeśli takiej nie ma, ta, której część puli pokrywa najwięcej z tego, czego potrzeba. \
             Pasek to ta część, a kreska to kwota, której potrzeba. Jeśli pasek sięga kreski, \
             grupa dostała za mało.",
        ShortGroups::Group => "Grupa",
        ShortGroups::Part => "Jej część puli",
        ShortGroups::Need => "Potrzeba",
        ShortGroups::PartAgainstNeed => "Część wobec tego, czego potrzeba",
        ShortGroups::LabelPartAgainstNeed => "{project}: część {share}, a potrzeba {need}",
        ShortGroups::FallsShort => "za mało",
        ShortGroups::NobodyWants(Plural::One) => "Na {count} niewybrany projekt nikt nie głosował.",
        ShortGroups::NobodyWants(Plural::Few) =>
            "Na {count} niewybrane projekty nikt nie głosował.",
        ShortGroups::NobodyWants(Plural::Many) =>
            "Na {count} niewybranych projektów nikt nie głosował.",
        ShortGroups::NotSaidRoom =>
            "Że każda grupa głosujących dostała to, na co zasługuje. To pytanie zostawia miejsce \
             na jeden projekt, więc inny test może nadal pokazać, że jakaś grupa dostała mniej, \
             niż na to zasługuje.",
        ShortGroups::NotSaidLimit =>
            "Że wynik mieści się w puli. Jeśli wybierze się dodatkowe projekty, wynik nigdy nie \
             wypada w tym pytaniu gorzej.",
        ShortGroups::NotSaidLittle =>
            "Wiele, jeśli mało wybrano: wtedy sam projekt często kosztuje więcej niż część puli \
             tych, którzy na niego głosowali.",
        ShortGroups::NotSaidAdded =>
            "Że projekt można by po prostu dodać. W ramach puli inny musiałby może ustąpić.",
        ShortGroups::NotSaidPrices =>
            "Czy ceny wspierają wynik. Do tego potrzebny jest certyfikat cenowy.",
        ShortGroups::ClaimNoneByCost =>
            "Żadna grupa głosujących nie dostała za mało według kosztu: wynik spełnia rozszerzoną \
             uzasadnioną reprezentację z dokładnością do jednego projektu (EJR+) według kosztu.",
        ShortGroups::ClaimNoneByCount =>
            "Żadna grupa głosujących nie dostała za mało według liczby projektów: wynik spełnia \
             rozszerzoną uzasadnioną reprezentację z dokładnością do jednego projektu (EJR+) \
             według liczby projektów.",
        ShortGroups::ClaimSomeByCost =>
            "Pewna grupa głosujących dostała za mało według kosztu: wynik nie spełnia rozszerzonej \
             uzasadnionej reprezentacji z dokładnością do jednego projektu (EJR+) według kosztu.",
        ShortGroups::ClaimSomeByCount =>
            "Pewna grupa głosujących dostała za mało według liczby projektów: wynik nie spełnia \
             rozszerzonej uzasadnionej reprezentacji z dokładnością do jednego projektu (EJR+) \
             według liczby projektów.",
        ShortGroups::WordShort => "Za mało",
        ShortGroups::MeansShort =>
            "O grupie: wszyscy jej członkowie głosowali na niewybrany projekt, a ich część puli \
             wystarczyłaby na niego ponad to, co dostało którekolwiek z nich.",
        ShortGroups::MeansShortByCount =>
            "O grupie: wszyscy jej członkowie głosowali na niewybrany projekt, a ich część puli to \
             co najmniej jego koszt pomnożony przez liczbę o jeden większą od liczby wybranych \
             projektów z własnej karty któregokolwiek z nich.",
        ShortGroups::WordPart => "Część puli",
        ShortGroups::MeansPart =>
            "Pula podzielona równo między wszystkich głosujących, razy liczba członków grupy.",
        ShortGroups::WordEjrPlus => "EJR+",
        ShortGroups::MeansEjrPlus =>
            "Pojęcie sprawiedliwości według Brilla i Petersa (2023), tutaj dla projektów z \
             kosztami i z dokładnością do jednego projektu: żadna grupa głosujących nie dostała \
             za mało.",
    }
}
