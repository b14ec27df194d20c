//! The sentences in Polish.
use crate::sentence::{Plural, Sentence, StableWeights};
use crate::wording::short_groups;

/// What a sentence says.
pub fn wording(sentence: Sentence) -> &'static str {
    match sentence {
        Sentence::Kicker => "Budżet obywatelski: sprawdzenie wyniku",
        Sentence::Place => "Miejsce",
        Sentence::VotingDates => "Głosowanie",
        Sentence::FromTo => "od {begin} do {end}",
        Sentence::Rule => "Metoda wyboru",
        Sentence::Voters => "Głosujący",
        Sentence::Turnout => "Frekwencja",
        Sentence::Currency => "Kwoty w",
        Sentence::WhySupported =>
            "Każdy wybrany projekt jest opłacony co do grosza przez głosujących, którzy go \
             popierają, z równych budżetów. Zwolennikom żadnego innego projektu nie zostało \
             łącznie więcej, niż on kosztuje.",
        Sentence::WhyStable =>
            "Każdy wybrany projekt jest opłacony co do grosza przez głosujących, którzy go \
             popierają, z równych budżetów. Zwolennicy żadnego innego projektu nie mogliby \
             zaoferować więcej, niż on kosztuje, nawet gdyby każdy zrezygnował dla niego z jednego \
             wybranego projektu.",
        Sentence::WhyViolation =>
            "Wszyscy jej członkowie popierają projekty, których grupa żąda, a przypadająca jej \
             część puli wystarczyłaby na nie. Mimo to każdy członek dostaje z wybranych projektów \
             mniej, niż warte są żądane.",
        Sentence::WhyUnpriceable =>
            "Jakikolwiek równy budżet mieliby głosujący i jakkolwiek podzieliliby między siebie \
             koszty popieranych projektów, jakiś warunek na ceny nie byłby spełniony, w wersji \
             podstawowej i w stabilnej. Dowodzą tego wagi z tego certyfikatu.",
        Sentence::WhyUnpriceableUnderCover =>
            "Jakkolwiek głosujący podzieliliby między siebie koszty popieranych projektów, jakiś \
             warunek na ceny nie byłby spełniony, w wersji podstawowej i w stabilnej, jeśli ich \
             równe budżety dają razem więcej niż pula. Dowodzą tego wagi z tego certyfikatu. O \
             mniejszych budżetach nic nie mówią.",
        Sentence::SaysLittle =>
            "Ta odpowiedź mówi jednak niewiele: budżety wszystkich głosujących dają razem \
             {budgets}, a to mniej niż pula {limit}. Każda grupa może więc wydać mniej, niż wynosi \
             jej część puli, a czy w puli zmieściłby się kolejny projekt, nie sprawdzano.",
        Sentence::SaysLess =>
            "Ta odpowiedź mówi jednak mniej, niż mogłaby: budżety wszystkich głosujących dają \
             razem {budgets}, a to mniej niż pula {limit}. Każda grupa może więc wydać mniej, niż \
             wynosi jej część puli.",
        Sentence::GroupsWithinReach =>
            "Weźmy dowolnych głosujących, którzy wszyscy głosowali na ten sam niewybrany projekt. \
             Gdyby podzielić pulę równo między wszystkich głosujących, ich część nie \
             przekraczałaby kosztu tego projektu powiększonego o koszt wszystkich wybranych \
             projektów, na które głosowało przynajmniej jedno z nich.",
        Sentence::GroupsBelowReach =>
            "Weźmy dowolnych głosujących, którzy wszyscy głosowali na ten sam niewybrany projekt. \
             Gdyby podzielić pulę równo między wszystkich głosujących, ich część byłaby mniejsza \
             od kosztu tego projektu powiększonego o koszt wszystkich wybranych projektów, na \
             które głosowało przynajmniej jedno z nich.",
        Sentence::NearestGroup(Plural::One) =>
            "Najbliżej jest projekt {project}: część puli przypadająca jego {count} zwolennikowi \
             to {share}. Projekt kosztuje {cost}, a dla tego głosującego wybrano projekty za \
             {funded}.",
        Sentence::NearestGroup(Plural::Few | Plural::Many) =>
            "Najbliżej jest projekt {project}: część puli przypadająca jego {count} zwolennikom to \
             {share}. Projekt kosztuje {cost}, a dla przynajmniej jednego z nich wybrano projekty \
             za {funded}.",
        Sentence::AskedPlain =>
            "Sprawdzono w wersji podstawowej: czy zwolennikom innego projektu zostało łącznie \
             więcej, niż on kosztuje?",
        Sentence::AskedStable =>
            "Sprawdzono w wersji stabilnej: czy zwolennicy innego projektu mogliby łącznie \
             zaoferować więcej, niż on kosztuje, jeśli każdy może też zrezygnować dla niego z \
             jednego wybranego?",
        Sentence::AskedExhaustive => "Sprawdzono też: czy w puli zmieściłby się kolejny projekt?",
        Sentence::UnaskedExhaustive => "Nie sprawdzano, czy w puli zmieściłby się kolejny projekt.",
        Sentence::AskedCover =>
            "Sprawdzono też: czy budżety wszystkich głosujących dają razem więcej niż pula?",
        Sentence::UnaskedCover =>
            "Nie sprawdzano, czy budżety wszystkich głosujących dają razem więcej niż pula.",
        Sentence::AskedByCount => "Liczy się liczba projektów: każdy jest wart 1.",
        Sentence::AskedByCost => "Liczy się koszt: każdy projekt jest wart tyle, ile kosztuje.",
        Sentence::AskedRefutation =>
            "Pytanie: czy wagi dowodzą, że żadne ceny nie wspierają tego wyniku?",
        Sentence::AskedRefutationUnderCover =>
            "Pytanie: czy wagi dowodzą, że żadne ceny z budżetami większymi niż pula nie wspierają \
             tego wyniku?",
        Sentence::StableToo =>
            "W wersji stabilnej, która wymaga więcej, odpowiedź też byłaby twierdząca.",
        Sentence::NotStable(Plural::One) =>
            "W wersji stabilnej, która wymaga więcej, odpowiedź byłaby przecząca: dla {count} \
             projektu zwolennicy mogliby zaoferować więcej, niż on kosztuje.",
        Sentence::NotStable(Plural::Few) =>
            "W wersji stabilnej, która wymaga więcej, odpowiedź byłaby przecząca: dla {count} \
             projektów zwolennicy mogliby zaoferować więcej, niż projekt kosztuje.",
        Sentence::NotStable(Plural::Many) =>
            "W wersji stabilnej, która wymaga więcej, odpowiedź byłaby przecząca: dla {count} \
             projektów zwolennicy mogliby zaoferować więcej, niż projekt kosztuje.",
        Sentence::PlainHolds =>
            "Wersja podstawowa, która wymaga mniej, jest spełniona: w niej odpowiedź byłaby \
             twierdząca.",
        Sentence::AtProjects(Plural::One) => "Dotyczy to {count} projektu.",
        Sentence::AtProjects(Plural::Few) => "Dotyczy to {count} projektów.",
        Sentence::AtProjects(Plural::Many) => "Dotyczy to {count} projektów.",
        Sentence::AtVoters(Plural::One) => "Dotyczy to {count} głosującego.",
        Sentence::AtVoters(Plural::Few) => "Dotyczy to {count} głosujących.",
        Sentence::AtVoters(Plural::Many) => "Dotyczy to {count} głosujących.",
        Sentence::AtPayments(Plural::One) => "Jest {count} taka płatność.",
        Sentence::AtPayments(Plural::Few) => "Są {count} takie płatności.",
        Sentence::AtPayments(Plural::Many) => "Jest {count} takich płatności.",
        Sentence::AtApprovals(Plural::One) => "Jest {count} taka para członka i projektu.",
        Sentence::AtApprovals(Plural::Few) => "Są {count} takie pary członka i projektu.",
        Sentence::AtApprovals(Plural::Many) => "Jest {count} takich par członka i projektu.",
        Sentence::LargestAt => "Różnica jest największa dla projektu {project}: {amount}.",
        Sentence::LargestHere => "Różnica jest tam największa: {amount}.",
        Sentence::AmountAt => "Kwota jest największa dla projektu {project}: {amount}.",
        Sentence::AmountHere => "Kwota jest tam największa.",
        Sentence::DearestAt => "Najdroższy z nich to projekt {project}, który kosztuje {amount}.",
        Sentence::DearestHere => "Najdroższy z nich to ten, który tu wymieniono.",
        Sentence::PaymentAt =>
            "Największą, za projekt {project}, wnosi głosujący {voter}: {amount}.",
        Sentence::PaymentHere => "Największa to ta, którą tu wymieniono: {amount}.",
        Sentence::SpenderHere => "Żaden inny głosujący nie wydaje więcej.",
        Sentence::VoterRow => "{voter} (wiersz {voter} w VOTES)",
        Sentence::OverBy => "o {amount} więcej",
        Sentence::UnderBy => "o {amount} mniej",
        Sentence::JustTheCost => "dokładnie tyle, ile kosztuje",
        Sentence::Glance => "W skrócie",
        Sentence::ProjectsFunded => "Wybrane projekty",
        Sentence::SomeOfAll => "{count} z {all}",
        Sentence::Limit => "Pula środków",
        Sentence::VoterBudget => "Budżet każdego głosującego",
        Sentence::OfTheLimit => "Pula {limit}",
        Sentence::LimitFunded => "{amount} na wybrane projekty",
        Sentence::LimitLeft => "{amount} zostało",
        Sentence::LimitOver => "{amount} ponad pulę",
        Sentence::OfTheBudgets => "Budżety wszystkich głosujących, razem {budgets}",
        Sentence::BudgetsSpent => "{amount} wydano",
        Sentence::BudgetsLeft => "{amount} zostało",
        Sentence::BudgetsOver => "{amount} ponad budżety",
        Sentence::Unfunded => "Projekty, których nie wybrano",
        Sentence::Funded => "Wybrane projekty",
        Sentence::AllFunded => "Wybrano wszystkie projekty.",
        Sentence::NoneFunded => "Nie wybrano żadnego projektu.",
        Sentence::NoProjects => "W tym głosowaniu nie ma projektów.",
        Sentence::HowUnfunded =>
            "Pasek to kwota, która łącznie została zwolennikom projektu, a kreska to jego koszt. \
             Pasek, który sięga za kreskę, łamie warunek.",
        Sentence::HowUnfundedStable =>
            "Pasek to kwota, którą łącznie mogliby zaoferować zwolennicy projektu, a kreska to \
             jego koszt. Pasek, który sięga za kreskę, łamie warunek.",
        Sentence::HowFunded => "Pasek to część puli, którą zajmuje projekt.",
        Sentence::Order => "Kolejność",
        Sentence::OrderClosest => "najbliższe najpierw",
        Sentence::OrderDearest => "najdroższe najpierw",
        Sentence::OrderSupporters => "najwięcej zwolenników najpierw",
        Sentence::OnlyClosest =>
            "Widać tu tylko {count} najbliższych projektów, bez względu na wybraną kolejność.",
        Sentence::Project => "Projekt",
        Sentence::ProjectId => "projekt {id}",
        Sentence::Cost => "Koszt",
        Sentence::Supporters => "Zwolennicy",
        Sentence::HaveLeft => "Zostało im",
        Sentence::CanOffer => "Mogliby zaoferować",
        Sentence::AgainstCost => "Wobec kosztu",
        Sentence::CostPerSupporter => "Koszt na zwolennika",
        Sentence::PartOfLimit => "Część puli",
        Sentence::MoreThanWhole => "więcej niż całość",
        Sentence::PaidExactly => "opłacony co do grosza",
        Sentence::PaidOver => "zapłacono {paid}, o {amount} za dużo",
        Sentence::PaidUnder => "zapłacono {paid}, o {amount} za mało",
        Sentence::PaidInVain => "{paid} zapłacono na próżno",
        Sentence::LabelLeft => "{project}: zwolennikom zostało {amount}, a koszt to {cost}",
        Sentence::LabelOffer =>
            "{project}: zwolennicy mogliby zaoferować {amount}, a koszt to {cost}",
        Sentence::LabelPart => "{project}: {part} z {whole}",
        Sentence::LeftOut(Plural::One) =>
            "Pominięto tu jeszcze {count} projekt, żeby przeglądarka mogła pokazać stronę.",
        Sentence::LeftOut(Plural::Few) =>
            "Pominięto tu jeszcze {count} projekty, żeby przeglądarka mogła pokazać stronę.",
        Sentence::LeftOut(Plural::Many) =>
            "Pominięto tu jeszcze {count} projektów, żeby przeglądarka mogła pokazać stronę.",
        Sentence::Group => "Grupa",
        Sentence::Members => "Członkowie",
        Sentence::GroupShare => "Jej część puli",
        Sentence::DemandCost => "Koszt tego, czego żąda",
        Sentence::BarShare => "Część puli należna grupie; kreska to koszt żądanych projektów.",
        Sentence::BarGets =>
            "Najwięcej, ile dostaje członek grupy z wybranych projektów; kreska to wartość \
             żądanych.",
        Sentence::BarEnough =>
            "To, co głosujący {voter} dostaje z wybranych projektów; kreska to wartość żądanych.",
        Sentence::AmountOfAmount => "{amount} wobec {bound}",
        Sentence::Demand => "Czego żąda grupa",
        Sentence::NoDemand => "Grupa niczego nie żąda.",
        Sentence::State => "Wynik",
        Sentence::IsFunded => "wybrany",
        Sentence::IsUnfunded => "niewybrany",
        Sentence::PartOfShare => "Część tego, co należy się grupie",
        Sentence::Weights => "Wagi",
        Sentence::HowWeights =>
            "Każda waga mówi, ile razy liczy się warunek dotyczący tego projektu. Dodane do siebie \
             warunki są ze sobą sprzeczne.",
        Sentence::HowWeightsFail =>
            "Każda waga mówi, ile razy liczy się warunek dotyczący tego projektu. Dodane do siebie \
             warunki miały być ze sobą sprzeczne.",
        Sentence::NoWeights => "Certyfikat nie nadaje wagi żadnemu projektowi.",
        Sentence::CoverWeight => "Waga większych budżetów",
        Sentence::PaidAtLeast => "Według wag do zapłaty co najmniej",
        Sentence::PaidAtMost => "Według wag do zapłaty co najwyżej",
        Sentence::Counts => "Co się liczy",
        Sentence::CountsLeast => "płaci się co najmniej jego koszt",
        Sentence::CountsMost => "płaci się co najwyżej jego koszt",
        Sentence::CountsLeft => "zwolennikom zostaje co najwyżej jego koszt",
        Sentence::Weight => "Waga",
        Sentence::Conditions => "Warunki po kolei",
        Sentence::Tests => "Kryteria po kolei",
        Sentence::Holds => "spełniony",
        Sentence::Fails => "niespełniony",
        Sentence::NotAsked => "nie sprawdzano",
        Sentence::TestHolds => "spełnione",
        Sentence::TestFails => "niespełnione",
        Sentence::NameFeasible => "W granicach puli",
        Sentence::NameExhaustive => "Na nic więcej nie wystarcza",
        Sentence::NameCover => "Budżety większe niż pula",
        Sentence::NameC1 => "Płacone tylko za popierane projekty",
        Sentence::NameC2 => "W granicach budżetu każdego głosującego",
        Sentence::NameC3 => "Opłacone co do grosza",
        Sentence::NameC4 => "Nic nie zapłacono na próżno",
        Sentence::NameC5 => "Zwolennikom nie zostało więcej niż koszt",
        Sentence::NameS5 => "Żadna grupa nie wolałaby innego projektu",
        Sentence::NameV1 => "Grupa ma członków",
        Sentence::NameV2 => "Wszyscy chcą tego samego",
        Sentence::NameV3 => "Grupa jest dość duża",
        Sentence::NameV4 => "Nikt z grupy nie dostaje tyle",
        Sentence::NameU1 => "Każda waga jest właściwego rodzaju",
        Sentence::NameU2 => "Budżety pokrywają to, co się liczy",
        Sentence::NameU3 => "Sumy są ze sobą sprzeczne",
        Sentence::AsksFeasible =>
            "Wybrane projekty nie mogą kosztować razem więcej niż pula. Nie można obiecać więcej, \
             niż jest.",
        Sentence::AsksExhaustive =>
            "W puli nie może się zmieścić żaden inny projekt. Pieniądze, które by na niego \
             wystarczyły, nie powinny leżeć bezczynnie.",
        Sentence::AsksCover =>
            "Budżety wszystkich głosujących dają razem więcej niż pula, więc każda grupa może \
             wydać więcej, niż wynosi jej część puli.",
        Sentence::AsksC1 =>
            "Głosujący płacą tylko za projekty, które popierają. Niczyich pieniędzy nie można użyć \
             na coś, o co nie prosił.",
        Sentence::AsksC2 =>
            "Żaden głosujący nie wydaje więcej niż budżet, który jest dla wszystkich taki sam. \
             Każdy liczy się tyle samo.",
        Sentence::AsksC3 =>
            "Ci, którzy popierają wybrany projekt, pokrywają razem cały jego koszt i nic ponad to.",
        Sentence::AsksC4 =>
            "Płatności za niewybrany projekt zużywałyby na darmo głos tych, którzy za niego płacą.",
        Sentence::AsksC5 =>
            "Zwolennikom projektu, którego nie wybrano, nie może zostać łącznie więcej, niż on \
             kosztuje. W przeciwnym razie mogliby za niego zapłacić, a zostali pominięci.",
        Sentence::AsksS5 =>
            "Zwolennicy projektu, którego nie wybrano, nie powinni być w stanie zaoferować więcej, \
             niż on kosztuje: każdy z tego, co mu zostało, albo rezygnując z jednego wybranego \
             projektu. W przeciwnym razie woleliby właśnie jego.",
        Sentence::AsksV1 => "Bez członków nikt nie jest źle traktowany.",
        Sentence::AsksV2 => "Grupa może żądać tylko tego, czego chcą wszyscy jej członkowie.",
        Sentence::AsksV3 =>
            "Część puli należna grupie ze względu na liczbę głosujących pokrywa to, czego żąda. \
             Grupa może żądać tylko tego, co jej się należy.",
        Sentence::AsksV4 =>
            "Każdy członek dostaje z wybranych projektów mniej, niż warte są żądane. Grupę, w \
             której ktoś dostaje tyle lub więcej, wysłuchano.",
        Sentence::AsksU1 =>
            "Przy wybranym projekcie liczyć można to, co się za niego płaci, a przy innym to, co \
             zostało jego zwolennikom.",
        Sentence::AsksU2 =>
            "Budżet głosującego można policzyć tyle razy, ile razy liczy się to, co mu zostało, we \
             wszystkich popieranych przez niego niewybranych projektach, i nie więcej razy.",
        Sentence::AsksU3 =>
            "To, co trzeba zapłacić co najmniej, musi być większe od tego, co można zapłacić co \
             najwyżej. Tylko wtedy takich cen nie ma.",
        Sentence::FoundFeasible => "Wybrane projekty kosztują razem {total}; pula to {limit}.",
        Sentence::BrokenFeasible =>
            "Wybrane projekty kosztują razem {total}, a to więcej niż pula {limit}.",
        Sentence::FoundExhaustive =>
            "Z puli zostało {left}. Najtańszy niewybrany projekt, {project}, kosztuje {cost}.",
        Sentence::NothingFits =>
            "Same wybrane projekty kosztują więcej niż pula, więc żaden inny się w niej nie \
             zmieści.",
        Sentence::BrokenExhaustive =>
            "Z puli zostało {left} i zmieściłby się jeszcze projekt {project}: kosztuje {cost}.",
        Sentence::FoundCover =>
            "Budżety wszystkich głosujących dają razem {budgets}; pula to {limit}.",
        Sentence::BrokenCover =>
            "Budżety wszystkich głosujących dają razem {budgets}, a to nie więcej niż pula \
             {limit}.",
        Sentence::FoundC1 =>
            "Nikt nie płaci za projekt, którego nie ma na jego karcie do głosowania.",
        Sentence::BrokenC1 =>
            "Głosujący {voter} płaci za projekt {project}, którego nie ma na jego karcie do \
             głosowania.",
        Sentence::FoundC2 => "Najwięcej wydaje głosujący {voter}: {spent} z budżetu {budget}.",
        Sentence::BrokenC2 =>
            "Głosujący {voter} wydaje {spent}, a to o {over} więcej niż budżet {budget}.",
        Sentence::NoVoters => "Nie ma głosujących.",
        Sentence::FoundC3 => "Każdy wybrany projekt jest opłacony co do grosza.",
        Sentence::BrokenC3 => "Projekt {project} kosztuje {cost}, a zapłacono za niego {paid}.",
        Sentence::FoundC4 => "Za niewybrane projekty nic się nie płaci.",
        Sentence::BrokenC4 => "Projektu {project} nie wybrano, a zapłacono za niego {paid}.",
        Sentence::FoundC5 =>
            "Najbliżej jest projekt {project}: jego zwolennikom zostało łącznie {left}, a kosztuje \
             {cost}.",
        Sentence::BrokenC5 =>
            "Zwolennikom projektu {project} zostało łącznie {left}, a to więcej niż jego koszt \
             {cost}: mogli za niego zapłacić.",
        Sentence::FoundS5 =>
            "Najbliżej jest projekt {project}: jego zwolennicy mogliby łącznie zaoferować {offer}, \
             a kosztuje {cost}.",
        Sentence::BrokenS5 =>
            "Zwolennicy projektu {project} mogliby łącznie zaoferować {offer}, każdy to, co mu \
             zostało, albo swoją największą płatność za jeden projekt. To więcej niż jego koszt \
             {cost}.",
        Sentence::FoundV1 => "Członkowie grupy: {members}. Wszyscy głosujący: {voters}.",
        Sentence::BrokenV1 => "Grupa nie ma członków.",
        Sentence::FoundV2 => "Każdy członek popiera każdy żądany projekt.",
        Sentence::BrokenV2 =>
            "Głosujący {voter} należy do grupy, a nie popiera projektu {project}, którego grupa \
             żąda.",
        Sentence::FoundV3 =>
            "Część puli należna grupie to {share}; żądane projekty kosztują razem {cost}.",
        Sentence::BrokenV3 =>
            "Część puli należna grupie to tylko {share}, a żądane projekty kosztują razem {cost}.",
        Sentence::FoundV4 =>
            "Żaden członek nie dostaje z wybranych projektów więcej niż {gets}; żądane warte są \
             razem {demanded}.",
        Sentence::BrokenV4 =>
            "Głosujący {voter} należy do grupy i dostaje z wybranych projektów {gets}, czyli tyle, \
             ile razem warte są żądane ({demanded}), lub więcej.",
        Sentence::FoundU1 => "Każdy wiersz jest rodzaju właściwego dla swojego projektu.",
        Sentence::BrokenU1Funded =>
            "Projekt {project} jest wybrany, a jego wiersz liczy to, co zostało jego zwolennikom.",
        Sentence::BrokenU1Unfunded =>
            "Projekt {project} nie jest wybrany, a jego wiersz liczy to, co się za niego płaci.",
        Sentence::FoundU2 =>
            "Płatności liczą budżet głosującego co najwyżej {counted} razy, łącznie dla wszystkich \
             głosujących; to, co im zostało, liczy go {taken} razy.",
        Sentence::BrokenU2 =>
            "Płatności mogą liczyć budżet głosującego {counted} razy, łącznie dla wszystkich \
             głosujących; to, co im zostało, liczy go tylko {taken} razy.",
        Sentence::FoundU3 =>
            "Według tych wag trzeba zapłacić co najmniej {least}, a można co najwyżej {most}.",
        Sentence::FoundU3UnderCover =>
            "Według tych wag trzeba zapłacić więcej niż {least}, jeśli budżety dają razem więcej \
             niż pula, a można co najwyżej {most}.",
        Sentence::BrokenU3 =>
            "Według tych wag trzeba zapłacić co najmniej {least}, a można {most}: to nie jest \
             sprzeczność.",
        Sentence::OfStableWeights(sentence) => of_stable_weights(sentence),
        Sentence::NotSaid => "Czego z tego nie wynika",
        Sentence::NotSaidOthers =>
            "Czy inne projekty byłyby równie sprawiedliwe. Uzasadnić można nieraz kilka wyników.",
        Sentence::NotSaidDeserved =>
            "Że każda grupa głosujących dostała to, na co zasługuje. Inne kryterium może nadal \
             wykazać, że jakaś grupa dostała mniej, niż jej się należy.",
        Sentence::NotSaidGroups =>
            "Ile grupy głosujących dostały za swoją część puli. Żeby dało się to powiedzieć, \
             budżety wszystkich głosujących muszą razem sięgać co najmniej puli.",
        Sentence::NotSaidPayments =>
            "Że wynik jest niesprawiedliwy. Ta odpowiedź dotyczy tylko tych płatności; inne mogą \
             wspierać te same projekty.",
        Sentence::NotSaidOutcome =>
            "Że pomogłyby inne płatności. Tu zawodzi sam wynik i żadne płatności tego nie zmienią.",
        Sentence::NotSaidGroup =>
            "Że wynik dobrze traktuje wszystkie grupy. Odpowiedź dotyczy tylko tej grupy i tego \
             żądania.",
        Sentence::NotSaidWhich => "Które projekty należało wybrać zamiast tych.",
        Sentence::NotSaidUnfair =>
            "Że źle potraktowano jakąś określoną grupę. To wykazałby dopiero certyfikat \
             naruszenia.",
        Sentence::NotSaidWeights =>
            "Że istnieją ceny, które wspierają ten wynik. Ta odpowiedź dotyczy tylko tych wag; \
             inne mogą go obalać.",
        Sentence::NotSaidFiles =>
            "Czy to te pliki, które ogłosiła gmina. Porównaj ich sumy kontrolne z ogłoszonymi.",
        Sentence::Claim => "Co można powiedzieć publicznie",
        Sentence::ClaimSupported =>
            "Istnieją ceny, które wspierają ten wynik: każdy wybrany projekt opłacają co do grosza \
             głosujący, którzy go popierają, z równych budżetów, i żadnej grupie zwolenników nie \
             zostało więcej, niż kosztuje inny projekt.",
        Sentence::ClaimStable =>
            "Istnieją stabilne ceny, które wspierają ten wynik: każdy wybrany projekt opłacają co \
             do grosza głosujący, którzy go popierają, z równych budżetów, i żadna grupa nie \
             wolałaby zapłacić za inny projekt.",
        Sentence::ClaimNotSupported =>
            "Te płatności nie wspierają wyniku. Więcej powiedzieć nie można: inne mogą go \
             wspierać.",
        Sentence::ClaimPlain =>
            "Te ceny wspierają ten wynik w wersji podstawowej, ale nie w stabilnej: każdy wybrany \
             projekt opłacają co do grosza głosujący, którzy go popierają, z równych budżetów, i \
             żadnej grupie zwolenników nie zostało więcej, niż kosztuje inny projekt.",
        Sentence::ClaimOutcome => "Wynik łamie warunek, bez względu na płatności.",
        Sentence::ClaimViolation =>
            "Wynik traktuje grupę głosujących gorzej, niż na to zasługuje: nie zapewnia \
             rozszerzonej uzasadnionej reprezentacji (EJR).",
        Sentence::ClaimByCount => "Tak jest, gdy liczy się liczba projektów: każdy jest wart 1.",
        Sentence::ClaimByCost =>
            "Tak jest, gdy liczy się koszt: każdy projekt jest wart tyle, ile kosztuje.",
        Sentence::ClaimLittle =>
            "Budżety wszystkich głosujących dają razem mniej niż pula, a czy zmieściłby się w niej \
             kolejny projekt, nie sprawdzano.",
        Sentence::ClaimLess => "Budżety wszystkich głosujących dają razem mniej niż pula.",
        Sentence::ClaimNoViolation =>
            "Ten certyfikat nie wykazuje naruszenia. Nie wykazuje też, że go nie ma.",
        Sentence::ClaimUnpriceable =>
            "Żadne ceny nie wspierają tego wyniku: jakikolwiek równy budżet dostaliby głosujący i \
             jakkolwiek podzieliliby koszty popieranych projektów.",
        Sentence::ClaimUnpriceableUnderCover =>
            "Żadne ceny nie wspierają tego wyniku, jeśli równe budżety głosujących dają razem \
             więcej niż pula.",
        Sentence::ClaimNotRefuted =>
            "Ten certyfikat nie dowodzi, że żadne ceny nie wspierają wyniku. Więcej powiedzieć nie \
             można.",
        Sentence::ClaimHow =>
            "Podaj, o które pliki chodzi, wraz z sumami kontrolnymi, żeby każdy mógł to sprawdzić.",
        Sentence::Words => "Słowa na tej stronie",
        Sentence::WordCertificate => "Certyfikat",
        Sentence::MeansCertificate =>
            "Plik, który podaje uzasadnienie odpowiedzi tak, że każdy może je sprawdzić.",
        Sentence::WordPrices => "Ceny",
        Sentence::MeansPrices =>
            "Równy budżet dla każdego głosującego oraz to, ile każdy płaci za każdy projekt. Nikt \
             naprawdę nie płaci: to sposób, by powiedzieć, kto ponosi jaki koszt.",
        Sentence::WordSupporter => "Zwolennik",
        Sentence::MeansSupporter => "Głosujący, na którego karcie jest ten projekt.",
        Sentence::WordLeftover => "Co zostało",
        Sentence::MeansLeftover =>
            "To, co zostało z budżetu głosującego po wszystkich płatnościach.",
        Sentence::WordOffer => "Oferta",
        Sentence::MeansOffer =>
            "To, co zostało głosującemu, albo jego największa płatność za jeden projekt, zależnie \
             od tego, co większe.",
        Sentence::WordShare => "Część",
        Sentence::MeansShare => "Część puli, która przypada grupie według liczby głosujących.",
        Sentence::WordDemand => "Żądanie",
        Sentence::MeansDemand => "Projekty, o które certyfikat upomina się w imieniu grupy.",
        Sentence::WordWeight => "Waga",
        Sentence::MeansWeight => "Ile razy certyfikat liczy warunek dotyczący projektu.",
        Sentence::Files => "Pliki i jak to sprawdzić",
        Sentence::ElectionFile => "Głosowanie",
        Sentence::OutcomeFile => "Wynik",
        Sentence::CertificateFile => "Certyfikat",
        Sentence::Bytes(Plural::One) => "{count} bajt",
        Sentence::Bytes(Plural::Few) => "{count} bajty",
        Sentence::Bytes(Plural::Many) => "{count} bajtów",
        Sentence::CheckProgram => "Programem pbaudit:",
        Sentence::CheckByHand =>
            "Programem pbaudit: te pliki należy podać jego poleceniu explain. Nie zapisano go tu w \
             całości, bo nazwa któregoś pliku jest za długa, ma znaki, których polecenie nie może \
             pokazać, albo jest też nazwą innego.",
        Sentence::CheckOptions => "Jego opcje: {options}.",
        Sentence::CheckAnswer => "Odpowiedź:",
        Sentence::CheckBrowser =>
            "W przeglądarce: wystarczy otworzyć pbaudit.html i podać te pliki stronie. Nie \
             opuszczą komputera.",
        Sentence::Trust =>
            "Kto zmieni tę stronę, może wpisać w nią wszystko. Ufaj plikom i programowi, nie \
             stronie.",
        Sentence::MadeBy => "Utworzono programem pbaudit {version}.",
        Sentence::OfShortGroups(sentence) => short_groups::pl::wording(sentence),
    }
}

// What a sentence on weights says where it speaks of stable prices.
fn of_stable_weights(sentence: StableWeights) -> &'static str {
    match sentence {
        StableWeights::WhyUnpriceable =>
            "W wersji stabilnej każdy głosujący może zaoferować na inny projekt to, co mu zostało, \
             albo swoją największą płatność za wybrany projekt, zależnie od tego, co większe. \
             Jakikolwiek równy budżet mieliby głosujący i jakkolwiek podzieliliby między siebie \
             koszty popieranych projektów, jakiś warunek na takie ceny nie byłby spełniony. \
             Dowodzą tego wagi z tego certyfikatu.",
        StableWeights::WhyUnpriceableUnderCover =>
            "W wersji stabilnej każdy głosujący może zaoferować na inny projekt to, co mu zostało, \
             albo swoją największą płatność za wybrany projekt, zależnie od tego, co większe. \
             Jakkolwiek głosujący podzieliliby między siebie koszty popieranych projektów, jakiś \
             warunek na takie ceny nie byłby spełniony, jeśli ich równe budżety dają razem więcej \
             niż pula. Dowodzą tego wagi z tego certyfikatu. O mniejszych budżetach nic nie mówią.",
        StableWeights::Asked =>
            "Pytanie: czy wagi dowodzą, że żadne stabilne ceny nie wspierają tego wyniku?",
        StableWeights::AskedUnderCover =>
            "Pytanie: czy wagi dowodzą, że żadne stabilne ceny z budżetami większymi niż pula nie \
             wspierają tego wyniku?",
        StableWeights::OfAllPrices =>
            "Dowodzą tego dla wszystkich cen, także w wersji podstawowej, która wymaga mniej.",
        StableWeights::CountsOffer => "zwolennicy mogą zaoferować co najwyżej jego koszt",
        StableWeights::AsksU1 =>
            "Przy wybranym projekcie liczyć można to, co się za niego płaci, a przy innym to, co \
             mogą zaoferować jego zwolennicy.",
        StableWeights::AsksU2 =>
            "Budżet głosującego można policzyć tyle razy, ile razy liczy się to, co może on \
             zaoferować, we wszystkich popieranych przez niego niewybranych projektach, i nie \
             więcej razy. Żadna płatność nie jest większa od tej oferty, więc oferty wyrównują \
             część tego, co liczą płatności.",
        StableWeights::BrokenU1Funded =>
            "Projekt {project} jest wybrany, a jego wiersz liczy to, co mogą zaoferować jego \
             zwolennicy.",
        StableWeights::FoundU2 =>
            "Pomijając to, co wyrównują oferty, płatności liczą budżet głosującego co najwyżej \
             {counted} razy, łącznie dla wszystkich głosujących; to, co mogą zaoferować, liczy go \
             {taken} razy.",
        StableWeights::BrokenU2 =>
            "Nawet pomijając to, co wyrównują oferty, płatności mogą liczyć budżet głosującego \
             {counted} razy, łącznie dla wszystkich głosujących; to, co mogą zaoferować, liczy go \
             tylko {taken} razy.",
        StableWeights::NotSaidPlain =>
            "Że żadne ceny nie wspierają tego wyniku w wersji podstawowej, która wymaga mniej. \
             Takie ceny mogą mimo to istnieć.",
        StableWeights::NotSaidWeights =>
            "Że istnieją stabilne ceny, które wspierają ten wynik. Ta odpowiedź dotyczy tylko tych \
             wag; inne mogą go obalać.",
        StableWeights::ClaimUnpriceable =>
            "Żadne stabilne ceny nie wspierają tego wyniku: jakikolwiek równy budżet dostaliby \
             głosujący i jakkolwiek podzieliliby koszty popieranych projektów, jakaś grupa \
             głosujących wolałaby zapłacić za inny projekt.",
        StableWeights::ClaimUnpriceableUnderCover =>
            "Żadne stabilne ceny nie wspierają tego wyniku, jeśli równe budżety głosujących dają \
             razem więcej niż pula.",
        StableWeights::ClaimNotRefuted =>
            "Ten certyfikat nie dowodzi, że żadne stabilne ceny nie wspierają wyniku. Więcej \
             powiedzieć nie można.",
    }
}
