//! The sentences in German.
use crate::sentence::{Plural, Sentence, StableWeights};
use crate::wording::short_groups;

/// What a sentence says.
pub fn wording(sentence: Sentence) -> &'static str {
    match sentence {
        Sentence::Kicker => "Bürgerhaushalt: eine Prüfung des Ergebnisses",
        Sentence::Place => "Ort",
        Sentence::VotingDates => "Abstimmung",
        Sentence::FromTo => "{begin} bis {end}",
        Sentence::Rule => "Auswahlverfahren",
        Sentence::Voters => "Abstimmende",
        Sentence::Turnout => "Beteiligung",
        Sentence::Currency => "Beträge in",
        Sentence::WhySupported =>
            "Die Kosten jedes geförderten Projekts sind genau gedeckt, und zwar von Abstimmenden, \
             die dafür gestimmt haben, aus gleich großen Budgets. Bei keinem anderen Projekt haben \
             die Unterstützenden zusammen mehr übrig, als es kostet.",
        Sentence::WhyStable =>
            "Die Kosten jedes geförderten Projekts sind genau gedeckt, und zwar von Abstimmenden, \
             die dafür gestimmt haben, aus gleich großen Budgets. Bei keinem anderen Projekt \
             könnten die Unterstützenden mehr bieten, als es kostet, auch nicht, wenn alle dafür \
             auf ein gefördertes Projekt verzichten.",
        Sentence::WhyViolation =>
            "Alle Mitglieder der Gruppe haben für die verlangten Projekte gestimmt, und der Anteil \
             der Gruppe am Gesamtbudget würde dafür reichen. Doch von den geförderten Projekten \
             bekommt jedes Mitglied weniger, als die verlangten wert sind.",
        Sentence::WhyUnpriceable =>
            "Wie groß das gleiche Budget aller Abstimmenden auch wäre und wie sie sich die Kosten \
             der Projekte, für die sie gestimmt haben, auch teilten: Eine Bedingung an die Preise \
             wäre verletzt, in der einfachen Form wie in der stabilen. Die Gewichte dieses \
             Zertifikats beweisen es.",
        Sentence::WhyUnpriceableUnderCover =>
            "Wie sich die Abstimmenden die Kosten der Projekte, für die sie gestimmt haben, auch \
             teilten: Eine Bedingung an die Preise wäre verletzt, in der einfachen Form wie in der \
             stabilen, wenn ihre gleich großen Budgets zusammen mehr als das Gesamtbudget ergeben. \
             Die Gewichte dieses Zertifikats beweisen es. Über kleinere Budgets sagen sie nichts.",
        Sentence::SaysLittle =>
            "Doch dieses Ja sagt wenig: Die Budgets aller Abstimmenden ergeben zusammen {budgets}, \
             und das ist weniger als das Gesamtbudget von {limit}. Jede Gruppe kann also weniger \
             ausgeben als ihren Anteil am Gesamtbudget, und ob ein weiteres Projekt hineinpasst, \
             wurde nicht geprüft.",
        Sentence::SaysLess =>
            "Doch dieses Ja sagt weniger, als es könnte: Die Budgets aller Abstimmenden ergeben \
             zusammen {budgets}, und das ist weniger als das Gesamtbudget von {limit}. Jede Gruppe \
             kann also weniger ausgeben als ihren Anteil am Gesamtbudget.",
        Sentence::GroupsWithinReach =>
            "Nehmen Sie beliebige Abstimmende, die alle für dasselbe nicht geförderte Projekt \
             gestimmt haben. Teilt man das Gesamtbudget gleichmäßig auf alle Abstimmenden auf, \
             ist ihr Anteil nicht größer als die Kosten dieses Projekts plus die Kosten aller \
             geförderten Projekte, für die mindestens eine dieser Personen gestimmt hat.",
        Sentence::GroupsBelowReach =>
            "Nehmen Sie beliebige Abstimmende, die alle für dasselbe nicht geförderte Projekt \
             gestimmt haben. Teilt man das Gesamtbudget gleichmäßig auf alle Abstimmenden auf, \
             ist ihr Anteil kleiner als die Kosten dieses Projekts plus die Kosten aller \
             geförderten Projekte, für die mindestens eine dieser Personen gestimmt hat.",
        Sentence::NearestGroup(Plural::One) =>
            "Am nächsten kommt Projekt {project}: Der Anteil seiner {count} unterstützenden Person \
             ist {share}. Es kostet {cost}, und für sie wird Weiteres für {funded} gefördert.",
        Sentence::NearestGroup(Plural::Few | Plural::Many) =>
            "Am nächsten kommt Projekt {project}: Der Anteil seiner {count} Unterstützenden ist \
             {share}. Es kostet {cost}, und für mindestens eine dieser Personen wird Weiteres für \
             {funded} gefördert.",
        Sentence::AskedPlain =>
            "Geprüft wurde die einfache Form: Haben die Unterstützenden eines anderen Projekts \
             zusammen mehr übrig, als es kostet?",
        Sentence::AskedStable =>
            "Geprüft wurde die stabile Form: Könnten die Unterstützenden eines anderen Projekts \
             zusammen mehr bieten, als es kostet, wenn alle dafür auch auf ein gefördertes \
             verzichten dürfen?",
        Sentence::AskedExhaustive =>
            "Außerdem geprüft: Passt ein weiteres Projekt ins Gesamtbudget?",
        Sentence::UnaskedExhaustive =>
            "Nicht geprüft: Passt ein weiteres Projekt ins Gesamtbudget?",
        Sentence::AskedCover =>
            "Außerdem geprüft: Ergeben die Budgets aller Abstimmenden mehr als das Gesamtbudget?",
        Sentence::UnaskedCover =>
            "Nicht geprüft: Ergeben die Budgets aller Abstimmenden mehr als das Gesamtbudget?",
        Sentence::AskedByCount => "Gezählt wird nach Projekten: Jedes ist 1 wert.",
        Sentence::AskedByCost => "Gezählt wird nach Kosten: Jedes Projekt ist wert, was es kostet.",
        Sentence::AskedRefutation =>
            "Geprüft wurde: Beweisen die Gewichte, dass keine Preise dieses Ergebnis stützen?",
        Sentence::AskedRefutationUnderCover =>
            "Geprüft wurde: Beweisen die Gewichte, dass keine Preise mit Budgets über dem \
             Gesamtbudget dieses Ergebnis stützen?",
        Sentence::StableToo =>
            "In der stabilen Form, die mehr verlangt, wäre die Antwort ebenfalls ja.",
        Sentence::NotStable(Plural::One) =>
            "In der stabilen Form, die mehr verlangt, wäre die Antwort nein: Für {count} Projekt \
             könnten die Unterstützenden mehr bieten, als es kostet.",
        Sentence::NotStable(Plural::Few | Plural::Many) =>
            "In der stabilen Form, die mehr verlangt, wäre die Antwort nein: Für {count} Projekte \
             könnten die Unterstützenden mehr bieten, als das Projekt kostet.",
        Sentence::PlainHolds =>
            "Die einfache Form, die weniger verlangt, ist erfüllt: In ihr wäre die Antwort ja.",
        Sentence::AtProjects(Plural::One) => "Das gilt für {count} Projekt.",
        Sentence::AtProjects(Plural::Few | Plural::Many) => "Das gilt für {count} Projekte.",
        Sentence::AtVoters(Plural::One) => "Das gilt für {count} Person.",
        Sentence::AtVoters(Plural::Few | Plural::Many) => "Das gilt für {count} Personen.",
        Sentence::AtPayments(Plural::One) => "Es gibt {count} solche Zahlung.",
        Sentence::AtPayments(Plural::Few | Plural::Many) => "Es gibt {count} solche Zahlungen.",
        Sentence::AtApprovals(Plural::One) =>
            "Es gibt {count} solches Paar aus Mitglied und Projekt.",
        Sentence::AtApprovals(Plural::Few | Plural::Many) =>
            "Es gibt {count} solche Paare aus Mitglied und Projekt.",
        Sentence::LargestAt => "Am größten ist der Unterschied bei Projekt {project}: {amount}.",
        Sentence::LargestHere => "Dort ist der Unterschied am größten: {amount}.",
        Sentence::AmountAt => "Am größten ist der Betrag bei Projekt {project}: {amount}.",
        Sentence::AmountHere => "Dort ist der Betrag am größten.",
        Sentence::DearestAt => "Das teuerste davon ist Projekt {project}, das {amount} kostet.",
        Sentence::DearestHere => "Das teuerste davon ist das hier genannte.",
        Sentence::PaymentAt => "Die größte leistet Person {voter} für Projekt {project}: {amount}.",
        Sentence::PaymentHere => "Die größte ist die hier genannte: {amount}.",
        Sentence::SpenderHere => "Mehr gibt keine andere Person aus.",
        Sentence::VoterRow => "{voter} (Zeile {voter} von VOTES)",
        Sentence::OverBy => "um {amount} darüber",
        Sentence::UnderBy => "um {amount} darunter",
        Sentence::JustTheCost => "genau die Kosten",
        Sentence::Glance => "Auf einen Blick",
        Sentence::ProjectsFunded => "Geförderte Projekte",
        Sentence::SomeOfAll => "{count} von {all}",
        Sentence::Limit => "Gesamtbudget",
        Sentence::VoterBudget => "Budget je Person",
        Sentence::OfTheLimit => "Gesamtbudget von {limit}",
        Sentence::LimitFunded => "{amount} für geförderte Projekte",
        Sentence::LimitLeft => "{amount} übrig",
        Sentence::LimitOver => "{amount} über dem Gesamtbudget",
        Sentence::OfTheBudgets => "Budgets aller Abstimmenden, zusammen {budgets}",
        Sentence::BudgetsSpent => "{amount} ausgegeben",
        Sentence::BudgetsLeft => "{amount} übrig",
        Sentence::BudgetsOver => "{amount} mehr als die Budgets",
        Sentence::Unfunded => "Projekte, die nicht gefördert werden",
        Sentence::Funded => "Projekte, die gefördert werden",
        Sentence::AllFunded => "Alle Projekte werden gefördert.",
        Sentence::NoneFunded => "Kein Projekt wird gefördert.",
        Sentence::NoProjects => "Bei dieser Abstimmung gibt es keine Projekte.",
        Sentence::HowUnfunded =>
            "Der Balken zeigt, was die Unterstützenden eines Projekts zusammen übrig haben, und \
             der Strich, was es kostet. Ein Balken über den Strich hinaus verletzt die Bedingung.",
        Sentence::HowUnfundedStable =>
            "Der Balken zeigt, was die Unterstützenden eines Projekts zusammen bieten könnten, und \
             der Strich, was es kostet. Ein Balken über den Strich hinaus verletzt die Bedingung.",
        Sentence::HowFunded =>
            "Der Balken zeigt den Teil des Gesamtbudgets, den ein Projekt braucht.",
        Sentence::Order => "Reihenfolge",
        Sentence::OrderClosest => "knappste zuerst",
        Sentence::OrderDearest => "teuerste zuerst",
        Sentence::OrderSupporters => "meiste Unterstützende zuerst",
        Sentence::OnlyClosest =>
            "Hier stehen nur die {count} knappsten Projekte, unabhängig von der gewählten \
             Reihenfolge.",
        Sentence::Project => "Projekt",
        Sentence::ProjectId => "Projekt {id}",
        Sentence::Cost => "Kosten",
        Sentence::Supporters => "Unterstützende",
        Sentence::HaveLeft => "Sie haben übrig",
        Sentence::CanOffer => "Sie könnten bieten",
        Sentence::AgainstCost => "Gemessen an den Kosten",
        Sentence::CostPerSupporter => "Kosten pro unterstützender Person",
        Sentence::PartOfLimit => "Teil des Gesamtbudgets",
        Sentence::MoreThanWhole => "mehr als das Ganze",
        Sentence::PaidExactly => "genau gedeckt",
        Sentence::PaidOver => "{paid} bezahlt, um {amount} zu viel",
        Sentence::PaidUnder => "{paid} bezahlt, um {amount} zu wenig",
        Sentence::PaidInVain => "{paid} vergeblich bezahlt",
        Sentence::LabelLeft =>
            "{project}: die Unterstützenden haben {amount} übrig, die Kosten sind {cost}",
        Sentence::LabelOffer =>
            "{project}: die Unterstützenden könnten {amount} bieten, die Kosten sind {cost}",
        Sentence::LabelPart => "{project}: {part} von {whole}",
        Sentence::LeftOut(Plural::One) =>
            "{count} weiteres Projekt fehlt hier, damit ein Browser die Seite zeigen kann.",
        Sentence::LeftOut(Plural::Few | Plural::Many) =>
            "{count} weitere Projekte fehlen hier, damit ein Browser die Seite zeigen kann.",
        Sentence::Group => "Die Gruppe",
        Sentence::Members => "Mitglieder",
        Sentence::GroupShare => "Ihr Anteil am Gesamtbudget",
        Sentence::DemandCost => "Kosten des Verlangten",
        Sentence::BarShare =>
            "Der Anteil der Gruppe am Gesamtbudget; der Strich zeigt, was die verlangten Projekte \
             kosten.",
        Sentence::BarGets =>
            "Das meiste, was ein Mitglied von den geförderten Projekten bekommt; der Strich zeigt \
             den Wert der verlangten.",
        Sentence::BarEnough =>
            "Was Person {voter} von den geförderten Projekten bekommt; der Strich zeigt den Wert \
             der verlangten.",
        Sentence::AmountOfAmount => "{amount} gegenüber {bound}",
        Sentence::Demand => "Was die Gruppe verlangt",
        Sentence::NoDemand => "Die Gruppe verlangt nichts.",
        Sentence::State => "Ergebnis",
        Sentence::IsFunded => "gefördert",
        Sentence::IsUnfunded => "nicht gefördert",
        Sentence::PartOfShare => "Teil des Anteils der Gruppe",
        Sentence::Weights => "Die Gewichte",
        Sentence::HowWeights =>
            "Jedes Gewicht sagt, wie oft eine Bedingung an dieses Projekt gezählt wird. \
             Zusammengezählt widersprechen die Bedingungen einander.",
        Sentence::HowWeightsFail =>
            "Jedes Gewicht sagt, wie oft eine Bedingung an dieses Projekt gezählt wird. \
             Zusammengezählt sollten die Bedingungen einander widersprechen.",
        Sentence::NoWeights => "Das Zertifikat gibt keinem Projekt ein Gewicht.",
        Sentence::CoverWeight => "Gewicht größerer Budgets",
        Sentence::PaidAtLeast => "Nach Gewichten mindestens zu zahlen",
        Sentence::PaidAtMost => "Nach Gewichten höchstens zu zahlen",
        Sentence::Counts => "Was gezählt wird",
        Sentence::CountsLeast => "mindestens seine Kosten werden gezahlt",
        Sentence::CountsMost => "höchstens seine Kosten werden gezahlt",
        Sentence::CountsLeft => "den Unterstützenden bleiben höchstens seine Kosten",
        Sentence::Weight => "Gewicht",
        Sentence::Conditions => "Die Bedingungen im Einzelnen",
        Sentence::Tests => "Die Prüfungen im Einzelnen",
        Sentence::Holds => "erfüllt",
        Sentence::Fails => "verletzt",
        Sentence::NotAsked => "nicht geprüft",
        Sentence::TestHolds => "erfüllt",
        Sentence::TestFails => "nicht erfüllt",
        Sentence::NameFeasible => "Im Gesamtbudget",
        Sentence::NameExhaustive => "Nichts mehr bezahlbar",
        Sentence::NameCover => "Budgets über dem Gesamtbudget",
        Sentence::NameC1 => "Nur für Unterstütztes bezahlt",
        Sentence::NameC2 => "Im Budget jeder Person",
        Sentence::NameC3 => "Genau gedeckt",
        Sentence::NameC4 => "Nichts vergeblich bezahlt",
        Sentence::NameC5 => "Unterstützende haben nicht mehr übrig als die Kosten",
        Sentence::NameS5 => "Keine Gruppe hätte lieber ein anderes Projekt",
        Sentence::NameV1 => "Die Gruppe hat Mitglieder",
        Sentence::NameV2 => "Alle Mitglieder wollen dasselbe",
        Sentence::NameV3 => "Die Gruppe ist groß genug",
        Sentence::NameV4 => "Kein Mitglied bekommt so viel",
        Sentence::NameU1 => "Jedes Gewicht ist von der richtigen Art",
        Sentence::NameU2 => "Die Budgets decken, was gezählt wird",
        Sentence::NameU3 => "Die Summen widersprechen einander",
        Sentence::AsksFeasible =>
            "Die geförderten Projekte dürfen zusammen nicht mehr kosten als das Gesamtbudget. \
             Mehr, als da ist, kann niemand versprechen.",
        Sentence::AsksExhaustive =>
            "Kein anderes Projekt darf noch ins Gesamtbudget passen. Geld, das dafür reichte, soll \
             nicht brachliegen.",
        Sentence::AsksCover =>
            "Die Budgets aller Abstimmenden ergeben mehr als das Gesamtbudget, so dass jede Gruppe \
             mehr ausgeben kann als ihren Anteil daran.",
        Sentence::AsksC1 =>
            "Abstimmende zahlen nur für Projekte, für die sie gestimmt haben. Niemandes Geld darf \
             für etwas verwendet werden, was die Person nicht wollte.",
        Sentence::AsksC2 =>
            "Niemand gibt mehr aus als das Budget, das für alle gleich ist. Jede Person zählt so \
             viel wie jede andere.",
        Sentence::AsksC3 =>
            "Wer für ein gefördertes Projekt ist, trägt gemeinsam mit den anderen seine ganzen \
             Kosten, und nicht mehr.",
        Sentence::AsksC4 =>
            "Zahlungen für ein nicht gefördertes Projekt würden Mitsprache umsonst verbrauchen.",
        Sentence::AsksC5 =>
            "Die Unterstützenden eines nicht geförderten Projekts dürfen zusammen nicht mehr übrig \
             haben, als es kostet. Sonst hätten sie es bezahlen können und wurden übergangen.",
        Sentence::AsksS5 =>
            "Die Unterstützenden eines nicht geförderten Projekts dürfen nicht mehr bieten können, \
             als es kostet: jede Person aus dem, was sie übrig hat, oder durch Verzicht auf ein \
             gefördertes Projekt. Sonst hätten sie lieber dieses.",
        Sentence::AsksV1 => "Ohne Mitglied wird niemand schlecht behandelt.",
        Sentence::AsksV2 => "Eine Gruppe darf nur verlangen, was alle ihre Mitglieder wollen.",
        Sentence::AsksV3 =>
            "Der Anteil der Gruppe am Gesamtbudget, nach der Zahl ihrer Mitglieder, deckt, was sie \
             verlangt. Mehr, als ihr zusteht, darf sie nicht verlangen.",
        Sentence::AsksV4 =>
            "Jedes Mitglied bekommt von den geförderten Projekten weniger, als die verlangten wert \
             sind. Eine Gruppe, in der jemand so viel oder mehr bekommt, wurde gehört.",
        Sentence::AsksU1 =>
            "Bei einem geförderten Projekt darf gezählt werden, was dafür gezahlt wird, bei einem \
             anderen, was seine Unterstützenden übrig haben.",
        Sentence::AsksU2 =>
            "Das Budget einer Person darf so oft gezählt werden, wie bei den nicht geförderten \
             Projekten, für die sie ist, gezählt wird, was sie übrig hat, und nicht öfter.",
        Sentence::AsksU3 =>
            "Was mindestens zu zahlen ist, muss mehr sein, als höchstens gezahlt werden kann. Nur \
             dann gibt es keine solchen Preise.",
        Sentence::FoundFeasible =>
            "Die geförderten Projekte kosten zusammen {total}; das Gesamtbudget ist {limit}.",
        Sentence::BrokenFeasible =>
            "Die geförderten Projekte kosten zusammen {total}, und das ist mehr als das \
             Gesamtbudget von {limit}.",
        Sentence::FoundExhaustive =>
            "Vom Gesamtbudget bleibt ein Rest von {left}. Das billigste nicht geförderte Projekt, \
             {project}, kostet {cost}.",
        Sentence::NothingFits =>
            "Die geförderten Projekte allein kosten mehr als das Gesamtbudget, also passt kein \
             anderes hinein.",
        Sentence::BrokenExhaustive =>
            "Vom Gesamtbudget bleibt ein Rest von {left}, und Projekt {project} würde noch \
             hineinpassen: Es kostet {cost}.",
        Sentence::FoundCover =>
            "Die Budgets aller Abstimmenden ergeben zusammen {budgets}; das Gesamtbudget ist \
             {limit}.",
        Sentence::BrokenCover =>
            "Die Budgets aller Abstimmenden ergeben zusammen {budgets}, und das ist nicht mehr als \
             das Gesamtbudget von {limit}.",
        Sentence::FoundC1 =>
            "Niemand zahlt für ein Projekt, das nicht auf dem eigenen Stimmzettel steht.",
        Sentence::BrokenC1 =>
            "Person {voter} zahlt für Projekt {project}, das nicht auf ihrem Stimmzettel steht.",
        Sentence::FoundC2 =>
            "Am meisten gibt Person {voter} aus: {spent} von einem Budget von {budget}.",
        Sentence::BrokenC2 =>
            "Person {voter} gibt {spent} aus, und das ist um {over} mehr als das Budget von {budget}.",
        Sentence::NoVoters => "Es gibt keine Abstimmenden.",
        Sentence::FoundC3 => "Die Kosten jedes geförderten Projekts sind genau gedeckt.",
        Sentence::BrokenC3 =>
            "Projekt {project} kostet {cost}, und der dafür bezahlte Betrag ist {paid}.",
        Sentence::FoundC4 => "Für nicht geförderte Projekte wird nichts bezahlt.",
        Sentence::BrokenC4 =>
            "Projekt {project} wird nicht gefördert, und der dafür bezahlte Betrag ist {paid}.",
        Sentence::FoundC5 =>
            "Am nächsten kommt Projekt {project}: Seine Unterstützenden haben zusammen {left} \
             übrig, und es kostet {cost}.",
        Sentence::BrokenC5 =>
            "Die Unterstützenden von Projekt {project} haben zusammen {left} übrig, mehr als seine \
             Kosten von {cost}: Sie hätten es bezahlen können.",
        Sentence::FoundS5 =>
            "Am nächsten kommt Projekt {project}: Seine Unterstützenden könnten zusammen {offer} \
             bieten, und es kostet {cost}.",
        Sentence::BrokenS5 =>
            "Die Unterstützenden von Projekt {project} könnten zusammen {offer} bieten, jede \
             Person das, was sie übrig hat, oder ihre größte Zahlung für ein Projekt. Das ist mehr \
             als seine Kosten von {cost}.",
        Sentence::FoundV1 => "Mitglieder der Gruppe: {members}. Abstimmende insgesamt: {voters}.",
        Sentence::BrokenV1 => "Die Gruppe hat keine Mitglieder.",
        Sentence::FoundV2 => "Jedes Mitglied ist für jedes verlangte Projekt.",
        Sentence::BrokenV2 =>
            "Person {voter} gehört zur Gruppe und ist nicht für Projekt {project}, das die Gruppe \
             verlangt.",
        Sentence::FoundV3 =>
            "Der Anteil der Gruppe am Gesamtbudget ist {share}; die verlangten Projekte kosten \
             zusammen {cost}.",
        Sentence::BrokenV3 =>
            "Der Anteil der Gruppe am Gesamtbudget ist nur {share}, und die verlangten Projekte \
             kosten zusammen {cost}.",
        Sentence::FoundV4 =>
            "Kein Mitglied bekommt von den geförderten Projekten mehr als {gets}; die verlangten \
             sind zusammen {demanded} wert.",
        Sentence::BrokenV4 =>
            "Person {voter} gehört zur Gruppe und bekommt von den geförderten Projekten {gets}, \
             also so viel, wie die verlangten zusammen wert sind ({demanded}), oder mehr.",
        Sentence::FoundU1 => "Jede Zeile ist von einer Art, die zu ihrem Projekt passt.",
        Sentence::BrokenU1Funded =>
            "Projekt {project} ist gefördert, und seine Zeile zählt, was seine Unterstützenden \
             übrig haben.",
        Sentence::BrokenU1Unfunded =>
            "Projekt {project} ist nicht gefördert, und seine Zeile zählt, was dafür gezahlt wird.",
        Sentence::FoundU2 =>
            "Die Zahlungen zählen das Budget einer Person höchstens {counted} Mal, über alle \
             Abstimmenden; was sie übrig haben, zählt es {taken} Mal.",
        Sentence::BrokenU2 =>
            "Die Zahlungen können das Budget einer Person {counted} Mal zählen, über alle \
             Abstimmenden; was sie übrig haben, zählt es nur {taken} Mal.",
        Sentence::FoundU3 =>
            "Nach diesen Gewichten ist mindestens {least} zu zahlen, und höchstens {most} kann \
             gezahlt werden.",
        Sentence::FoundU3UnderCover =>
            "Nach diesen Gewichten ist mehr als {least} zu zahlen, wenn die Budgets mehr als das \
             Gesamtbudget ergeben, und höchstens {most} kann gezahlt werden.",
        Sentence::BrokenU3 =>
            "Nach diesen Gewichten ist mindestens {least} zu zahlen, und {most} kann gezahlt \
             werden: Das ist kein Widerspruch.",
        Sentence::OfStableWeights(sentence) => of_stable_weights(sentence),
        Sentence::NotSaid => "Was diese Seite nicht beantwortet",
        Sentence::NotSaidOthers =>
            "Ob andere Projekte ebenso gerecht gewesen wären. Oft lassen sich mehrere Ergebnisse \
             stützen.",
        Sentence::NotSaidDeserved =>
            "Ob jede Gruppe von Abstimmenden bekommt, was ihr zusteht. Eine andere Prüfung kann \
             immer noch zeigen, dass eine Gruppe weniger bekommt, als ihr zusteht.",
        Sentence::NotSaidGroups =>
            "Wie viel Gruppen von Abstimmenden für ihren Anteil am Gesamtbudget bekommen. Damit \
             sich das sagen lässt, müssen die Budgets aller Abstimmenden zusammen mindestens das \
             Gesamtbudget ergeben.",
        Sentence::NotSaidPayments =>
            "Ob das Ergebnis ungerecht ist. Dieses Nein gilt nur für diese Zahlungen, und andere \
             können dieselben Projekte stützen.",
        Sentence::NotSaidOutcome =>
            "Ob ein anderes Ergebnis alle Bedingungen erfüllen würde. Hier liegt es am Ergebnis \
             selbst, und keine Zahlungen ändern das.",
        Sentence::NotSaidGroup =>
            "Ob das Ergebnis allen Gruppen gerecht wird. Die Antwort gilt nur für diese Gruppe und \
             diese Forderung.",
        Sentence::NotSaidWhich => "Welche Projekte stattdessen hätten gefördert werden sollen.",
        Sentence::NotSaidUnfair =>
            "Ob eine bestimmte Gruppe schlecht behandelt wurde. Das zeigt nur ein Zertifikat über \
             eine Verletzung.",
        Sentence::NotSaidWeights =>
            "Ob es Preise gibt, die das Ergebnis stützen. Dieses Nein gilt nur für diese Gewichte, \
             und andere können es widerlegen.",
        Sentence::NotSaidFiles =>
            "Ob diese Dateien die sind, die die Gemeinde veröffentlicht hat. Vergleichen Sie ihre \
             Prüfsummen mit den veröffentlichten.",
        Sentence::Claim => "Was Sie öffentlich sagen können",
        Sentence::ClaimSupported =>
            "Es gibt Preise, die dieses Ergebnis stützen: Die Kosten jedes geförderten Projekts \
             sind von Abstimmenden, die dafür gestimmt haben, aus gleich großen Budgets genau \
             gedeckt, und keine Gruppe von Unterstützenden hat mehr übrig, als ein anderes Projekt \
             kostet.",
        Sentence::ClaimStable =>
            "Es gibt stabile Preise, die dieses Ergebnis stützen: Die Kosten jedes geförderten \
             Projekts sind von Abstimmenden, die dafür gestimmt haben, aus gleich großen Budgets \
             genau gedeckt, und keine Gruppe würde lieber für ein anderes Projekt zahlen.",
        Sentence::ClaimNotSupported =>
            "Diese Zahlungen stützen das Ergebnis nicht. Mehr lässt sich nicht sagen: Andere \
             können es stützen.",
        Sentence::ClaimPlain =>
            "Diese Preise stützen dieses Ergebnis in der einfachen Form, aber nicht in der \
             stabilen: Die Kosten jedes geförderten Projekts sind von Abstimmenden, die dafür \
             gestimmt haben, aus gleich großen Budgets genau gedeckt, und keine Gruppe von \
             Unterstützenden hat mehr übrig, als ein anderes Projekt kostet.",
        Sentence::ClaimOutcome =>
            "Das Ergebnis verletzt eine Bedingung, unabhängig von den Zahlungen.",
        Sentence::ClaimViolation =>
            "Das Ergebnis behandelt eine Gruppe von Abstimmenden schlechter, als ihr zusteht: Es \
             verletzt Extended Justified Representation (EJR).",
        Sentence::ClaimByCount => "Das gilt, wenn nach Projekten gezählt wird: Jedes ist 1 wert.",
        Sentence::ClaimByCost =>
            "Das gilt, wenn nach Kosten gezählt wird: Jedes Projekt ist wert, was es kostet.",
        Sentence::ClaimLittle =>
            "Die Budgets aller Abstimmenden zusammen sind kleiner als das Gesamtbudget, und ob ein \
             weiteres Projekt hineinpasst, wurde nicht geprüft.",
        Sentence::ClaimLess =>
            "Die Budgets aller Abstimmenden zusammen sind kleiner als das Gesamtbudget.",
        Sentence::ClaimNoViolation =>
            "Dieses Zertifikat zeigt keine Verletzung. Es zeigt nicht, dass es keine gibt.",
        Sentence::ClaimUnpriceable =>
            "Keine Preise stützen dieses Ergebnis, unabhängig davon, wie groß das gleiche Budget \
             der Abstimmenden ist und wie sie sich die Kosten der Projekte teilen, für die sie \
             gestimmt haben.",
        Sentence::ClaimUnpriceableUnderCover =>
            "Keine Preise stützen dieses Ergebnis, wenn die gleich großen Budgets der Abstimmenden \
             zusammen mehr als das Gesamtbudget ergeben.",
        Sentence::ClaimNotRefuted =>
            "Dieses Zertifikat beweist nicht, dass keine Preise das Ergebnis stützen. Mehr lässt \
             sich nicht sagen.",
        Sentence::ClaimHow =>
            "Nennen Sie die Dateien mit ihren Prüfsummen, damit es jeder nachprüfen kann.",
        Sentence::Words => "Begriffe auf dieser Seite",
        Sentence::WordCertificate => "Zertifikat",
        Sentence::MeansCertificate =>
            "Eine Datei, die die Gründe einer Antwort so nennt, dass sie jeder nachprüfen kann.",
        Sentence::WordPrices => "Preise",
        Sentence::MeansPrices =>
            "Ein gleich großes Budget für alle, und was jede Person für jedes Projekt zahlt. \
             Niemand zahlt wirklich: So lässt sich sagen, wer welche Kosten trägt.",
        Sentence::WordSupporter => "Unterstützende",
        Sentence::MeansSupporter => "Alle, auf deren Stimmzettel das Projekt steht.",
        Sentence::WordLeftover => "Übrig",
        Sentence::MeansLeftover => "Was vom Budget einer Person nach allen Zahlungen bleibt.",
        Sentence::WordOffer => "Angebot",
        Sentence::MeansOffer =>
            "Was eine Person übrig hat, oder ihre größte Zahlung für ein Projekt, je nachdem, was \
             mehr ist.",
        Sentence::WordShare => "Anteil",
        Sentence::MeansShare =>
            "Der Teil des Gesamtbudgets, der einer Gruppe nach der Zahl ihrer Mitglieder zukommt.",
        Sentence::WordDemand => "Forderung",
        Sentence::MeansDemand => "Die Projekte, die das Zertifikat für die Gruppe verlangt.",
        Sentence::WordWeight => "Gewicht",
        Sentence::MeansWeight => "Wie oft das Zertifikat eine Bedingung an ein Projekt zählt.",
        Sentence::Files => "Die Dateien, und wie Sie das nachprüfen",
        Sentence::ElectionFile => "Abstimmung",
        Sentence::OutcomeFile => "Ergebnis",
        Sentence::CertificateFile => "Zertifikat",
        Sentence::Bytes(Plural::One) => "{count} Byte",
        Sentence::Bytes(Plural::Few | Plural::Many) => "{count} Bytes",
        Sentence::CheckProgram => "Mit dem Programm pbaudit:",
        Sentence::CheckByHand =>
            "Mit dem Programm pbaudit: Geben Sie diese Dateien seinem Befehl explain. Er steht \
             hier nicht ausgeschrieben, weil der Name einer Datei zu lang ist, Zeichen hat, die \
             ein Befehl nicht zeigen kann, oder auch der einer anderen ist.",
        Sentence::CheckOptions => "Seine Optionen: {options}.",
        Sentence::CheckAnswer => "Es antwortet:",
        Sentence::CheckBrowser =>
            "Im Browser: Öffnen Sie pbaudit.html, und geben Sie der Seite diese Dateien. Sie verlassen \
             Ihren Rechner nicht.",
        Sentence::Trust =>
            "Wer diese Seite ändert, kann sie alles sagen lassen. Trauen Sie den Dateien und dem \
             Programm, nicht der Seite.",
        Sentence::MadeBy => "Erstellt von pbaudit {version}.",
        Sentence::OfShortGroups(sentence) => short_groups::de::wording(sentence),
    }
}

// What a sentence on weights says where it speaks of stable prices.
fn of_stable_weights(sentence: StableWeights) -> &'static str {
    match sentence {
        StableWeights::WhyUnpriceable =>
            "In der stabilen Form kann jede Person für ein anderes Projekt bieten, was sie übrig \
             hat, oder ihre größte Zahlung für ein gefördertes, je nachdem, was mehr ist. Wie groß \
             das gleiche Budget aller Abstimmenden auch wäre und wie sie sich die Kosten der \
             Projekte, für die sie gestimmt haben, auch teilten: Eine Bedingung an solche Preise \
             wäre verletzt. Die Gewichte dieses Zertifikats beweisen es.",
        StableWeights::WhyUnpriceableUnderCover =>
            "In der stabilen Form kann jede Person für ein anderes Projekt bieten, was sie übrig \
             hat, oder ihre größte Zahlung für ein gefördertes, je nachdem, was mehr ist. Wie sich \
             die Abstimmenden die Kosten der Projekte, für die sie gestimmt haben, auch teilten: \
             Eine Bedingung an solche Preise wäre verletzt, wenn ihre gleich großen Budgets \
             zusammen mehr als das Gesamtbudget ergeben. Die Gewichte dieses Zertifikats beweisen \
             es. Über kleinere Budgets sagen sie nichts.",
        StableWeights::Asked =>
            "Geprüft wurde: Beweisen die Gewichte, dass keine stabilen Preise dieses Ergebnis \
             stützen?",
        StableWeights::AskedUnderCover =>
            "Geprüft wurde: Beweisen die Gewichte, dass keine stabilen Preise mit Budgets über dem \
             Gesamtbudget dieses Ergebnis stützen?",
        StableWeights::OfAllPrices =>
            "Sie beweisen es für alle Preise, auch in der einfachen Form, die weniger verlangt.",
        StableWeights::CountsOffer => "seine Unterstützenden können höchstens seine Kosten bieten",
        StableWeights::AsksU1 =>
            "Bei einem geförderten Projekt darf gezählt werden, was dafür gezahlt wird, bei einem \
             anderen, was seine Unterstützenden bieten können.",
        StableWeights::AsksU2 =>
            "Das Budget einer Person darf so oft gezählt werden, wie bei den nicht geförderten \
             Projekten, für die sie ist, gezählt wird, was sie bieten kann, und nicht öfter. Keine \
             Zahlung ist größer als dieses Angebot, also gleichen Angebote einen Teil dessen aus, \
             was Zahlungen zählen.",
        StableWeights::BrokenU1Funded =>
            "Projekt {project} ist gefördert, und seine Zeile zählt, was seine Unterstützenden \
             bieten können.",
        StableWeights::FoundU2 =>
            "Abgesehen von dem, was Angebote ausgleichen, zählen die Zahlungen das Budget einer \
             Person höchstens {counted} Mal, über alle Abstimmenden; was sie bieten können, zählt \
             es {taken} Mal.",
        StableWeights::BrokenU2 =>
            "Auch abgesehen von dem, was Angebote ausgleichen, können die Zahlungen das Budget \
             einer Person {counted} Mal zählen, über alle Abstimmenden; was sie bieten können, \
             zählt es nur {taken} Mal.",
        StableWeights::NotSaidPlain =>
            "Ob es Preise gibt, die das Ergebnis in der einfachen Form stützen. Diese verlangt \
             weniger, also kann es trotzdem welche geben.",
        StableWeights::NotSaidWeights =>
            "Ob es stabile Preise gibt, die das Ergebnis stützen. Dieses Nein gilt nur für diese \
             Gewichte, und andere können es widerlegen.",
        StableWeights::ClaimUnpriceable =>
            "Keine stabilen Preise stützen dieses Ergebnis: Welches gleich große Budget die \
             Abstimmenden auch bekommen und wie sie sich die Kosten der Projekte, für die sie \
             gestimmt haben, auch teilen, immer würde eine Gruppe lieber für ein anderes Projekt \
             zahlen.",
        StableWeights::ClaimUnpriceableUnderCover =>
            "Keine stabilen Preise stützen dieses Ergebnis, wenn die gleich großen Budgets der \
             Abstimmenden zusammen mehr als das Gesamtbudget ergeben.",
        StableWeights::ClaimNotRefuted =>
            "Dieses Zertifikat beweist nicht, dass keine stabilen Preise das Ergebnis stützen. \
             Mehr lässt sich nicht sagen.",
    }
}
