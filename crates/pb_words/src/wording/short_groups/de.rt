//! The sentences on groups that fall short in German.
use crate::sentence::Plural;
use crate::short_groups::ShortGroups;

/// What a sentence says.
pub fn wording(sentence: ShortGroups) -> &'static str {
    match sentence {
        ShortGroups::NoneByCost =>
            "Nehmen Sie beliebige Abstimmende, die alle für dasselbe nicht geförderte Projekt \
             gestimmt haben. Teilt man das Gesamtbudget gleichmäßig auf alle Abstimmenden auf, ist \
             ihr Anteil kleiner als die Kosten dieses Projekts plus die Kosten der geförderten \
             Projekte, für die mindestens eine dieser Personen selbst gestimmt hat.",
        ShortGroups::NoneByCount =>
            "Nehmen Sie beliebige Abstimmende, die alle für dasselbe nicht geförderte Projekt \
             gestimmt haben. Teilt man das Gesamtbudget gleichmäßig auf alle Abstimmenden auf, ist \
             ihr Anteil bei mindestens einer dieser Personen kleiner als die Kosten dieses \
             Projekts mal der um eins erhöhten Zahl der geförderten Projekte, für die sie selbst \
             gestimmt hat.",
        ShortGroups::NobodyWantsMore =>
            "Für kein nicht gefördertes Projekt hat jemand gestimmt, also kann keine Gruppe zu \
             kurz kommen.",
        ShortGroups::SomeByCost =>
            "{count} von {all}, die Projekt {project} wollen: Teilt man das Gesamtbudget \
             gleichmäßig auf, ist ihr Anteil {share}. Das Projekt kostet {cost}; bei niemandem von \
             ihnen kosten die geförderten Projekte auf dem eigenen Stimmzettel mehr als {most}. \
             {cost} + {most} = {need} ist nicht mehr als {share}.",
        ShortGroups::SomeByCount =>
            "{count} von {all}, die Projekt {project} wollen: Teilt man das Gesamtbudget \
             gleichmäßig auf, ist ihr Anteil {share}. Das Projekt kostet {cost}; bei niemandem von \
             ihnen stehen mehr als {most} der geförderten Projekte auf dem eigenen Stimmzettel. \
             {cost} × ({most} + 1) = {need} ist nicht mehr als {share}.",
        ShortGroups::Closest =>
            "Am nächsten kommt Projekt {project}: Für {count} von {all}, die es wollen, ist der \
             gleiche Anteil am Gesamtbudget zusammen {share}, und nötig wären {need}.",
        ShortGroups::BeyondLimit =>
            "Die geförderten Projekte kosten {amount} mehr als das Gesamtbudget. Fördert man \
             weitere Projekte, schneidet ein Ergebnis bei dieser Frage nie schlechter ab.",
        ShortGroups::AskedByCost =>
            "Gezählt wird nach Kosten: Eine Person bekommt so viel, wie die geförderten Projekte \
             auf ihrem eigenen Stimmzettel kosten.",
        ShortGroups::AskedByCount =>
            "Gezählt werden Projekte: Eine Person bekommt so viele, wie auf ihrem eigenen \
             Stimmzettel gefördert werden.",
        ShortGroups::HowTable =>
            "Für jedes nicht geförderte Projekt: die größte Gruppe, die zu kurz kommt, oder sonst \
             die, deren Anteil am Gesamtbudget am meisten von dem deckt, was nötig wäre. Der \
             Balken zeigt diesen Anteil und der Strich, was nötig wäre. Wo ein Balken den Strich \
             erreicht, kommt die Gruppe zu kurz.",
        ShortGroups::Group => "Gruppe",
        ShortGroups::Part => "Ihr Anteil am Gesamtbudget",
        ShortGroups::Need => "Nötig wären",
        ShortGroups::PartAgainstNeed => "Anteil gemessen an dem, was nötig wäre",
        ShortGroups::LabelPartAgainstNeed =>
            "{project}: ein Anteil von {share}, und nötig wären {need}",
        ShortGroups::FallsShort => "kommt zu kurz",
        ShortGroups::NobodyWants(Plural::One) =>
            "Für {count} nicht gefördertes Projekt hat niemand gestimmt.",
        ShortGroups::NobodyWants(Plural::Few | Plural::Many) =>
            "Für {count} nicht geförderte Projekte hat niemand gestimmt.",
        ShortGroups::NotSaidRoom =>
            "Ob jede Gruppe von Abstimmenden bekommt, was ihr zusteht. Diese Frage lässt Spielraum \
             für ein Projekt; eine andere Prüfung kann also immer noch zeigen, dass eine Gruppe \
             weniger bekommt, als ihr zusteht.",
        ShortGroups::NotSaidLimit =>
            "Ob das Ergebnis das Gesamtbudget einhält. Fördert man weitere Projekte, schneidet ein \
             Ergebnis bei dieser Frage nie schlechter ab.",
        ShortGroups::NotSaidLittle =>
            "Viel, wenn wenig gefördert wird: Dann kostet ein Projekt allein oft schon mehr als \
             der Anteil derer, die es wollen.",
        ShortGroups::NotSaidAdded =>
            "Dass man das Projekt einfach hinzunehmen könnte. Innerhalb des Gesamtbudgets müsste \
             vielleicht ein anderes weichen.",
        ShortGroups::NotSaidPrices =>
            "Ob Preise das Ergebnis stützen. Dafür braucht es ein Preiszertifikat.",
        ShortGroups::ClaimNoneByCost =>
            "Keine Gruppe von Abstimmenden kommt nach Kosten zu kurz: Das Ergebnis erfüllt \
             Extended Justified Representation bis auf ein Projekt (EJR+) nach Kosten.",
        ShortGroups::ClaimNoneByCount =>
            "Keine Gruppe von Abstimmenden kommt nach der Zahl der Projekte zu kurz: Das Ergebnis \
             erfüllt Extended Justified Representation bis auf ein Projekt (EJR+) nach der Zahl \
             der Projekte.",
        ShortGroups::ClaimSomeByCost =>
            "Eine Gruppe von Abstimmenden kommt nach Kosten zu kurz: Das Ergebnis verletzt \
             Extended Justified Representation bis auf ein Projekt (EJR+) nach Kosten.",
        ShortGroups::ClaimSomeByCount =>
            "Eine Gruppe von Abstimmenden kommt nach der Zahl der Projekte zu kurz: Das Ergebnis \
             verletzt Extended Justified Representation bis auf ein Projekt (EJR+) nach der Zahl \
             der Projekte.",
        ShortGroups::WordShort => "Zu kurz kommen",
        ShortGroups::MeansShort =>
            "Von einer Gruppe: Alle ihre Mitglieder haben für ein nicht gefördertes Projekt \
             gestimmt, und ihr Anteil am Gesamtbudget hätte dafür gereicht, noch zusätzlich zu \
             dem, was jedes einzelne Mitglied bekommt.",
        ShortGroups::MeansShortByCount =>
            "Von einer Gruppe: Alle ihre Mitglieder haben für ein nicht gefördertes Projekt \
             gestimmt, und bei jedem einzelnen Mitglied reicht ihr Anteil am Gesamtbudget für die \
             Kosten dieses Projekts mal der um eins erhöhten Zahl der geförderten Projekte, für \
             die es selbst gestimmt hat.",
        ShortGroups::WordPart => "Anteil am Gesamtbudget",
        ShortGroups::MeansPart =>
            "Das Gesamtbudget, gleichmäßig auf alle Abstimmenden aufgeteilt, mal der Zahl der \
             Mitglieder der Gruppe.",
        ShortGroups::WordEjrPlus => "EJR+",
        ShortGroups::MeansEjrPlus =>
            "Ein Begriff von Fairness nach Brill und Peters (2023), hier für Projekte mit Kosten \
             und bis auf ein Projekt: Keine Gruppe von Abstimmenden kommt zu kurz.",
    }
}
