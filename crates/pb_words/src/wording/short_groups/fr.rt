//! The sentences on groups that fall short in French.
use crate::sentence::Plural;
use crate::short_groups::ShortGroups;

/// What a sentence says.
pub fn wording(sentence: ShortGroups) -> &'static str {
    match sentence {
        ShortGroups::NoneByCost =>
            "Prenez des votants quelconques qui ont tous voté pour un même projet non financé. \
             Leur part de l’enveloppe, partagée également entre tous les votants, est inférieure \
             au coût de ce projet augmenté du coût des projets financés qui figurent sur le \
             bulletin d’au moins l’un d’eux.",
        ShortGroups::NoneByCount =>
            "Prenez des votants quelconques qui ont tous voté pour un même projet non financé. \
             Leur part de l’enveloppe, partagée également entre tous les votants, est inférieure \
             au coût de ce projet multiplié par un de plus que le nombre de projets financés qui \
             figurent sur le bulletin d’au moins l’un d’eux.",
        ShortGroups::NobodyWantsMore =>
            "Personne n’a voté pour un projet non financé\u{a0}: aucun groupe ne peut donc être \
             laissé pour compte.",
        ShortGroups::SomeByCost =>
            "{count} des {all} votants qui veulent le projet {project}\u{a0}: leur part égale de \
             l’enveloppe est de {share}. Le projet coûte {cost}\u{202f}; sur le bulletin d’aucun \
             d’entre eux les projets financés ne coûtent plus de {most}. {cost} + {most} = {need} \
             ne dépasse pas {share}.",
        ShortGroups::SomeByCount =>
            "{count} des {all} votants qui veulent le projet {project}\u{a0}: leur part égale de \
             l’enveloppe est de {share}. Le projet coûte {cost}\u{202f}; sur le bulletin d’aucun \
             d’entre eux ne figurent plus de {most} des projets financés. {cost} × ({most} + 1) = \
             {need} ne dépasse pas {share}.",
        ShortGroups::Closest =>
            "Le projet {project} en est le plus proche\u{a0}: pour {count} des {all} votants qui \
             le veulent, la part égale de l’enveloppe est de {share}, et il faudrait {need}.",
        ShortGroups::BeyondLimit =>
            "Les projets financés coûtent {amount} de plus que l’enveloppe. Financer des projets \
             de plus ne rend jamais un résultat moins bon pour cette question.",
        ShortGroups::AskedByCost =>
            "On compte les coûts\u{a0}: un votant obtient ce que coûtent les projets financés de \
             son bulletin.",
        ShortGroups::AskedByCount =>
            "On compte les projets\u{a0}: un votant obtient autant de projets que son bulletin en \
             a de financés.",
        ShortGroups::HowTable =>
            "Pour chaque projet non financé\u{a0}: le plus grand groupe laissé pour compte, ou \
             sinon celui dont la part de l’enveloppe couvre le plus de ce qu’il faudrait. La barre \
             est cette part, et le trait ce qu’il faudrait. Si une barre atteint le trait, le \
             groupe est laissé pour compte.",
        ShortGroups::Group => "Groupe",
        ShortGroups::Part => "Sa part de l’enveloppe",
        ShortGroups::Need => "Il faudrait",
        ShortGroups::PartAgainstNeed => "Part face à ce qu’il faudrait",
        ShortGroups::LabelPartAgainstNeed =>
            "{project}\u{a0}: une part de {share}, et il faudrait {need}",
        ShortGroups::FallsShort => "laissé pour compte",
        ShortGroups::NobodyWants(Plural::One) => "{count} projet non financé n’a reçu aucun vote.",
        ShortGroups::NobodyWants(Plural::Few | Plural::Many) =>
            "{count} projets non financés n’ont reçu aucun vote.",
        ShortGroups::NotSaidRoom =>
            "Que chaque groupe de votants a reçu ce qu’il mérite. Cette question laisse une marge \
             d’un projet\u{a0}: un autre test peut encore montrer qu’un groupe a reçu moins que ce \
             qu’il mérite.",
        ShortGroups::NotSaidLimit =>
            "Que le résultat respecte l’enveloppe. Financer des projets de plus ne rend jamais un \
             résultat moins bon pour cette question.",
        ShortGroups::NotSaidLittle =>
            "Grand-chose, si peu a été financé\u{a0}: souvent, un projet coûte alors à lui seul \
             plus que la part de ceux qui le veulent.",
        ShortGroups::NotSaidAdded =>
            "Que le projet pourrait simplement être ajouté. Dans l’enveloppe, un autre devrait \
             peut-être céder sa place.",
        ShortGroups::NotSaidPrices =>
            "Si des prix soutiennent le résultat. Il faut pour cela un certificat de prix.",
        ShortGroups::ClaimNoneByCost =>
            "Aucun groupe de votants n’est laissé pour compte selon les coûts\u{a0}: le résultat \
             respecte la représentation justifiée étendue, à un projet près (EJR+), selon les \
             coûts.",
        ShortGroups::ClaimNoneByCount =>
            "Aucun groupe de votants n’est laissé pour compte selon le nombre de projets\u{a0}: le \
             résultat respecte la représentation justifiée étendue, à un projet près (EJR+), selon \
             le nombre de projets.",
        ShortGroups::ClaimSomeByCost =>
            "Un groupe de votants est laissé pour compte selon les coûts\u{a0}: le résultat ne \
             respecte pas la représentation justifiée étendue, à un projet près (EJR+), selon les \
             coûts.",
        ShortGroups::ClaimSomeByCount =>
            "Un groupe de votants est laissé pour compte selon le nombre de projets\u{a0}: le \
             résultat ne respecte pas la représentation justifiée étendue, à un projet près \
             (EJR+), selon le nombre de projets.",
        ShortGroups::WordShort => "Laissé pour compte",
        ShortGroups::MeansShort =>
            "D’un groupe\u{a0}: tous ses membres ont voté pour un projet non financé, et leur part \
             de l’enveloppe aurait suffi pour lui, en plus de ce qu’a obtenu n’importe lequel \
             d’entre eux.",
        ShortGroups::MeansShortByCount =>
            "D’un groupe\u{a0}: tous ses membres ont voté pour un projet non financé, et leur part \
             de l’enveloppe atteint au moins le coût de ce projet multiplié par un de plus que le \
             nombre de projets financés qui figurent sur le bulletin de n’importe lequel d’entre \
             eux.",
        ShortGroups::WordPart => "Part de l’enveloppe",
        ShortGroups::MeansPart =>
            "L’enveloppe partagée également entre tous les votants, multipliée par le nombre des \
             membres du groupe.",
        ShortGroups::WordEjrPlus => "EJR+",
        ShortGroups::MeansEjrPlus =>
            "Une notion d’équité de Brill et Peters (2023), ici pour des projets qui ont un coût \
             et à un projet près\u{a0}: aucun groupe de votants n’est laissé pour compte.",
    }
}
