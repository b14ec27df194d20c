//! The sentences in French.
use crate::sentence::{Plural, Sentence, StableWeights};
use crate::wording::short_groups;

/// What a sentence says.
pub fn wording(sentence: Sentence) -> &'static str {
    match sentence {
        Sentence::Kicker => "Budget participatif\u{a0}: vérification du résultat",
        Sentence::Place => "Lieu",
        Sentence::VotingDates => "Scrutin",
        Sentence::FromTo => "du {begin} au {end}",
        Sentence::Rule => "Méthode de sélection",
        Sentence::Voters => "Votants",
        Sentence::Turnout => "Participation",
        Sentence::Currency => "Montants en",
        Sentence::WhySupported =>
            "Chaque projet financé est payé exactement par des votants qui l’approuvent, sur des \
             budgets égaux. Aux soutiens d’aucun autre projet il ne reste ensemble plus que son \
             coût.",
        Sentence::WhyStable =>
            "Chaque projet financé est payé exactement par des votants qui l’approuvent, sur des \
             budgets égaux. Les soutiens d’aucun autre projet ne pourraient offrir plus que son \
             coût, même si chacun renonçait pour lui à un projet financé.",
        Sentence::WhyViolation =>
            "Tous ses membres approuvent les projets qu’il demande, et sa part de l’enveloppe \
             suffirait à les payer. Pourtant, ce que chaque membre obtient grâce aux projets \
             financés vaut moins que les projets demandés.",
        Sentence::WhyUnpriceable =>
            "Quel que soit le budget égal des votants, et de quelque façon qu’ils se partagent les \
             coûts des projets qu’ils approuvent, une condition sur les prix ne serait pas \
             remplie, sous la forme simple comme sous la forme stable. Les poids de ce certificat \
             le prouvent.",
        Sentence::WhyUnpriceableUnderCover =>
            "De quelque façon que les votants se partagent les coûts des projets qu’ils \
             approuvent, une condition sur les prix ne serait pas remplie, sous la forme simple \
             comme sous la forme stable, si leurs budgets égaux font ensemble plus que \
             l’enveloppe. Les poids de ce certificat le prouvent. De budgets plus petits, ils ne \
             disent rien.",
        Sentence::SaysLittle =>
            "Mais ce oui dit peu\u{a0}: les budgets de tous les votants font ensemble {budgets}, \
             moins que l’enveloppe de {limit}. Chaque groupe a donc moins à dépenser que sa part \
             de l’enveloppe, et on n’a pas demandé si un projet de plus y tient.",
        Sentence::SaysLess =>
            "Mais ce oui dit moins qu’il ne pourrait\u{a0}: les budgets de tous les votants font \
             ensemble {budgets}, moins que l’enveloppe de {limit}. Chaque groupe a donc moins à \
             dépenser que sa part de l’enveloppe.",
        Sentence::GroupsWithinReach =>
            "Prenez des votants quelconques qui ont tous voté pour un même projet non financé. \
             Leur part de l’enveloppe, partagée également entre tous les votants, ne dépasse pas \
             le coût de ce projet augmenté du coût de tous les projets financés pour lesquels au \
             moins l’un d’eux a voté.",
        Sentence::GroupsBelowReach =>
            "Prenez des votants quelconques qui ont tous voté pour un même projet non financé. \
             Leur part de l’enveloppe, partagée également entre tous les votants, est inférieure \
             au coût de ce projet augmenté du coût de tous les projets financés pour lesquels au \
             moins l’un d’eux a voté.",
        Sentence::NearestGroup(Plural::One) =>
            "Le projet {project} en est le plus proche\u{a0}: la part de son {count} soutien est \
             de {share}. Il coûte {cost}, et {funded} ont été financés pour ce votant.",
        Sentence::NearestGroup(Plural::Few | Plural::Many) =>
            "Le projet {project} en est le plus proche\u{a0}: la part de ses {count} soutiens est \
             de {share}. Il coûte {cost}, et {funded} ont été financés pour au moins l’un d’eux.",
        Sentence::AskedPlain =>
            "Question posée sous la forme simple\u{a0}: reste-t-il ensemble aux soutiens d’un \
             autre projet plus que son coût\u{202f}?",
        Sentence::AskedStable =>
            "Question posée sous la forme stable\u{a0}: les soutiens d’un autre projet \
             pourraient-ils offrir ensemble plus que son coût, si chacun peut aussi renoncer pour \
             lui à un projet financé\u{202f}?",
        Sentence::AskedExhaustive =>
            "Autre question\u{a0}: un projet de plus tient-il dans l’enveloppe\u{202f}?",
        Sentence::UnaskedExhaustive =>
            "Question non posée\u{a0}: un projet de plus tient-il dans l’enveloppe\u{202f}?",
        Sentence::AskedCover =>
            "Autre question\u{a0}: les budgets de tous les votants dépassent-ils ensemble \
             l’enveloppe\u{202f}?",
        Sentence::UnaskedCover =>
            "Question non posée\u{a0}: les budgets de tous les votants dépassent-ils ensemble \
             l’enveloppe\u{202f}?",
        Sentence::AskedByCount => "On compte les projets\u{a0}: chacun vaut 1.",
        Sentence::AskedByCost => "On compte les coûts\u{a0}: chaque projet vaut ce qu’il coûte.",
        Sentence::AskedRefutation =>
            "Question\u{a0}: les poids prouvent-ils qu’aucun prix ne soutient ce résultat\u{202f}?",
        Sentence::AskedRefutationUnderCover =>
            "Question\u{a0}: les poids prouvent-ils qu’aucun prix dont les budgets dépassent \
             l’enveloppe ne soutient ce résultat\u{202f}?",
        Sentence::StableToo => "Sous la forme stable, plus exigeante, la réponse serait oui aussi.",
        Sentence::NotStable(Plural::One) =>
            "Sous la forme stable, plus exigeante, la réponse serait non\u{a0}: pour {count} \
             projet, les soutiens pourraient offrir plus que son coût.",
        Sentence::NotStable(Plural::Few | Plural::Many) =>
            "Sous la forme stable, plus exigeante, la réponse serait non\u{a0}: pour {count} \
             projets, les soutiens pourraient offrir plus que le coût du projet.",
        Sentence::PlainHolds =>
            "La forme simple, moins exigeante, est respectée\u{a0}: sous elle, la réponse serait \
             oui.",
        Sentence::AtProjects(Plural::One) => "C’est le cas de {count} projet.",
        Sentence::AtProjects(Plural::Few | Plural::Many) => "C’est le cas de {count} projets.",
        Sentence::AtVoters(Plural::One) => "C’est le cas de {count} votant.",
        Sentence::AtVoters(Plural::Few | Plural::Many) => "C’est le cas de {count} votants.",
        Sentence::AtPayments(Plural::One) => "Il y a {count} paiement de ce type.",
        Sentence::AtPayments(Plural::Few | Plural::Many) => "Il y a {count} paiements de ce type.",
        Sentence::AtApprovals(Plural::One) =>
            "Il y a {count} paire de ce type, d’un membre et d’un projet.",
        Sentence::AtApprovals(Plural::Few | Plural::Many) =>
            "Il y a {count} paires de ce type, d’un membre et d’un projet.",
        Sentence::LargestAt =>
            "L’écart est le plus grand pour le projet {project}\u{a0}: {amount}.",
        Sentence::LargestHere => "C’est là que l’écart est le plus grand\u{a0}: {amount}.",
        Sentence::AmountAt =>
            "Le montant est le plus grand pour le projet {project}\u{a0}: {amount}.",
        Sentence::AmountHere => "C’est là que le montant est le plus grand.",
        Sentence::DearestAt =>
            "Le plus cher d’entre eux est le projet {project}, qui coûte {amount}.",
        Sentence::DearestHere => "Le plus cher d’entre eux est celui qui est nommé ici.",
        Sentence::PaymentAt =>
            "Le plus grand est celui du votant {voter} pour le projet {project}\u{a0}: {amount}.",
        Sentence::PaymentHere => "Le plus grand est celui qui est nommé ici\u{a0}: {amount}.",
        Sentence::SpenderHere => "Aucun autre votant ne dépense plus.",
        Sentence::VoterRow => "{voter} (ligne {voter} de VOTES)",
        Sentence::OverBy => "{amount} de plus",
        Sentence::UnderBy => "{amount} de moins",
        Sentence::JustTheCost => "exactement le coût",
        Sentence::Glance => "En un coup d’œil",
        Sentence::ProjectsFunded => "Projets financés",
        Sentence::SomeOfAll => "{count} sur {all}",
        Sentence::Limit => "Enveloppe",
        Sentence::VoterBudget => "Budget de chaque votant",
        Sentence::OfTheLimit => "Enveloppe de {limit}",
        Sentence::LimitFunded => "{amount} pour les projets financés",
        Sentence::LimitLeft => "reste\u{a0}: {amount}",
        Sentence::LimitOver => "{amount} au-delà de l’enveloppe",
        Sentence::OfTheBudgets => "Budgets de tous les votants, {budgets} au total",
        Sentence::BudgetsSpent => "{amount} de dépenses",
        Sentence::BudgetsLeft => "reste\u{a0}: {amount}",
        Sentence::BudgetsOver => "{amount} au-delà des budgets",
        Sentence::Unfunded => "Projets non financés",
        Sentence::Funded => "Projets financés",
        Sentence::AllFunded => "Tous les projets sont financés.",
        Sentence::NoneFunded => "Aucun projet n’est financé.",
        Sentence::NoProjects => "Le vote n’a pas de projets.",
        Sentence::HowUnfunded =>
            "La barre est ce qui reste ensemble aux soutiens d’un projet, et le trait ce que le \
             projet coûte. Une barre qui dépasse le trait viole la condition.",
        Sentence::HowUnfundedStable =>
            "La barre est ce que les soutiens d’un projet pourraient offrir ensemble, et le trait \
             ce que le projet coûte. Une barre qui dépasse le trait viole la condition.",
        Sentence::HowFunded => "La barre est la part de l’enveloppe que prend un projet.",
        Sentence::Order => "Ordre",
        Sentence::OrderClosest => "les plus proches d’abord",
        Sentence::OrderDearest => "les plus chers d’abord",
        Sentence::OrderSupporters => "les plus soutenus d’abord",
        Sentence::OnlyClosest =>
            "Seuls les {count} projets les plus proches figurent ici, quel que soit l’ordre choisi.",
        Sentence::Project => "Projet",
        Sentence::ProjectId => "projet {id}",
        Sentence::Cost => "Coût",
        Sentence::Supporters => "Soutiens",
        Sentence::HaveLeft => "Il leur reste",
        Sentence::CanOffer => "Ils pourraient offrir",
        Sentence::AgainstCost => "Face au coût",
        Sentence::CostPerSupporter => "Coût par soutien",
        Sentence::PartOfLimit => "Part de l’enveloppe",
        Sentence::MoreThanWhole => "plus que la totalité",
        Sentence::PaidExactly => "payé exactement",
        Sentence::PaidOver => "payé {paid}, soit {amount} de trop",
        Sentence::PaidUnder => "payé {paid}, soit {amount} de moins",
        Sentence::PaidInVain => "payé {paid} en vain",
        Sentence::LabelLeft =>
            "{project}\u{a0}: il reste {amount} aux soutiens, et le coût est de {cost}",
        Sentence::LabelOffer =>
            "{project}\u{a0}: les soutiens pourraient offrir {amount}, et le coût est de {cost}",
        Sentence::LabelPart => "{project}\u{a0}: {part} sur {whole}",
        Sentence::LeftOut(Plural::One) =>
            "{count} autre projet est omis ici, pour qu’un navigateur puisse afficher la page.",
        Sentence::LeftOut(Plural::Few | Plural::Many) =>
            "{count} autres projets sont omis ici, pour qu’un navigateur puisse afficher la page.",
        Sentence::Group => "Le groupe",
        Sentence::Members => "Membres",
        Sentence::GroupShare => "Sa part de l’enveloppe",
        Sentence::DemandCost => "Coût de ce qu’il demande",
        Sentence::BarShare =>
            "La part de l’enveloppe due au groupe\u{202f}; le trait est le coût des projets \
             demandés.",
        Sentence::BarGets =>
            "Ce qu’un membre obtient au plus grâce aux projets financés\u{202f}; le trait est la \
             valeur des projets demandés.",
        Sentence::BarEnough =>
            "Ce que le votant {voter} obtient grâce aux projets financés\u{202f}; le trait est la \
             valeur des projets demandés.",
        Sentence::AmountOfAmount => "{amount} face à {bound}",
        Sentence::Demand => "Ce que le groupe demande",
        Sentence::NoDemand => "Le groupe ne demande rien.",
        Sentence::State => "Résultat",
        Sentence::IsFunded => "financé",
        Sentence::IsUnfunded => "non financé",
        Sentence::PartOfShare => "Part de ce qui revient au groupe",
        Sentence::Weights => "Les poids",
        Sentence::HowWeights =>
            "Chaque poids dit combien de fois une condition sur ce projet est comptée. \
             Additionnées, les conditions se contredisent.",
        Sentence::HowWeightsFail =>
            "Chaque poids dit combien de fois une condition sur ce projet est comptée. \
             Additionnées, les conditions devaient se contredire.",
        Sentence::NoWeights => "Le certificat ne donne de poids à aucun projet.",
        Sentence::CoverWeight => "Poids de budgets plus grands",
        Sentence::PaidAtLeast => "Selon les poids, à payer au moins",
        Sentence::PaidAtMost => "Selon les poids, à payer au plus",
        Sentence::Counts => "Ce qui est compté",
        Sentence::CountsLeast => "au moins son coût est payé",
        Sentence::CountsMost => "au plus son coût est payé",
        Sentence::CountsLeft => "il reste à ses soutiens au plus son coût",
        Sentence::Weight => "Poids",
        Sentence::Conditions => "Les conditions, une à une",
        Sentence::Tests => "Les tests, un à un",
        Sentence::Holds => "respectée",
        Sentence::Fails => "violée",
        Sentence::NotAsked => "non demandée",
        Sentence::TestHolds => "respecté",
        Sentence::TestFails => "violé",
        Sentence::NameFeasible => "Dans l’enveloppe",
        Sentence::NameExhaustive => "Plus rien d’abordable",
        Sentence::NameCover => "Budgets au-delà de l’enveloppe",
        Sentence::NameC1 => "Payé seulement pour des projets approuvés",
        Sentence::NameC2 => "Dans le budget de chaque votant",
        Sentence::NameC3 => "Payés exactement",
        Sentence::NameC4 => "Rien n’est payé en vain",
        Sentence::NameC5 => "Aux soutiens il ne reste pas plus que le coût",
        Sentence::NameS5 => "Aucun groupe ne préférerait un autre projet",
        Sentence::NameV1 => "Le groupe a des membres",
        Sentence::NameV2 => "Tous les membres veulent la même chose",
        Sentence::NameV3 => "Le groupe est assez grand",
        Sentence::NameV4 => "Personne n’y obtient autant",
        Sentence::NameU1 => "Chaque poids est du bon genre",
        Sentence::NameU2 => "Les budgets couvrent ce qui est compté",
        Sentence::NameU3 => "Les sommes se contredisent",
        Sentence::AsksFeasible =>
            "Les projets financés ne peuvent coûter ensemble plus que l’enveloppe. On ne peut \
             promettre plus que ce qu’il y a.",
        Sentence::AsksExhaustive =>
            "Aucun autre projet ne doit encore tenir dans l’enveloppe. L’argent qui suffirait à le \
             payer ne doit pas dormir.",
        Sentence::AsksCover =>
            "Les budgets de tous les votants dépassent ensemble l’enveloppe, si bien que chaque \
             groupe peut dépenser plus que sa part.",
        Sentence::AsksC1 =>
            "Les votants ne paient que pour des projets qu’ils approuvent. L’argent de personne ne \
             sert à ce qu’il n’a pas demandé.",
        Sentence::AsksC2 =>
            "Aucun votant ne dépense plus que le budget, qui est le même pour tous. Chacun compte \
             autant que les autres.",
        Sentence::AsksC3 =>
            "Ceux qui approuvent un projet financé portent ensemble tout son coût, et pas plus.",
        Sentence::AsksC4 =>
            "Payer un projet non financé, ce serait user pour rien la voix des votants.",
        Sentence::AsksC5 =>
            "Aux soutiens d’un projet non financé il ne doit pas rester ensemble plus que son \
             coût. Sinon ils auraient pu le payer, et on les a oubliés.",
        Sentence::AsksS5 =>
            "Les soutiens d’un projet non financé ne doivent pas pouvoir offrir plus que son coût, \
             chacun sur ce qui lui reste ou en renonçant à un projet financé. Sinon ils le \
             préféreraient.",
        Sentence::AsksV1 => "Sans membre, personne n’est mal traité.",
        Sentence::AsksV2 => "Un groupe ne peut demander que ce que veulent tous ses membres.",
        Sentence::AsksV3 =>
            "La part de l’enveloppe due au groupe, selon son nombre de votants, couvre ce qu’il \
             demande. Il ne peut demander plus que son dû.",
        Sentence::AsksV4 =>
            "Ce que chaque membre obtient grâce aux projets financés vaut moins que les projets \
             demandés. Un groupe où quelqu’un obtient autant ou plus a été entendu.",
        Sentence::AsksU1 =>
            "D’un projet financé on peut compter ce qui est payé pour lui, et d’un autre ce qui \
             reste à ses soutiens.",
        Sentence::AsksU2 =>
            "Le budget d’un votant peut être compté aussi souvent qu’est compté ce qui lui reste, \
             pour les projets non financés qu’il approuve, et pas plus souvent.",
        Sentence::AsksU3 =>
            "Ce qui est à payer au moins doit dépasser ce qui peut être payé au plus. C’est alors \
             seulement qu’il n’y a pas de tels prix.",
        Sentence::FoundFeasible =>
            "Les projets financés coûtent ensemble {total}\u{202f}; l’enveloppe est de {limit}.",
        Sentence::BrokenFeasible =>
            "Les projets financés coûtent ensemble {total}, ce qui dépasse l’enveloppe de {limit}.",
        Sentence::FoundExhaustive =>
            "Il reste {left} de l’enveloppe. Le projet non financé le moins cher, {project}, coûte \
             {cost}.",
        Sentence::NothingFits =>
            "Les projets financés coûtent à eux seuls plus que l’enveloppe, si bien qu’aucun autre \
             n’y tient.",
        Sentence::BrokenExhaustive =>
            "Il reste {left} de l’enveloppe, et le projet {project} y tiendrait encore\u{a0}: il \
             coûte {cost}.",
        Sentence::FoundCover =>
            "Les budgets de tous les votants font ensemble {budgets}\u{202f}; l’enveloppe est de \
             {limit}.",
        Sentence::BrokenCover =>
            "Les budgets de tous les votants font ensemble {budgets}, ce qui ne dépasse pas \
             l’enveloppe de {limit}.",
        Sentence::FoundC1 => "Aucun votant ne paie pour un projet absent de son bulletin.",
        Sentence::BrokenC1 =>
            "Le votant {voter} paie pour le projet {project}, absent de son bulletin.",
        Sentence::FoundC2 =>
            "Le votant {voter} dépense le plus\u{a0}: {spent} sur un budget de {budget}.",
        Sentence::BrokenC2 =>
            "Le votant {voter} dépense {spent}, soit {over} de plus que le budget de {budget}.",
        Sentence::NoVoters => "Il n’y a pas de votants.",
        Sentence::FoundC3 => "Chaque projet financé est payé exactement.",
        Sentence::BrokenC3 =>
            "Le projet {project} coûte {cost}, et le montant payé pour lui est de {paid}.",
        Sentence::FoundC4 => "Rien n’est payé pour un projet non financé.",
        Sentence::BrokenC4 =>
            "Le projet {project} n’est pas financé, et le montant payé pour lui est de {paid}.",
        Sentence::FoundC5 =>
            "Le projet {project} est le plus proche\u{a0}: il reste ensemble {left} à ses \
             soutiens, et il coûte {cost}.",
        Sentence::BrokenC5 =>
            "Aux soutiens du projet {project} il reste ensemble {left}, plus que son coût de \
             {cost}\u{a0}: ils auraient pu le payer.",
        Sentence::FoundS5 =>
            "Le projet {project} est le plus proche\u{a0}: ses soutiens pourraient offrir ensemble \
             {offer}, et il coûte {cost}.",
        Sentence::BrokenS5 =>
            "Les soutiens du projet {project} pourraient offrir ensemble {offer}, chacun ce qui \
             lui reste ou son plus grand paiement pour un projet. C’est plus que son coût de \
             {cost}.",
        Sentence::FoundV1 =>
            "Membres du groupe\u{a0}: {members}. Votants au total\u{a0}: {voters}.",
        Sentence::BrokenV1 => "Le groupe n’a pas de membres.",
        Sentence::FoundV2 => "Chaque membre approuve chaque projet demandé.",
        Sentence::BrokenV2 =>
            "Le votant {voter} est dans le groupe et n’approuve pas le projet {project}, que le \
             groupe demande.",
        Sentence::FoundV3 =>
            "La part de l’enveloppe due au groupe est de {share}\u{202f}; les projets demandés \
             coûtent ensemble {cost}.",
        Sentence::BrokenV3 =>
            "La part de l’enveloppe due au groupe n’est que de {share}, et les projets demandés \
             coûtent ensemble {cost}.",
        Sentence::FoundV4 =>
            "Grâce aux projets financés, aucun membre n’obtient plus de {gets}\u{202f}; les projets \
             demandés valent ensemble {demanded}.",
        Sentence::BrokenV4 =>
            "Le votant {voter} est dans le groupe et obtient {gets} grâce aux projets financés, \
             autant que ce que valent ensemble les projets demandés ({demanded}) ou plus.",
        Sentence::FoundU1 => "Chaque ligne est d’un genre qui convient à son projet.",
        Sentence::BrokenU1Funded =>
            "Le projet {project} est financé, et sa ligne compte ce qui reste à ses soutiens.",
        Sentence::BrokenU1Unfunded =>
            "Le projet {project} n’est pas financé, et sa ligne compte ce qui est payé pour lui.",
        Sentence::FoundU2 =>
            "Les paiements comptent le budget d’un votant {counted} fois au plus, pour tous les \
             votants\u{202f}; ce qui leur reste le compte {taken} fois.",
        Sentence::BrokenU2 =>
            "Les paiements peuvent compter le budget d’un votant {counted} fois, pour tous les \
             votants\u{202f}; ce qui leur reste ne le compte que {taken} fois.",
        Sentence::FoundU3 =>
            "Selon ces poids, au moins {least} est à payer, et au plus {most} peut l’être.",
        Sentence::FoundU3UnderCover =>
            "Selon ces poids, plus de {least} est à payer, si les budgets dépassent l’enveloppe, \
             et au plus {most} peut l’être.",
        Sentence::BrokenU3 =>
            "Selon ces poids, au moins {least} est à payer, et {most} peut l’être\u{a0}: ce n’est \
             pas une contradiction.",
        Sentence::OfStableWeights(sentence) => of_stable_weights(sentence),
        Sentence::NotSaid => "Ce que cela ne dit pas",
        Sentence::NotSaidOthers =>
            "Si d’autres projets auraient été aussi équitables. Plusieurs résultats peuvent se \
             justifier.",
        Sentence::NotSaidDeserved =>
            "Que chaque groupe de votants a reçu ce qu’il mérite. Un autre test peut encore \
             montrer qu’un groupe a reçu moins que ce qu’il mérite.",
        Sentence::NotSaidGroups =>
            "Ce que les groupes de votants ont reçu pour leur part de l’enveloppe. Pour pouvoir \
             le dire, il faut que les budgets de tous les votants atteignent ensemble au moins \
             l’enveloppe.",
        Sentence::NotSaidPayments =>
            "Que le résultat est injuste. Ce non ne vaut que pour ces paiements, et d’autres \
             peuvent soutenir les mêmes projets.",
        Sentence::NotSaidOutcome =>
            "Que d’autres paiements aideraient. C’est le résultat lui-même qui est en cause, et \
             aucun paiement n’y change rien.",
        Sentence::NotSaidGroup =>
            "Que le résultat traite bien tous les groupes. La réponse ne vaut que pour ce groupe \
             et cette demande.",
        Sentence::NotSaidWhich => "Quels projets auraient dû être financés à la place.",
        Sentence::NotSaidUnfair =>
            "Qu’un certain groupe a été mal traité. C’est un certificat de violation qui le \
             montrerait.",
        Sentence::NotSaidWeights =>
            "Qu’il y a des prix qui soutiennent le résultat. Ce non ne vaut que pour ces poids, et \
             d’autres peuvent le réfuter.",
        Sentence::NotSaidFiles =>
            "Si ces fichiers sont ceux que la commune a publiés. Comparez leurs sommes de contrôle \
             à celles qui sont publiées.",
        Sentence::Claim => "Ce que vous pouvez dire en public",
        Sentence::ClaimSupported =>
            "Il existe des prix qui soutiennent ce résultat\u{a0}: chaque projet financé est payé \
             exactement par des votants qui l’approuvent, sur des budgets égaux, et à aucun groupe \
             de soutiens il ne reste plus que le coût d’un autre projet.",
        Sentence::ClaimStable =>
            "Il existe des prix stables qui soutiennent ce résultat\u{a0}: chaque projet financé \
             est payé exactement par des votants qui l’approuvent, sur des budgets égaux, et aucun \
             groupe ne préférerait payer un autre projet.",
        Sentence::ClaimNotSupported =>
            "Ces paiements ne soutiennent pas le résultat. On ne peut en dire plus\u{a0}: d’autres \
             le peuvent.",
        Sentence::ClaimPlain =>
            "Ces prix soutiennent ce résultat sous la forme simple, mais pas sous la forme \
             stable\u{a0}: chaque projet financé est payé exactement par des votants qui \
             l’approuvent, sur des budgets égaux, et à aucun groupe de soutiens il ne reste plus \
             que le coût d’un autre projet.",
        Sentence::ClaimOutcome =>
            "Le résultat viole une condition, quels que soient les paiements.",
        Sentence::ClaimViolation =>
            "Le résultat traite un groupe de votants moins bien qu’il ne le mérite\u{a0}: il ne \
             respecte pas la représentation justifiée étendue (EJR).",
        Sentence::ClaimByCount => "Cela vaut si l’on compte les projets\u{a0}: chacun vaut 1.",
        Sentence::ClaimByCost =>
            "Cela vaut si l’on compte les coûts\u{a0}: chaque projet vaut ce qu’il coûte.",
        Sentence::ClaimLittle =>
            "Les budgets de tous les votants font ensemble moins que l’enveloppe, et on n’a pas \
             demandé si un projet de plus y tient.",
        Sentence::ClaimLess =>
            "Les budgets de tous les votants font ensemble moins que l’enveloppe.",
        Sentence::ClaimNoViolation =>
            "Ce certificat ne montre pas de violation. Il ne montre pas qu’il n’y en a pas.",
        Sentence::ClaimUnpriceable =>
            "Aucun prix ne soutient ce résultat, quel que soit le budget égal donné aux votants et \
             de quelque façon qu’ils partagent les coûts des projets qu’ils approuvent.",
        Sentence::ClaimUnpriceableUnderCover =>
            "Aucun prix ne soutient ce résultat si les budgets égaux des votants font ensemble \
             plus que l’enveloppe.",
        Sentence::ClaimNotRefuted =>
            "Ce certificat ne prouve pas qu’aucun prix ne soutient le résultat. On ne peut en dire \
             plus.",
        Sentence::ClaimHow =>
            "Dites de quels fichiers il s’agit, avec leurs sommes de contrôle, pour que chacun \
             puisse vérifier.",
        Sentence::Words => "Les mots de cette page",
        Sentence::WordCertificate => "Certificat",
        Sentence::MeansCertificate =>
            "Un fichier qui donne les raisons d’une réponse, pour que chacun puisse les vérifier.",
        Sentence::WordPrices => "Prix",
        Sentence::MeansPrices =>
            "Un budget égal pour chaque votant, et ce que chacun paie pour chaque projet. Personne \
             ne paie vraiment\u{a0}: c’est une façon de dire qui porte quoi.",
        Sentence::WordSupporter => "Soutien",
        Sentence::MeansSupporter => "Un votant dont le bulletin porte le projet.",
        Sentence::WordLeftover => "Reste",
        Sentence::MeansLeftover => "Ce qui reste du budget d’un votant après tous les paiements.",
        Sentence::WordOffer => "Offre",
        Sentence::MeansOffer =>
            "Ce qui reste à un votant, ou le plus grand paiement qu’il fait pour un projet, selon \
             ce qui est le plus élevé.",
        Sentence::WordShare => "Part",
        Sentence::MeansShare =>
            "La partie de l’enveloppe qui revient à un groupe selon son nombre de votants.",
        Sentence::WordDemand => "Demande",
        Sentence::MeansDemand => "Les projets que le certificat réclame au nom du groupe.",
        Sentence::WordWeight => "Poids",
        Sentence::MeansWeight =>
            "Combien de fois le certificat compte une condition sur un projet.",
        Sentence::Files => "Les fichiers, et comment vérifier",
        Sentence::ElectionFile => "Scrutin",
        Sentence::OutcomeFile => "Résultat",
        Sentence::CertificateFile => "Certificat",
        Sentence::Bytes(Plural::One) => "{count} octet",
        Sentence::Bytes(Plural::Few | Plural::Many) => "{count} octets",
        Sentence::CheckProgram => "Avec le programme pbaudit\u{a0}:",
        Sentence::CheckByHand =>
            "Avec le programme pbaudit\u{a0}: donnez ces fichiers à sa commande explain. Elle \
             n’est pas écrite ici en entier, car le nom de l’un d’eux est trop long, a des \
             caractères qu’une commande ne peut montrer, ou est aussi celui d’un autre.",
        Sentence::CheckOptions => "Ses options\u{a0}: {options}.",
        Sentence::CheckAnswer => "Il répond\u{a0}:",
        Sentence::CheckBrowser =>
            "Dans un navigateur\u{a0}: ouvrez pbaudit.html et donnez-lui ces fichiers. Ils ne \
             quittent pas votre ordinateur.",
        Sentence::Trust =>
            "Qui modifie cette page peut lui faire dire n’importe quoi. Fiez-vous aux fichiers et \
             au programme, pas à la page.",
        Sentence::MadeBy => "Créé par pbaudit {version}.",
        Sentence::OfShortGroups(sentence) => short_groups::fr::wording(sentence),
    }
}

// What a sentence on weights says where it speaks of stable prices.
fn of_stable_weights(sentence: StableWeights) -> &'static str {
    match sentence {
        StableWeights::WhyUnpriceable =>
            "Sous la forme stable, chaque votant peut offrir pour un autre projet ce qui lui reste \
             ou son plus grand paiement pour un projet financé, selon ce qui est le plus élevé. \
             Quel que soit le budget égal des votants, et de quelque façon qu’ils se partagent les \
             coûts des projets qu’ils approuvent, une condition sur de tels prix ne serait pas \
             remplie. Les poids de ce certificat le prouvent.",
        StableWeights::WhyUnpriceableUnderCover =>
            "Sous la forme stable, chaque votant peut offrir pour un autre projet ce qui lui reste \
             ou son plus grand paiement pour un projet financé, selon ce qui est le plus élevé. De \
             quelque façon que les votants se partagent les coûts des projets qu’ils approuvent, \
             une condition sur de tels prix ne serait pas remplie si leurs budgets égaux font \
             ensemble plus que l’enveloppe. Les poids de ce certificat le prouvent. De budgets \
             plus petits, ils ne disent rien.",
        StableWeights::Asked =>
            "Question\u{a0}: les poids prouvent-ils qu’aucun prix stable ne soutient ce \
             résultat\u{202f}?",
        StableWeights::AskedUnderCover =>
            "Question\u{a0}: les poids prouvent-ils qu’aucun prix stable dont les budgets \
             dépassent l’enveloppe ne soutient ce résultat\u{202f}?",
        StableWeights::OfAllPrices =>
            "Ils le prouvent de tous les prix, même sous la forme simple, moins exigeante.",
        StableWeights::CountsOffer => "ses soutiens peuvent offrir au plus son coût",
        StableWeights::AsksU1 =>
            "D’un projet financé on peut compter ce qui est payé pour lui, et d’un autre ce que \
             ses soutiens peuvent offrir.",
        StableWeights::AsksU2 =>
            "Le budget d’un votant peut être compté aussi souvent qu’est compté ce qu’il peut \
             offrir, pour les projets non financés qu’il approuve, et pas plus souvent. Aucun \
             paiement ne dépasse cette offre\u{202f}; les offres compensent donc une partie de ce \
             que comptent les paiements.",
        StableWeights::BrokenU1Funded =>
            "Le projet {project} est financé, et sa ligne compte ce que ses soutiens peuvent \
             offrir.",
        StableWeights::FoundU2 =>
            "Mis à part ce que les offres compensent, les paiements comptent le budget d’un votant \
             {counted} fois au plus, pour tous les votants\u{202f}; ce qu’ils peuvent offrir le \
             compte {taken} fois.",
        StableWeights::BrokenU2 =>
            "Même mis à part ce que les offres compensent, les paiements peuvent compter le budget \
             d’un votant {counted} fois, pour tous les votants\u{202f}; ce qu’ils peuvent offrir \
             ne le compte que {taken} fois.",
        StableWeights::NotSaidPlain =>
            "Qu’aucun prix ne soutient le résultat sous la forme simple, moins exigeante. Il peut \
             quand même y en avoir.",
        StableWeights::NotSaidWeights =>
            "Qu’il y a des prix stables qui soutiennent le résultat. Ce non ne vaut que pour ces \
             poids, et d’autres peuvent le réfuter.",
        StableWeights::ClaimUnpriceable =>
            "Aucun prix stable ne soutient ce résultat\u{a0}: quel que soit le budget égal donné \
             aux votants et de quelque façon qu’ils partagent les coûts des projets qu’ils \
             approuvent, un groupe de votants préférerait payer un autre projet.",
        StableWeights::ClaimUnpriceableUnderCover =>
            "Aucun prix stable ne soutient ce résultat si les budgets égaux des votants font \
             ensemble plus que l’enveloppe.",
        StableWeights::ClaimNotRefuted =>
            "Ce certificat ne prouve pas qu’aucun prix stable ne soutient le résultat. On ne peut \
             en dire plus.",
    }
}
