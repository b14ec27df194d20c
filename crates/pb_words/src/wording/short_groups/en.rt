//! The sentences on groups that fall short in English.
use crate::sentence::Plural;
use crate::short_groups::ShortGroups;

/// What a sentence says.
pub fn wording(sentence: ShortGroups) -> &'static str {
    match sentence {
        ShortGroups::NoneByCost =>
            "Take any voters who all voted for a project that wasn’t funded. Their equal part of \
             the limit is less than that project’s cost plus the cost of the funded projects on at \
             least one member’s own ballot.",
        ShortGroups::NoneByCount =>
            "Take any voters who all voted for a project that wasn’t funded. Their equal part of \
             the limit is less than that project’s cost multiplied by one more than the number of \
             funded projects on at least one member’s own ballot.",
        ShortGroups::NobodyWantsMore =>
            "Nobody voted for a project that wasn’t funded, so no group can fall short.",
        ShortGroups::SomeByCost =>
            "{count} of the {all} who want project {project}: their equal part of the limit is \
             {share}. The project costs {cost}; on no one’s ballot among them do the funded \
             projects cost more than {most}. {cost} + {most} = {need} is no more than {share}.",
        ShortGroups::SomeByCount =>
            "{count} of the {all} who want project {project}: their equal part of the limit is \
             {share}. The project costs {cost}; on no one’s ballot among them are there more than \
             {most} of the funded projects. {cost} × ({most} + 1) = {need} is no more than \
             {share}.",
        ShortGroups::Closest =>
            "Project {project} comes closest: for {count} of the {all} who want it the equal part \
             of the limit is {share}, and it would take {need}.",
        ShortGroups::BeyondLimit =>
            "The funded projects cost {amount} more than the limit. Funding further projects never \
             makes an outcome worse by this question.",
        ShortGroups::AskedByCost =>
            "Asked by cost: what a voter got is the cost of the funded projects on the voter’s own \
             ballot.",
        ShortGroups::AskedByCount =>
            "Asked by counting: what a voter got is the number of funded projects on the voter’s \
             own ballot.",
        ShortGroups::HowTable =>
            "For each project that wasn’t funded: the largest group that falls short, or otherwise \
             the one whose part of the limit covers most of what it would take. The bar is that \
             part, and the line is what it would take. A bar that reaches the line falls short.",
        ShortGroups::Group => "Group",
        ShortGroups::Part => "Their part of the limit",
        ShortGroups::Need => "It would take",
        ShortGroups::PartAgainstNeed => "Part against what it would take",
        ShortGroups::LabelPartAgainstNeed =>
            "{project}: a part of {share}, and it would take {need}",
        ShortGroups::FallsShort => "falls short",
        ShortGroups::NobodyWants(Plural::One) => "{count} project that wasn’t funded got no vote.",
        ShortGroups::NobodyWants(Plural::Few | Plural::Many) =>
            "{count} projects that weren’t funded got no vote.",
        ShortGroups::NotSaidRoom =>
            "That each group of voters got what it deserves. This question leaves room for one \
             project, so another test can still show that a group got less than it deserves.",
        ShortGroups::NotSaidLimit =>
            "That the outcome keeps to the limit. Funding further projects never makes an outcome \
             worse by this question.",
        ShortGroups::NotSaidLittle =>
            "Much, where little was funded: then a project alone often costs more than the part of \
             those who want it.",
        ShortGroups::NotSaidAdded =>
            "That the project could simply be added. Within the limit another one might have to go.",
        ShortGroups::NotSaidPrices =>
            "Whether prices support the outcome. That takes a price certificate.",
        ShortGroups::ClaimNoneByCost =>
            "No group of voters falls short by cost: the outcome satisfies extended justified \
             representation up to any project (EJR+) by cost.",
        ShortGroups::ClaimNoneByCount =>
            "No group of voters falls short by counting projects: the outcome satisfies extended \
             justified representation up to any project (EJR+) by counting.",
        ShortGroups::ClaimSomeByCost =>
            "A group of voters falls short by cost: the outcome fails extended justified \
             representation up to any project (EJR+) by cost.",
        ShortGroups::ClaimSomeByCount =>
            "A group of voters falls short by counting projects: the outcome fails extended \
             justified representation up to any project (EJR+) by counting.",
        ShortGroups::WordShort => "Falls short",
        ShortGroups::MeansShort =>
            "Of a group: all its members voted for a project that wasn’t funded, and their part of \
             the limit would have been enough for it on top of what any one of them got.",
        ShortGroups::MeansShortByCount =>
            "Of a group: all its members voted for a project that wasn’t funded, and their part of \
             the limit is at least its cost multiplied by one more than the number of funded \
             projects on any one member’s own ballot.",
        ShortGroups::WordPart => "Part of the limit",
        ShortGroups::MeansPart =>
            "The limit divided equally among all voters, times the number of the group’s members.",
        ShortGroups::WordEjrPlus => "EJR+",
        ShortGroups::MeansEjrPlus =>
            "A notion of fairness by Brill and Peters (2023), here for projects with costs and up \
             to any project: no group of voters falls short.",
    }
}
