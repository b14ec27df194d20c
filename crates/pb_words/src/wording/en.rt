//! The sentences in English.
use crate::sentence::{Plural, Sentence, StableWeights};
use crate::wording::short_groups;

/// What a sentence says.
pub fn wording(sentence: Sentence) -> &'static str {
    match sentence {
        Sentence::Kicker => "Participatory budgeting: an audit of the outcome",
        Sentence::Place => "Place",
        Sentence::VotingDates => "Voting",
        Sentence::FromTo => "{begin} to {end}",
        Sentence::Rule => "Rule",
        Sentence::Voters => "Voters",
        Sentence::Turnout => "Turnout",
        Sentence::Currency => "Amounts in",
        Sentence::WhySupported =>
            "Each funded project is paid for exactly by voters who approve it, from equal budgets. \
             No other project has supporters with more left together than it costs.",
        Sentence::WhyStable =>
            "Each funded project is paid for exactly by voters who approve it, from equal budgets. \
             The supporters of no other project could offer more than it costs, even if each of \
             them gave up a funded project for it.",
        Sentence::WhyViolation =>
            "All its members approve the projects that it demands, and its share of the limit \
             would pay for them. Yet from the funded projects each member gets less than the \
             demanded ones are worth.",
        Sentence::WhyUnpriceable =>
            "Whatever equal budget the voters had, and however they shared the costs of the \
             projects that they approve, a condition on prices would fail, in the plain form and \
             in the stable one. The weights of this certificate prove it.",
        Sentence::WhyUnpriceableUnderCover =>
            "However the voters shared the costs of the projects that they approve, a condition on \
             prices would fail, in the plain form and in the stable one, if their equal budgets \
             come to more than the limit together. The weights of this certificate prove it. They \
             say nothing about smaller budgets.",
        Sentence::SaysLittle =>
            "But this yes says little: the budgets of all voters come to {budgets} together, which \
             is less than the limit of {limit}. So each group has less to spend than its share of \
             the limit, and whether a further project fits into the limit wasn’t asked.",
        Sentence::SaysLess =>
            "But this yes says less than it could: the budgets of all voters come to {budgets} \
             together, which is less than the limit of {limit}. So each group has less to spend \
             than its share of the limit.",
        Sentence::GroupsWithinReach =>
            "Take any voters who all voted for a project that wasn’t funded. Their equal part of \
             the limit is no more than that project’s cost plus the cost of all funded projects \
             that at least one of them voted for.",
        Sentence::GroupsBelowReach =>
            "Take any voters who all voted for a project that wasn’t funded. Their equal part of \
             the limit is less than that project’s cost plus the cost of all funded projects that \
             at least one of them voted for.",
        Sentence::NearestGroup(Plural::One) =>
            "Project {project} comes nearest: the share of its {count} supporter is {share}. It \
             costs {cost}, and {funded} was funded for that voter.",
        Sentence::NearestGroup(Plural::Few | Plural::Many) =>
            "Project {project} comes nearest: the share of its {count} supporters is {share}. It \
             costs {cost}, and {funded} was funded for at least one of them.",
        Sentence::AskedPlain =>
            "Asked in the plain form: do the supporters of another project have more left together \
             than it costs?",
        Sentence::AskedStable =>
            "Asked in the stable form: could the supporters of another project offer more together \
             than it costs, if each may also give up a funded one for it?",
        Sentence::AskedExhaustive => "Also asked: does a further project fit into the limit?",
        Sentence::UnaskedExhaustive => "Not asked: does a further project fit into the limit?",
        Sentence::AskedCover =>
            "Also asked: do the budgets of all voters come to more than the limit?",
        Sentence::UnaskedCover =>
            "Not asked: do the budgets of all voters come to more than the limit?",
        Sentence::AskedByCount => "Asked by counting: each project is worth 1.",
        Sentence::AskedByCost => "Asked by cost: each project is worth what it costs.",
        Sentence::AskedRefutation =>
            "Asked: do the weights prove that no prices at all support this outcome?",
        Sentence::AskedRefutationUnderCover =>
            "Asked: do the weights prove that no prices with budgets above the limit support this \
             outcome?",
        Sentence::StableToo =>
            "In the stable form, which asks more, the answer would be yes as well.",
        Sentence::NotStable(Plural::One) =>
            "In the stable form, which asks more, the answer would be no: for {count} project the \
             supporters could offer more than it costs.",
        Sentence::NotStable(Plural::Few | Plural::Many) =>
            "In the stable form, which asks more, the answer would be no: for {count} projects the \
             supporters could offer more than the project costs.",
        Sentence::PlainHolds =>
            "The plain form, which asks less, holds: there the answer would be yes.",
        Sentence::AtProjects(Plural::One) => "This is so for {count} project.",
        Sentence::AtProjects(Plural::Few | Plural::Many) => "This is so for {count} projects.",
        Sentence::AtVoters(Plural::One) => "This is so for {count} voter.",
        Sentence::AtVoters(Plural::Few | Plural::Many) => "This is so for {count} voters.",
        Sentence::AtPayments(Plural::One) => "There is {count} such payment.",
        Sentence::AtPayments(Plural::Few | Plural::Many) => "There are {count} such payments.",
        Sentence::AtApprovals(Plural::One) =>
            "There is {count} such pair of a member and a project.",
        Sentence::AtApprovals(Plural::Few | Plural::Many) =>
            "There are {count} such pairs of a member and a project.",
        Sentence::LargestAt => "The difference is largest for project {project}: {amount}.",
        Sentence::LargestHere => "The difference is largest there: {amount}.",
        Sentence::AmountAt => "The amount is largest for project {project}: {amount}.",
        Sentence::AmountHere => "The amount is largest there.",
        Sentence::DearestAt => "The dearest of them is project {project}, which costs {amount}.",
        Sentence::DearestHere => "The dearest of them is the one named here.",
        Sentence::PaymentAt => "The largest is by voter {voter} for project {project}: {amount}.",
        Sentence::PaymentHere => "The largest is the one named here: {amount}.",
        Sentence::SpenderHere => "No other voter spends more.",
        Sentence::VoterRow => "{voter} (row {voter} of VOTES)",
        Sentence::OverBy => "over by {amount}",
        Sentence::UnderBy => "under by {amount}",
        Sentence::JustTheCost => "exactly the cost",
        Sentence::Glance => "At a glance",
        Sentence::ProjectsFunded => "Projects funded",
        Sentence::SomeOfAll => "{count} of {all}",
        Sentence::Limit => "Budget limit",
        Sentence::VoterBudget => "Budget of each voter",
        Sentence::OfTheLimit => "The limit of {limit}",
        Sentence::LimitFunded => "{amount} for funded projects",
        Sentence::LimitLeft => "{amount} left",
        Sentence::LimitOver => "{amount} over the limit",
        Sentence::OfTheBudgets => "The budgets of all voters, {budgets} together",
        Sentence::BudgetsSpent => "{amount} spent",
        Sentence::BudgetsLeft => "{amount} left",
        Sentence::BudgetsOver => "{amount} more than the budgets",
        Sentence::Unfunded => "Projects that weren’t funded",
        Sentence::Funded => "Projects that were funded",
        Sentence::AllFunded => "Every project was funded.",
        Sentence::NoneFunded => "No project was funded.",
        Sentence::NoProjects => "The election has no projects.",
        Sentence::HowUnfunded =>
            "The bar is what the supporters of a project have left together, and the line is what \
             the project costs. A bar that passes the line breaks the condition.",
        Sentence::HowUnfundedStable =>
            "The bar is what the supporters of a project could offer together, and the line is \
             what the project costs. A bar that passes the line breaks the condition.",
        Sentence::HowFunded => "The bar is the part of the limit that a project takes.",
        Sentence::Order => "Order",
        Sentence::OrderClosest => "closest first",
        Sentence::OrderDearest => "dearest first",
        Sentence::OrderSupporters => "most supporters first",
        Sentence::OnlyClosest =>
            "Only the {count} closest projects are shown here, whichever order you choose.",
        Sentence::Project => "Project",
        Sentence::ProjectId => "project {id}",
        Sentence::Cost => "Cost",
        Sentence::Supporters => "Supporters",
        Sentence::HaveLeft => "They have left",
        Sentence::CanOffer => "They could offer",
        Sentence::AgainstCost => "Against the cost",
        Sentence::CostPerSupporter => "Cost per supporter",
        Sentence::PartOfLimit => "Part of the limit",
        Sentence::MoreThanWhole => "more than the whole",
        Sentence::PaidExactly => "paid for exactly",
        Sentence::PaidOver => "{paid} is paid, over by {amount}",
        Sentence::PaidUnder => "{paid} is paid, under by {amount}",
        Sentence::PaidInVain => "{paid} is paid for it in vain",
        Sentence::LabelLeft =>
            "{project}: the supporters have {amount} left, and the cost is {cost}",
        Sentence::LabelOffer =>
            "{project}: the supporters could offer {amount}, and the cost is {cost}",
        Sentence::LabelPart => "{project}: {part} of {whole}",
        Sentence::LeftOut(Plural::One) =>
            "{count} more project is left out here, so that a browser can show the page.",
        Sentence::LeftOut(Plural::Few | Plural::Many) =>
            "{count} more projects are left out here, so that a browser can show the page.",
        Sentence::Group => "The group",
        Sentence::Members => "Members",
        Sentence::GroupShare => "Its share of the limit",
        Sentence::DemandCost => "Cost of what it demands",
        Sentence::BarShare =>
            "The group’s share of the limit; the line is what the demanded projects cost.",
        Sentence::BarGets =>
            "The most that a member gets from the funded projects; the line is what the demanded \
             ones are worth.",
        Sentence::BarEnough =>
            "What voter {voter} gets from the funded projects; the line is what the demanded ones \
             are worth.",
        Sentence::AmountOfAmount => "{amount} against {bound}",
        Sentence::Demand => "What the group demands",
        Sentence::NoDemand => "The group demands nothing.",
        Sentence::State => "Outcome",
        Sentence::IsFunded => "funded",
        Sentence::IsUnfunded => "not funded",
        Sentence::PartOfShare => "Part of the group’s share",
        Sentence::Weights => "The weights",
        Sentence::HowWeights =>
            "Each weight says how often a condition on this project is counted. Added up, the \
             conditions contradict each other.",
        Sentence::HowWeightsFail =>
            "Each weight says how often a condition on this project is counted. Added up, the \
             conditions were to contradict each other.",
        Sentence::NoWeights => "The certificate gives no project a weight.",
        Sentence::CoverWeight => "Weight of larger budgets",
        Sentence::PaidAtLeast => "By weight, at least to be paid",
        Sentence::PaidAtMost => "By weight, at most to be paid",
        Sentence::Counts => "What is counted",
        Sentence::CountsLeast => "at least its cost is paid",
        Sentence::CountsMost => "at most its cost is paid",
        Sentence::CountsLeft => "its supporters have at most its cost left",
        Sentence::Weight => "Weight",
        Sentence::Conditions => "The conditions, one by one",
        Sentence::Tests => "The tests, one by one",
        Sentence::Holds => "holds",
        Sentence::Fails => "fails",
        Sentence::NotAsked => "not asked",
        Sentence::TestHolds => "holds",
        Sentence::TestFails => "fails",
        Sentence::NameFeasible => "Within the limit",
        Sentence::NameExhaustive => "Nothing left affordable",
        Sentence::NameCover => "Budgets beyond the limit",
        Sentence::NameC1 => "Paid only for approved projects",
        Sentence::NameC2 => "Within each voter’s budget",
        Sentence::NameC3 => "Paid for exactly",
        Sentence::NameC4 => "Nothing paid in vain",
        Sentence::NameC5 => "Supporters have no more left than the cost",
        Sentence::NameS5 => "No group would rather have another project",
        Sentence::NameV1 => "The group has members",
        Sentence::NameV2 => "All members want the same",
        Sentence::NameV3 => "The group is large enough",
        Sentence::NameV4 => "Nobody in it gets as much",
        Sentence::NameU1 => "Each weight is of the right kind",
        Sentence::NameU2 => "The budgets cover what is counted",
        Sentence::NameU3 => "The sums contradict each other",
        Sentence::AsksFeasible =>
            "The funded projects may not cost more than the limit together. No more can be \
             promised than there is.",
        Sentence::AsksExhaustive =>
            "No other project may still fit into the limit. Money that could pay for one shouldn’t \
             lie idle.",
        Sentence::AsksCover =>
            "The budgets of all voters come to more than the limit, so that each group has more to \
             spend than its share of the limit.",
        Sentence::AsksC1 =>
            "Voters pay only for projects that they approve. Nobody’s money may be used for what \
             they didn’t ask for.",
        Sentence::AsksC2 =>
            "No voter spends more than the budget, which is the same for all. Each voter counts as \
             much as any other.",
        Sentence::AsksC3 =>
            "Those who approve a funded project carry its whole cost together, and no more.",
        Sentence::AsksC4 =>
            "Payments for a project that wasn’t funded would use up voters’ say for nothing.",
        Sentence::AsksC5 =>
            "The supporters of a project that wasn’t funded may not have more left together than \
             it costs. Otherwise they could have paid for it, and were passed over.",
        Sentence::AsksS5 =>
            "The supporters of a project that wasn’t funded may not be able to offer more than it \
             costs, each from what is left or by giving up one funded project. Otherwise they \
             would rather have it.",
        Sentence::AsksV1 => "Without a member nobody is treated badly.",
        Sentence::AsksV2 => "A group may demand only what all its members want.",
        Sentence::AsksV3 =>
            "The group’s share of the limit, by its number of voters, covers what it demands. It \
             may ask for no more than its due.",
        Sentence::AsksV4 =>
            "Each member gets less from the funded projects than the demanded ones are worth. A \
             group in which one member gets as much or more was heard.",
        Sentence::AsksU1 =>
            "For a funded project the weights may count what is paid for it; for any other, what \
             its supporters have left.",
        Sentence::AsksU2 =>
            "A voter’s budget may be counted as often as what it has left is counted, over the \
             projects that it approves and that were not funded, and not more often.",
        Sentence::AsksU3 =>
            "What is to be paid at least has to be more than what can be paid at most. Only then \
             are there no such prices.",
        Sentence::FoundFeasible =>
            "The funded projects cost {total} together; the limit is {limit}.",
        Sentence::BrokenFeasible =>
            "The funded projects cost {total} together, which is more than the limit of {limit}.",
        Sentence::FoundExhaustive =>
            "{left} of the limit is left. The cheapest project that wasn’t funded, {project}, \
             costs {cost}.",
        Sentence::NothingFits =>
            "The funded projects alone cost more than the limit, so no other one fits.",
        Sentence::BrokenExhaustive =>
            "{left} of the limit is left, and project {project} would still fit: it costs {cost}.",
        Sentence::FoundCover =>
            "The budgets of all voters come to {budgets} together; the limit is {limit}.",
        Sentence::BrokenCover =>
            "The budgets of all voters come to {budgets} together, which isn’t more than the limit \
             of {limit}.",
        Sentence::FoundC1 => "No voter pays for a project that isn’t on the voter’s ballot.",
        Sentence::BrokenC1 =>
            "Voter {voter} pays for project {project}, which isn’t on this voter’s ballot.",
        Sentence::FoundC2 => "Voter {voter} spends most: {spent} of a budget of {budget}.",
        Sentence::BrokenC2 =>
            "Voter {voter} spends {spent}, which is {over} more than the budget of {budget}.",
        Sentence::NoVoters => "There are no voters.",
        Sentence::FoundC3 => "Each funded project is paid for exactly.",
        Sentence::BrokenC3 => "Project {project} costs {cost}, and {paid} is paid for it.",
        Sentence::FoundC4 => "Nothing is paid for a project that wasn’t funded.",
        Sentence::BrokenC4 => "Project {project} wasn’t funded, and {paid} is paid for it.",
        Sentence::FoundC5 =>
            "Project {project} comes closest: its supporters have {left} left together, and it \
             costs {cost}.",
        Sentence::BrokenC5 =>
            "The supporters of project {project} have {left} left together, which is more than its \
             cost of {cost}: they could have paid for it.",
        Sentence::FoundS5 =>
            "Project {project} comes closest: its supporters could offer {offer} together, and it \
             costs {cost}.",
        Sentence::BrokenS5 =>
            "The supporters of project {project} could offer {offer} together, each what is left \
             or the largest payment for one project. That is more than its cost of {cost}.",
        Sentence::FoundV1 => "Members of the group: {members}. Voters in all: {voters}.",
        Sentence::BrokenV1 => "The group has no members.",
        Sentence::FoundV2 => "Each member approves each demanded project.",
        Sentence::BrokenV2 =>
            "Voter {voter} is in the group, and doesn’t approve project {project}, which the group \
             demands.",
        Sentence::FoundV3 =>
            "The group’s share of the limit is {share}; the demanded projects cost {cost} \
             together.",
        Sentence::BrokenV3 =>
            "The group’s share of the limit is only {share}, and the demanded projects cost {cost} \
             together.",
        Sentence::FoundV4 =>
            "No member gets more than {gets} from the funded projects; the demanded ones are worth \
             {demanded} together.",
        Sentence::BrokenV4 =>
            "Voter {voter} is in the group and gets {gets} from the funded projects, as much as \
             the demanded ones are worth together ({demanded}) or more.",
        Sentence::FoundU1 => "Each row is of a kind for its project.",
        Sentence::BrokenU1Funded =>
            "Project {project} is funded, and its row counts what its supporters have left.",
        Sentence::BrokenU1Unfunded =>
            "Project {project} isn’t funded, and its row counts what is paid for it.",
        Sentence::FoundU2 =>
            "Payments count a voter’s budget {counted} times at the most, over all voters; what \
             voters have left counts it {taken} times.",
        Sentence::BrokenU2 =>
            "Payments may count a voter’s budget {counted} times, over all voters; what voters \
             have left counts it only {taken} times.",
        Sentence::FoundU3 =>
            "By these weights at least {least} is to be paid, and at most {most} can be.",
        Sentence::FoundU3UnderCover =>
            "By these weights more than {least} is to be paid, if the budgets come to more than \
             the limit, and at most {most} can be.",
        Sentence::BrokenU3 =>
            "By these weights at least {least} is to be paid, and {most} can be: that is no \
             contradiction.",
        Sentence::OfStableWeights(sentence) => of_stable_weights(sentence),
        Sentence::NotSaid => "What this doesn’t say",
        Sentence::NotSaidOthers =>
            "Whether other projects would have been as fair. Several outcomes can be supported.",
        Sentence::NotSaidDeserved =>
            "That each group of voters got what it deserves. Another test can still show that a \
             group got less than it deserves.",
        Sentence::NotSaidGroups =>
            "How much groups of voters got for their part of the limit. To say that, the budgets \
             of all voters have to come to the limit at least.",
        Sentence::NotSaidPayments =>
            "That the outcome is unfair. This no speaks of these payments alone, and others may \
             support the same projects.",
        Sentence::NotSaidOutcome =>
            "That other payments would help. What fails here is the outcome itself, and no \
             payments change that.",
        Sentence::NotSaidGroup =>
            "That the outcome treats all groups well. This speaks of this group and this demand \
             alone.",
        Sentence::NotSaidWhich => "Which projects should have been funded instead.",
        Sentence::NotSaidUnfair =>
            "That a certain group was treated badly. That would be for a violation certificate to \
             show.",
        Sentence::NotSaidWeights =>
            "That there are prices that support the outcome. This no speaks of these weights \
             alone, and others may refute it.",
        Sentence::NotSaidFiles =>
            "Whether these files are what the council published. Compare their checksums with the \
             published ones.",
        Sentence::Claim => "What you can say in public",
        Sentence::ClaimSupported =>
            "There are prices that support this outcome: each funded project is paid for exactly \
             by voters who approve it, from equal budgets, and no group of supporters has enough \
             left to pay more than another project costs.",
        Sentence::ClaimStable =>
            "There are stable prices that support this outcome: each funded project is paid for \
             exactly by voters who approve it, from equal budgets, and no group of voters would \
             rather pay for another project.",
        Sentence::ClaimNotSupported =>
            "These payments don’t support the outcome. More can’t be said: others may.",
        Sentence::ClaimPlain =>
            "These prices support this outcome in the plain form, but not in the stable one: each \
             funded project is paid for exactly by voters who approve it, from equal budgets, and \
             no group of supporters has enough left to pay more than another project costs.",
        Sentence::ClaimOutcome => "The outcome breaks a condition, whatever the payments.",
        Sentence::ClaimViolation =>
            "The outcome treats a group of voters worse than it deserves: it fails extended \
             justified representation (EJR).",
        Sentence::ClaimByCount => "This is so by counting: each project is worth 1.",
        Sentence::ClaimByCost => "This is so by cost: each project is worth what it costs.",
        Sentence::ClaimLittle =>
            "The budgets of all voters together are less than the limit, and whether a further \
             project fits into it wasn’t asked.",
        Sentence::ClaimLess => "The budgets of all voters together are less than the limit.",
        Sentence::ClaimNoViolation =>
            "This certificate shows no violation. It doesn’t show that there is none.",
        Sentence::ClaimUnpriceable =>
            "No prices support this outcome: whatever equal budget the voters are given, and \
             however they share the costs of the projects that they approve.",
        Sentence::ClaimUnpriceableUnderCover =>
            "No prices support this outcome if the voters’ equal budgets come to more than the \
             limit together.",
        Sentence::ClaimNotRefuted =>
            "This certificate doesn’t prove that no prices support the outcome. More can’t be \
             said.",
        Sentence::ClaimHow =>
            "Say which files this is about, with their checksums, so that anybody can check it.",
        Sentence::Words => "Words on this page",
        Sentence::WordCertificate => "Certificate",
        Sentence::MeansCertificate =>
            "A file that states the reasons for an answer, so that anybody can check it.",
        Sentence::WordPrices => "Prices",
        Sentence::MeansPrices =>
            "An equal budget for each voter, and what each pays for each project. Nobody really \
             pays: it is a way to tell who carries what.",
        Sentence::WordSupporter => "Supporter",
        Sentence::MeansSupporter => "A voter whose ballot has the project.",
        Sentence::WordLeftover => "Left",
        Sentence::MeansLeftover => "What a voter’s budget has left after all payments.",
        Sentence::WordOffer => "Offer",
        Sentence::MeansOffer =>
            "What a voter has left, or the largest payment that the voter makes for one project, \
             whichever is more.",
        Sentence::WordShare => "Share",
        Sentence::MeansShare =>
            "The part of the limit that goes to a group by its number of voters.",
        Sentence::WordDemand => "Demand",
        Sentence::MeansDemand =>
            "The projects that the certificate asks for on the group’s behalf.",
        Sentence::WordWeight => "Weight",
        Sentence::MeansWeight => "How often the certificate counts a condition on a project.",
        Sentence::Files => "The files, and how to check this",
        Sentence::ElectionFile => "Election",
        Sentence::OutcomeFile => "Outcome",
        Sentence::CertificateFile => "Certificate",
        Sentence::Bytes(Plural::One) => "{count} byte",
        Sentence::Bytes(Plural::Few | Plural::Many) => "{count} bytes",
        Sentence::CheckProgram => "By the program pbaudit:",
        Sentence::CheckByHand =>
            "By the program pbaudit: give these files to its command explain. It isn’t written out \
             here, because the name of one of them is too long, has characters that a command \
             can’t show, or is that of another.",
        Sentence::CheckOptions => "Its options: {options}.",
        Sentence::CheckAnswer => "It answers:",
        Sentence::CheckBrowser =>
            "In a browser: open pbaudit.html and give it these files. They don’t leave your computer.",
        Sentence::Trust =>
            "Whoever changes this page can make it say anything. Trust the files and the program, \
             not the page.",
        Sentence::MadeBy => "Made by pbaudit {version}.",
        Sentence::OfShortGroups(sentence) => short_groups::en::wording(sentence),
    }
}

// What a sentence on weights says where it speaks of stable prices.
fn of_stable_weights(sentence: StableWeights) -> &'static str {
    match sentence {
        StableWeights::WhyUnpriceable =>
            "In the stable form each voter can offer for another project what is left, or the \
             largest payment for a funded one, whichever is more. Whatever equal budget the voters \
             had, and however they shared the costs of the projects that they approve, a condition \
             on such prices would fail. The weights of this certificate prove it.",
        StableWeights::WhyUnpriceableUnderCover =>
            "In the stable form each voter can offer for another project what is left, or the \
             largest payment for a funded one, whichever is more. However the voters shared the \
             costs of the projects that they approve, a condition on such prices would fail if \
             their equal budgets come to more than the limit together. The weights of this \
             certificate prove it. They say nothing about smaller budgets.",
        StableWeights::Asked =>
            "Asked: do the weights prove that no stable prices at all support this outcome?",
        StableWeights::AskedUnderCover =>
            "Asked: do the weights prove that no stable prices with budgets above the limit \
             support this outcome?",
        StableWeights::OfAllPrices =>
            "They prove it of all prices, also in the plain form, which asks less.",
        StableWeights::CountsOffer => "its supporters can offer at most its cost",
        StableWeights::AsksU1 =>
            "For a funded project the weights may count what is paid for it; for any other, what \
             its supporters can offer.",
        StableWeights::AsksU2 =>
            "A voter’s budget may be counted as often as what the voter can offer is counted, over \
             the projects that the voter approves and that were not funded, and not more often. No \
             payment is more than that offer, so offers make up for some of what payments count.",
        StableWeights::BrokenU1Funded =>
            "Project {project} is funded, and its row counts what its supporters can offer.",
        StableWeights::FoundU2 =>
            "Apart from what offers make up for, payments count a voter’s budget {counted} times \
             at the most, over all voters; what voters can offer counts it {taken} times.",
        StableWeights::BrokenU2 =>
            "Even apart from what offers make up for, payments may count a voter’s budget \
             {counted} times, over all voters; what voters can offer counts it only {taken} times.",
        StableWeights::NotSaidPlain =>
            "That no prices support the outcome in the plain form, which asks less. There may be \
             some all the same.",
        StableWeights::NotSaidWeights =>
            "That there are stable prices that support the outcome. This no speaks of these \
             weights alone, and others may refute it.",
        StableWeights::ClaimUnpriceable =>
            "No stable prices support this outcome: whatever equal budget the voters are given, \
             and however they share the costs of the projects that they approve, a group of voters \
             would rather pay for another project.",
        StableWeights::ClaimUnpriceableUnderCover =>
            "No stable prices support this outcome if the voters’ equal budgets come to more than \
             the limit together.",
        StableWeights::ClaimNotRefuted =>
            "This certificate doesn’t prove that no stable prices support the outcome. More can’t \
             be said.",
    }
}
