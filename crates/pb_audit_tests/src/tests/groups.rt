//! Groups that fall short, explained, and their margins as a table, worked out by hand.
use pb_audit::{Answer, Format, Question, Status, Unmet, answer};
use pb_certificate::Measure;
use pb_reply::File;
use std::alloc::{AllocError, Global};
use std::test::Fail;

/// Voters 1 and 2 got nothing, voters 3 and 4 got x, which costs 6. Each of the four has 3 of the limit.
const TOWN: &str = "\
META
key;value
budget;12
vote_type;approval
PROJECTS
project_id;cost;selected
x;6;1
z;13;0
y;2;0
w;1;0
u;1;0
VOTES
vote
w,y,z
y,z
x,y,z,w
x
";

/// Of z the share of all three supporters covers 9/19 of what it has to come to, and that of the first two 6/13, which is
/// less. For y all three fall short: 2 and 6 are no more than 9. For w only voter 1 does: 1 and 6 are more than 6.
const TOWN_BY_COST: &str = "\
pb-groups,1
satisfaction,cost
denominator,4
project,voters,most,need,share,missing
z,3,6000000,76000000,36000000,40000000
y,3,6000000,32000000,36000000,-4000000
w,1,0,4000000,12000000,-8000000
";

/// Of z the first two come closest: 6/13, and all three 9/26. For y all three need twice 2, for w both twice 1.
const TOWN_BY_COUNT: &str = "\
pb-groups,1
satisfaction,count
denominator,4
project,voters,most,need,share,missing
z,2,0,52000000,24000000,28000000
y,3,1,16000000,36000000,-20000000
w,2,1,8000000,24000000,-16000000
";

/// Two voters who both want x, which is funded, and y.
const PAIR: &str = "\
META
key;value
budget;5
vote_type;approval
PROJECTS
project_id;cost;selected
x;2;1
\"y;\"\"1\"\"\";3;0
VOTES
vote
\"x,y;\"\"1\"\"\"
\"x,y;\"\"1\"\"\"
";

/// The same with a millionth less.
const POORER_PAIR: &str = "\
META
key;value
budget;4.999999
vote_type;approval
PROJECTS
project_id;cost;selected
x;2;1
y;3;0
VOTES
vote
x,y
x,y
";

/// A project that isn't funded, and no voters.
const NOBODY: &str = "\
META
key;value
budget;5
vote_type;approval
PROJECTS
project_id;cost;selected
x;2;0
VOTES
vote
";

/// What is answered to a question on an election with its own outcome.
fn asked(alloc: Global, question: Question, election: &str) -> Result<Answer<Status>, AllocError> {
    let mut outcome: Option<File<'_>> = None;
    answer(
        alloc,
        Format::Lines,
        question,
        &mut File::in_memory(election.as_bytes()),
        &mut outcome,
        &mut File::in_memory(b""),
        &mut File::in_memory(b""),
        &mut Vec::new(alloc),
    )
}

#[test]
fn tells_margins_of_groups(rt: HostRuntime) -> Result<(), Fail> {
    for (measure, election, want) in [
        (Measure::ByCost, TOWN, TOWN_BY_COST),
        (Measure::ByCount, TOWN, TOWN_BY_COUNT),
        (
            Measure::ByCost,
            PAIR,
            "pb-groups,1\nsatisfaction,cost\ndenominator,2\nproject,voters,most,need,share,missing\n\
             \"y;\"\"1\"\"\",2,2000000,10000000,10000000,0\n",
        ),
        (
            Measure::ByCost,
            POORER_PAIR,
            "pb-groups,1\nsatisfaction,cost\ndenominator,2\nproject,voters,most,need,share,missing\n\
             y,2,2000000,10000000,9999998,2\n",
        ),
        (
            Measure::ByCount,
            NOBODY,
            "pb-groups,1\nsatisfaction,count\ndenominator,1\nproject,voters,most,need,share,missing\n",
        ),
    ] {
        let told = asked(rt.alloc(), Question::GroupMargins(measure), election)?;
        assert!(rt; told.text.as_slice() == want.as_bytes(), "{want}");
        assert_eq!(rt; told.status, Status::Yes);
    }
    Ok(())
}

/// An explanation that is asked for: the measure, the election, the lines, and how it ends.
type Explained = (Measure, &'static str, &'static str, Status);

const EXPLANATIONS: [Explained; 4] = [
    (
        Measure::ByCost,
        TOWN,
        "failed EJR+ by cost voters 3 project y\n\n\
         Project     3 of 4 voters approve project y, which costs 2.00\n\
         Group       3 of these: all who got at most 6.00 by cost\n\
         Need        8.00: the cost of the project and the most that a member got\n\
         Share       9.00: the equal part of the limit for so many voters\n\
         Over        1.00: the share is enough, so the group falls short\n",
        Status::No(Unmet::Groups {
            project: 3,
            voters: 3,
        }),
    ),
    (
        Measure::ByCount,
        TOWN,
        "failed EJR+ by count voters 3 project y\n\n\
         Project     3 of 4 voters approve project y, which costs 2.00\n\
         Group       3 of these: all who got at most 1 by count\n\
         Need        4.00: the cost of the project, for each one that a member got at most and once more\n\
         Share       9.00: the equal part of the limit for so many voters\n\
         Over        5.00: the share is enough, so the group falls short\n",
        Status::No(Unmet::Groups {
            project: 3,
            voters: 3,
        }),
    ),
    (
        Measure::ByCost,
        POORER_PAIR,
        "satisfied ejr+ by cost\n\n\
         Project     2 of 2 voters approve project y, which costs 3.00\n\
         Group       2 of these: all who got at most 2.00 by cost\n\
         Need        5.00: the cost of the project and the most that a member got\n\
         Share       4.999999: the equal part of the limit for so many voters\n\
         Missing     0.000001: no group falls short, and this one comes closest\n",
        Status::Yes,
    ),
    (
        Measure::ByCost,
        NOBODY,
        "satisfied ejr+ by cost\n\n\
         nobody approves a project that isn't funded, so there is no group to show\n",
        Status::Yes,
    ),
];

#[test]
fn explains_groups(rt: HostRuntime) -> Result<(), Fail> {
    for (measure, election, want, status) in EXPLANATIONS {
        let told = asked(rt.alloc(), Question::ExplainGroups(measure), election)?;
        assert!(rt; told.text.as_slice() == want.as_bytes(), "{want}");
        assert_eq!(rt; told.status, status);
    }
    Ok(())
}
