//! Sample files.
use std::alloc::{AllocError, Global};

/// The sample election: 17 lines, which are its records.
pub const ELECTION: &str = "\
META
key;value
description;Sample
num_projects;3
num_votes;3
budget;10
vote_type;approval
PROJECTS
project_id;cost;name;selected
a;6;Park;1
b;4;Library;1
c;9;Pool;0
VOTES
voter_id;vote
1;a,b
2;a
3;b,c
";

/// A refutation of prices for what the sample election funds, which fails: 6 lines, which are its records.
pub const REFUTATION: &str = "\
pb-refutation,1
cover,0
role,project,weight
least,a,2
most,b,1
left,c,1
";

/// An election with one project and no voters.
pub const NO_VOTERS: &str = "\
META
key;value
budget;0
vote_type;approval
PROJECTS
project_id;cost;selected
x;0;1
VOTES
voter_id;vote
";

/// A price certificate for the sample election: 8 lines, which are its records.
pub const PRICES: &str = "\
pb-prices,1
denominator,1
voter_budget,4
voter,project,payment
1,a,2
1,b,2
2,a,4
3,b,2
";

/// An outcome file that funds what the sample election funds.
pub const OUTCOME: &str = "pb-outcome,1\nproject,a\nproject,b\n";

/// An outcome file for the sample election that funds c alone.
pub const POOL_OUTCOME: &str = "pb-outcome,1\nproject,c\n";

/// A price certificate for any election, by which the voters have nothing.
pub const NO_MONEY: &str = "\
pb-prices,1
denominator,1
voter_budget,0
voter,project,payment
";

/// The sample prices with blanks, leading zeros, an empty line, empty fields at the end, a payment of 0, and a voter's
/// rows in another order.
pub const UNTIDY_PRICES: &str = "\
pb-prices, 1
denominator,1
voter_budget,04

voter,project,payment
1,b,2
1,a,002
2,a,4,,
2,b,0
3,b,2
";

/// A violation certificate for the sample election that shows none.
pub const FAIR_VIOLATION: &str = "\
pb-violation,1
project,b
voter,3
voter,1
";

/// The sample prices explained. Each voter has 4. Voter 1 pays 2 and 2, voter 2 pays 4, and voter 3 pays 2 and has 2
/// left. Only voter 3 approves the unfunded project, and gets the library.
pub const EXPLAINED: &str = "\
supported priceable

Feasible    holds      the funded projects cost 10.00; the limit is 10.00
Exhaustive  holds      0.00 of the limit remains; the cheapest unfunded project, c, costs 9.00
Cover       not asked  with --cover it holds: all voter budgets come to 12.00 together; the limit is 10.00
C1          holds      no voter pays for a project that isn't on its ballot
C2          holds      voter 1 spends most, 4.00 of its budget of 4.00
C3          holds      each funded project is paid for exactly
C4          holds      nothing is paid for an unfunded project
C5          holds      project c, the closest, costs 9.00, and its supporters' leftovers come to 2.00
S5          not asked  with --stable it holds: project c, the closest, costs 9.00, and its supporters' offers come to 2.00

take any voters who all approve an unfunded project: their equal part of the limit is less than that project's cost plus the cost of all funded projects that at least one of them approves
nearest to that comes project c: the share of its 1 supporters is 3 1/3, it costs 9.00, and 4.00 was funded for them
";

/// The table of margins by these prices. Each voter has 4. Voter 1 pays 2 and 2, voter 2 pays 4, and
/// voter 3 pays 2 and has 2 left.
pub const MARGINS: &str = "\
pb-margins,1
grains_per_unit,1000000
project,funded,supporters,cost,paid,left,offer
a,1,2,6000000,6000000,0,6000000
b,1,2,4000000,4000000,2000000,4000000
c,0,1,9000000,0,2000000,2000000
";

/// The sample election, where a is named a"1.
pub const QUOTED_ELECTION: &str = "\
META
key;value
description;Sample
num_projects;3
num_votes;3
budget;10
vote_type;approval
PROJECTS
project_id;cost;name;selected
a\"1;6;Park;1
b;4;Library;1
c;9;Pool;0
VOTES
voter_id;vote
1;a\"1,b
2;a\"1
3;b,c
";

/// The price certificate of the sample election, where a is named a"1.
pub const QUOTED_PRICES: &str = "\
pb-prices,1
denominator,1
voter_budget,4
voter,project,payment
1,\"a\"\"1\",2
1,b,2
2,\"a\"\"1\",4
3,b,2
";

/// An election in which half of the voters get nothing.
pub const UNFAIR_ELECTION: &str = "\
META
key;value
budget;8
vote_type;approval
PROJECTS
project_id;cost;selected
x1;2;0
x2;2;0
y;8;1
VOTES
voter_id;vote
1;x1,x2
2;x1,x2
3;y
4;y
";

/// A violation certificate for it: 5 lines, which are its records.
pub const VIOLATION: &str = "\
pb-violation,1
project,x1
project,x2
voter,1
voter,2
";

/// The same election where voters 1 and 2 approve y too, and so get something, but less than they deserve.
pub const SMALL_SHARE_ELECTION: &str = "\
META
key;value
budget;8
vote_type;approval
PROJECTS
project_id;cost;selected
x1;2;0
x2;2;0
y;8;1
VOTES
voter_id;vote
1;x1,x2,y
2;x1,x2,y
3;y
4;y
";

/// An election in which a cheap project is funded and a dear one isn't.
pub const DEAR_ELECTION: &str = "\
META
key;value
budget;12
vote_type;approval
PROJECTS
project_id;cost;selected
s;1;1
t;6;0
VOTES
voter_id;vote
1;s,t
2;s
";

/// The sample election without its column `selected`.
pub fn without_outcome(alloc: Global) -> Result<String, AllocError> {
    ELECTION.replace(alloc, "name;selected", "name")
}

/// The text of a price certificate.
pub fn certificate(
    alloc: Global,
    denominator: &str,
    budget: &str,
    rows: &str,
) -> Result<String, AllocError> {
    format!(in alloc;
        "pb-prices,1\ndenominator,{denominator}\nvoter_budget,{budget}\nvoter,project,payment\n{rows}"
    )
}

/// An election with this limit, the rows `id;cost;selected` of its projects, and the ballots of voters 1, 2 and so on, each
/// behind a blank; `-` is an empty ballot.
pub fn town(
    alloc: Global,
    limit: &str,
    projects: &str,
    ballots: &str,
) -> Result<String, AllocError> {
    let mut text = format!(in alloc;
        "META\nkey;value\nbudget;{limit}\nvote_type;approval\nPROJECTS\nproject_id;cost;selected\n"
    )?;
    for project in projects.split(' ') {
        writeln!(text, "{project}")?;
    }
    text.push_str("VOTES\nvoter_id;vote\n")?;
    for ballot in ballots.split(' ') {
        writeln!(text, "v;{}", if ballot == "-" { "" } else { ballot })?;
    }
    Ok(text)
}

/// The text of a refutation.
pub fn refutation(alloc: Global, cover: &str, rows: &str) -> Result<String, AllocError> {
    let mut text = format!(in alloc; "pb-refutation,1\ncover,{cover}\nrole,project,weight\n")?;
    for row in rows.split(' ') {
        writeln!(text, "{row}")?;
    }
    Ok(text)
}
