//! The longer texts of help, each shown after the list of arguments.

/// What the program does as a whole.
pub(crate) const PROGRAM_NOTES: &str = "\
Without a command, pbaudit reads an election from standard input. At a terminal
it waits for one: type or paste it, and end it with Ctrl-D on a line of its own.

A path that begins with '-' needs '--' before it: pbaudit read -- -town.pb

With --json a command that has it prints one JSON object in a line, for other
programs, also where a file is refused.

Exit statuses:
  0  yes: the answer is yes, or what was asked for is printed
  1  no: a condition or a test failed; the first one is printed
  2  refused: a file has an error or cannot be read; the first error is printed
  3  usage: the arguments were not understood
  4  error: out of memory, or the answer could not be written

Examples:
  pbaudit read town.pb
  pbaudit < town.pb
  pbaudit groups town.pb
  pbaudit prices town.pb town.prices.csv --stable
  pbaudit violation town.pb town.violation.csv
  pbaudit refutation town.pb town.refutation.csv
  pbaudit both town.pb town.prices.csv town.violation.csv --stable --cover
  pbaudit explain town.pb town.prices.csv --stable
  pbaudit explain town.pb town.prices.csv --stable --json
  pbaudit explain town.pb --groups
  pbaudit page town.pb town.prices.csv --stable > page.html
  pbaudit margins town.pb town.prices.csv > margins.csv
  pbaudit margins town.pb --groups > groups.csv
  pbaudit tidy town.pb town.prices.csv > canonical.csv
  pbaudit folder elections";

/// What `read` prints.
pub(crate) const READ_NOTES: &str = "\
Prints how many voters, projects and funded projects an election has. A project
is funded if it has a 1 in the column 'selected'; without that column the
election has no outcome. Notes follow if the file declares another number of
projects or votes than it has, if 'selected' is neither 0 nor 1 somewhere, and
on columns 'weight', 'points' or 'sign' of the votes, which aren't used.

A file that is not an election with approval ballots is refused. The line names
the first error and its record, counted from 1 without empty lines:
  refused election 9 BadMoney record 6

With --json it prints one JSON object in a line instead, which also has the
budget limit.

Exit statuses: 0 read, 2 refused, 3 usage, 4 error.

Examples:
  pbaudit read town.pb
  pbaudit read town.pb --json";

/// What `groups` decides.
pub(crate) const GROUPS_NOTES: &str = "\
Needs no certificate: the election and its outcome decide it. Take any group of
voters who all approve an unfunded project. The group falls short for it if its
share of the budget limit, in proportion to its size, would have been enough for
the project on top of what any one of its voters got: for what the project costs
and the funded projects on that voter's own ballot cost, together. An outcome
for which no group falls short satisfies extended justified representation up to
any project (EJR+).
With --satisfaction count the share is compared with the cost of the project
for each funded project on that voter's ballot, and once more.

Prints 'satisfied ejr+ by cost', or how many voters the largest group has that
falls short for a project, and the first such project by its row:
  failed EJR+ by cost voters 120 project park
With --satisfaction count the lines say 'by count'.

A yes doesn't exclude a violation of EJR, says nothing of prices, and doesn't
look at the budget limit: a note follows if the funded projects cost more. A no
doesn't say that the project could simply be added.

An outcome file has the record pb-outcome,1 and then a record project,ID for
each funded project.

With --json it prints one JSON object in a line instead.

Exit statuses: 0 satisfied, 1 failed, 2 refused, 3 usage, 4 error.

Examples:
  pbaudit groups town.pb
  pbaudit groups town.pb --satisfaction count --outcome town.outcome.csv
  pbaudit groups town.pb --json";

/// What `prices` checks.
pub(crate) const PRICES_NOTES: &str = "\
A price certificate gives every voter the same budget and says what each voter
pays for each project, all as whole numbers over one denominator:
  pb-prices,1
  denominator,2
  voter_budget,9
  voter,project,payment
  1,park,3
Here every voter has a budget of 9/2, and voter 1 pays 3/2 for the project
'park'. Voters are numbered from 1 by their rows in the election, whatever its
column 'voter_id' says, and the payments are in the order of their voters. The
denominator is at most 1000000000. The certificate supports the outcome if these
conditions hold, which are tried in this order:
  Feasible    the funded projects cost no more than the budget limit in all
  Exhaustive  no unfunded project still fits within the budget limit
  Cover       the budgets of all voters add up to more than the budget limit
  C1          voters pay only for projects on their own ballots
  C2          no voter pays more than the voter budget in all
  C3          the payments for each funded project add up to its cost
  C4          nobody pays for an unfunded project
  C5          what the supporters of an unfunded project have left over adds up
              to no more than its cost
  S5          the same as C5, but a supporter's largest single payment counts
              instead of what is left over if it is more
C5 is tried without --stable and S5 with it, Exhaustive unless --no-exhaustive
is given, and Cover only with --cover. The supporters of a project are the
voters who approve it.

Prints 'supported priceable' or 'supported stable', or the first condition that
fails. If that names a voter or a project, it is the first voter and then the
first project, by their rows in the election, at which the condition fails:
  failed C5 project pool
A no by C1 or a later condition is about these payments only: others may support
the outcome. That none do, or none with Cover, is what a refutation proves.

An outcome file has the record pb-outcome,1 and then a record project,ID for
each funded project.

With --json it prints one JSON object in a line instead, which also has what
'explain' finds of each condition.

Exit statuses: 0 supported, 1 failed, 2 refused, 3 usage, 4 error.

Examples:
  pbaudit prices town.pb town.prices.csv
  pbaudit prices town.pb town.prices.csv --stable --outcome town.outcome.csv
  pbaudit prices town.pb town.prices.csv --json";

/// What `violation` tests.
pub(crate) const VIOLATION_NOTES: &str = "\
A violation certificate is a file of records such as
  pb-violation,1
  project,park
  voter,1
  voter,2
Its voters are the group, numbered from 1 by their rows in the election; its
projects are the demand, named by their ids. They show a violation of extended
justified representation (EJR) if all of these tests are passed, which are tried
in this order:
  V1  the group has at least one voter
  V2  every voter of the group approves every project of the demand
  V3  the group's share of the budget limit, in proportion to its size, covers
      the cost of the demand
  V4  for every voter of the group, the funded projects that the voter approves
      are worth less than the demand
Each project is worth 1, unless the certificate measures by cost: then each is
worth what it costs. Such a certificate begins with these two records:
  pb-violation,2
  satisfaction,cost

Prints 'violation', or the first test that fails. If that names a voter or a
project, it is the first voter and then the first project at which it fails:
  failed V2 voter 1 project park
A no is about this group and demand only: others may be a violation.

An outcome file has the record pb-outcome,1 and then a record project,ID for
each funded project.

With --json it prints one JSON object in a line instead, which also has what
'explain' finds of each test.

Exit statuses: 0 violation, 1 failed, 2 refused, 3 usage, 4 error.

Examples:
  pbaudit violation town.pb town.violation.csv
  pbaudit violation town.pb town.violation.csv --outcome town.outcome.csv
  pbaudit violation town.pb town.violation.csv --json";

/// What `refutation` tests.
pub(crate) const REFUTATION_NOTES: &str = "\
A refutation gives projects weights. If all tests below are passed, they prove
that no prices support the outcome, whatever the voter budget is: where the
weight behind 'cover' is 0, no prices in any mode; where it is more, no prices
with the condition Cover. It is a file of records such as
  pb-refutation,1
  cover,0
  role,project,weight
  least,park,2
  most,garden,1
  left,pool,1
A row 'least' or 'most' names a funded project, and a row 'left' an unfunded
one, by its id, each project at most once. A project without a row has weight 0.
The weights are whole numbers of at most 1000000000000, and so is the number
behind 'cover', the weight of the condition Cover. The tests, tried in this
order:
  U1  no row 'least' or 'most' names an unfunded project, and no row 'left' a
      funded one
  U2  the gains of all voters, with the weight of Cover for each voter, add up
      to no more than the weights of the unfunded projects, each times the
      number of its supporters
  U3  the costs of the rows 'least', each times its weight, with the budget
      limit times the weight of Cover, add up to more than the costs of the rows
      'most' and 'left', each times its weight; to as much, if that is enough
      because the weight of Cover is more than 0
A voter's gain is what the unfunded projects on the ballot weigh together, with
the weight of one funded project on the ballot added for 'least' or taken off
for 'most': the project for which that comes to most. It is 0 where that is less
than 0, and where no project on the ballot is funded.

Prints 'unpriceable' if the weight of Cover is 0, and 'unpriceable cover' if it
is more: then no payments support the outcome with voter budgets that add up to
more than the budget limit, and others may. Otherwise it prints the first test
that fails, and for U1 the first project at which it fails:
  failed U1 project park
A no is about these weights only: others may prove it.

With --stable, weights that don't prove it may still prove that no stable prices
support the outcome, those of 'prices --stable'. Then 'unpriceable stable' or
'unpriceable stable cover' is printed, and otherwise the first test that fails,
U2 with a smaller gain: the least whole number such that what the funded
projects on the ballot come to above it, added up, is no more than that number,
and no more than the unfunded projects on the ballot weigh together. A funded
project comes to what these weigh, with its own weight added for 'least' or taken
off for 'most'.

An outcome file has the record pb-outcome,1 and then a record project,ID for
each funded project.

With --json it prints one JSON object in a line instead, which also has what
'explain' finds of each test.

Exit statuses: 0 unpriceable, 1 failed, 2 refused, 3 usage, 4 error.

Examples:
  pbaudit refutation town.pb town.refutation.csv
  pbaudit refutation town.pb town.refutation.csv --stable
  pbaudit refutation town.pb town.refutation.csv --outcome town.outcome.csv
  pbaudit refutation town.pb town.refutation.csv --json";

/// What `both` checks.
pub(crate) const BOTH_NOTES: &str = "\
Checks a price certificate as 'prices' does, and a violation certificate as
'violation' does, for the same election and outcome. Prints a line for each, the
one on the prices first:
  supported stable
  failed V4 voter 1
With --stable and --cover, 'supported stable' and 'violation' are never printed
together if the violation certificate counts projects: such prices prove that no
group and demand are a violation by count. In other modes, and by cost, both may
be a yes.

The files are read in this order: the election, the outcome file, the price
certificate, the violation certificate. If one is refused, the only line is
about the first such file, and it calls the certificates 'prices' and
'violation':
  refused violation 21 BadHead record 1

With --json it prints one JSON object in a line instead, which has the objects
that 'prices' and 'violation' print.

Exit statuses: 0 supported and a violation, 1 a condition or a test failed,
2 refused, 3 usage, 4 error.

Examples:
  pbaudit both town.pb town.prices.csv town.violation.csv --stable --cover
  pbaudit both town.pb town.prices.csv town.violation.csv --outcome other.csv
  pbaudit both town.pb town.prices.csv town.violation.csv --json";

/// What `explain` prints.
pub(crate) const EXPLAIN_NOTES: &str = "\
Prints the line that 'prices' prints, or 'violation' for a certificate whose
first record is pb-violation,1 or pb-violation,2, or 'refutation' for one whose
first record is pb-refutation,1. An empty line follows, and then a line for each
condition or test, with the figures that it compares:
  failed C5 project pool

  Feasible    holds      the funded projects cost 12.00; the limit is 20.00
  Exhaustive  holds      8.00 of the limit remains; the cheapest unfunded [...]
Those after the first that fails have their figures too, and so do those that
were not asked for, each with how to ask for it.

Where a condition fails, the figures are those of the first voter or project at
which it fails, and the number of these follows in brackets. Where it holds,
they are those of the voter or project that comes closest to failing, if there
is one.

All figures are exact: an amount is a decimal with two to six places if that is
exact, and otherwise a whole number and a fraction, such as 12865 1/3.

The options --no-exhaustive and --cover matter only for prices, and --stable only
for prices and for a refutation, as for 'refutation'. The outcome is as for
'prices', and so is the answer if a file is refused.

With --groups instead of a certificate it prints the line that 'groups' prints,
an empty line, and the figures of one group: after a no the largest that
falls short for the project, and after a yes the one that comes closest to it:
  failed EJR+ by cost voters 2 project pool

  Project     2 of 3 voters approve project pool, which costs 4.00
  Group       2 of these: all who got at most 0.00 by cost
  Need        4.00: the cost of the project and the most that a member got
  Share       4.00: the equal part of the limit for so many voters
  Over        0.00: the share is enough, so the group falls short
The option --satisfaction is as for 'groups'. One of --groups and a certificate is
needed, and not both.

With --json it prints one JSON object in a line instead: the one of 'prices',
'violation', 'refutation' or 'groups'.

Exit statuses: 0 supported, a violation, unpriceable or satisfied, 1 a condition
or a test failed, 2 refused, 3 usage, 4 error.

Examples:
  pbaudit explain town.pb town.prices.csv
  pbaudit explain town.pb town.prices.csv --stable --cover
  pbaudit explain town.pb town.refutation.csv
  pbaudit explain town.pb town.violation.csv --outcome town.outcome.csv
  pbaudit explain town.pb town.prices.csv --json
  pbaudit explain town.pb --groups --satisfaction count";

/// What `page` prints.
pub(crate) const PAGE_NOTES: &str = "\
Prints one HTML file that says in plain words what 'explain' finds: the answer
in a sentence, the projects with their figures, each condition or test, and the
files with their SHA-256 sums. It has no script and loads nothing, so it can be
opened in any browser, sent, or printed. With --groups in the certificate's place
it says whether a group of voters falls short, as 'groups' does, with the group of
each project that was not funded; --satisfaction count counts projects.

The language is English (en), Polish (pl), German (de) or French (fr), and
English if none is given.

The options --no-exhaustive and --cover matter only for prices, and --stable only
for prices and for a refutation, as for 'refutation'. The outcome is as for
'prices'. If a file is refused, the line that 'explain' prints is printed, and no
page.

Exit statuses: 0 supported, a violation, unpriceable or no group falls short, 1 a
condition or a test failed or a group falls short, 2 refused, 3 usage, 4 error.

Examples:
  pbaudit page town.pb town.prices.csv > page.html
  pbaudit page town.pb town.violation.csv --language pl > page.html
  pbaudit page town.pb --groups > groups.html";

/// What `margins` prints.
pub(crate) const MARGINS_NOTES: &str = "\
Prints a CSV file with a row for each project, in the order of the election:
  pb-margins,1
  grains_per_unit,2000000
  project,funded,supporters,cost,paid,left,offer
  park,1,2,24000000,24000000,12000000,24000000
  pool,0,2,40000000,0,24000000,30000000
All amounts are whole numbers of grains, so that nothing is rounded. One unit of
the currency has as many grains as the second record says: 1000000 times the
denominator of the certificate. Here the park costs 24000000/2000000 = 12.
  funded      1 where the project is funded, and 0 where it is not
  supporters  how many voters approve it
  cost        what it costs
  paid        what all voters pay for it
  left        what its supporters have left over, which may be less than 0
  offer       the same, but a supporter's largest single payment counts instead
              of what is left over if it is more
In these figures C3 asks that 'paid' is 'cost' where 'funded' is 1. Where it is
0, C4 asks that 'paid' is 0, C5 that 'left' is no more than 'cost', and S5 that
'offer' is no more than 'cost'.

With --groups instead of a certificate there is a row for each project
that isn't funded and that somebody approves. It is about the largest group that
falls short for the project, as for 'groups', and where none does about the one
that comes closest:
  pb-groups,1
  satisfaction,cost
  denominator,3
  project,voters,most,need,share,missing
  pool,2,0,12000000,12000000,0
  voters   how many voters the group has: all supporters who got at most 'most'
  most     the most that a member got: in millionths of a unit, or with
           --satisfaction count how many projects
  need     what the group's share of the budget limit has to come to
  share    what it comes to
  missing  'need' less 'share', which is more than 0 only where no group falls
           short
Need, share and missing are whole numbers of millionths over the denominator,
the number of voters. Here the pool needs 12000000/3 millionths, which is 4.

With --json it prints one JSON object in a line instead, in which 'need' is in
millionths.

If a file is refused, a line is printed instead of the table, as with 'prices'.
The table is printed whether or not the certificate supports the outcome, and
whether or not a group falls short.

Exit statuses: 0 printed, 2 refused, 3 usage, 4 error.

Examples:
  pbaudit margins town.pb town.prices.csv > margins.csv
  pbaudit margins town.pb town.prices.csv --outcome town.outcome.csv
  pbaudit margins town.pb --groups --satisfaction count > groups.csv
  pbaudit margins town.pb town.prices.csv --json";

/// What `tidy` prints.
pub(crate) const TIDY_NOTES: &str = "\
A price certificate is a file of records such as
  pb-prices,1
  denominator,2
  voter_budget,9
  voter,project,payment
  1,park,3
  2,park,9
Here every voter has a budget of 9/2, voter 1 pays 3/2 for the project 'park'
and voter 2 pays 9/2. Voters are numbered from 1 by their rows in the election,
whatever its column 'voter_id' says.

The canonical form has a row for each payment that is not 0, ordered by voter
and then by project as in the election, and no number has leading zeros. It
states the same denominator, voter budget and payments.

A file that is not an election, or not a price certificate for it, is refused.
The line names the first error and its record, counted from 1 without empty
lines:
  refused certificate 27 Repeated record 6

Exit statuses: 0 printed, 2 refused, 3 usage, 4 error.

Example:
  pbaudit tidy town.pb town.prices.csv > canonical.csv";

/// What `folder` audits.
pub(crate) const FOLDER_NOTES: &str = "\
Files that belong together have the same name before their endings. In a folder
with these files
  krakow-2023.pb
  krakow-2023.prices.csv
  krakow-2023.violation.csv
  lodz-2022.pb
  lodz-2022.prices.csv
  notes.txt
there are two elections: krakow-2023 has a price certificate and a violation
certificate, and lodz-2022 has a price certificate. Other files are ignored, and
so are folders, links and refutations, which 'refutation' audits one by one.

The elections are audited in the order of their names, byte by byte. For each
there is a line, as with 'read' but without notes, and if it is accepted a line
for each of its certificates, as with 'prices' and 'violation'. Each line begins
with the name of the file. The last line counts the elections, the certificates
answered yes, those answered no, and the refused files:
  krakow-2023.pb: read 3 voters 3 projects 2 funded
  krakow-2023.prices.csv: supported priceable
  krakow-2023.violation.csv: failed V4 voter 1
  lodz-2022.pb: refused election 2 NoMeta record 1
  total 2 elections 1 yes 1 no 1 refused
With --json there is an object for each election in place of its lines, with its
name and the objects of its answers, and one for the total, a line each. The
outcomes are those that the elections state: outcome files are not used.

Exit statuses: 0 nothing refused and no certificate failed, 1 nothing refused
and a certificate failed, 2 a file is refused, 3 usage, 4 error.

Example:
  pbaudit folder elections --stable";
