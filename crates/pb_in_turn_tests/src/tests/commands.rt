//! The commands, over readers and in memory, each with sample files and the answer on them.
use pb_audit::{
    Answer, Fault, FolderStatus, Format, Question, Status, Unmet, answer, folder_text, run_both,
    run_groups, run_prices, run_read, run_refutation, run_tidy, run_violation,
};
use pb_certificate::{Measure, Prices, WriteFault};
use pb_cohesion::{RefutationFailure, ViolationFailure};
use pb_election::{Election, Input, Output};
use pb_price::Mode;
use pb_reply::File;
use pb_samples::files::{
    ELECTION, EXPLAINED, FAIR_VIOLATION, MARGINS, OUTCOME, PRICES, REFUTATION, UNFAIR_ELECTION,
    UNTIDY_PRICES, VIOLATION,
};
use std::alloc::{AllocError, Global};
use std::io::{Read, Write};

/// A command, or a text that is written without inputs.
#[derive(Clone, Copy, Debug, PartialEq, Eq)]
pub enum Command {
    Read,
    Prices,
    Violation,
    Refutation,
    StableRefutation,
    GroupsByCost,
    GroupsByCount,
    Both,
    ExplainPrices,
    ExplainViolation,
    ExplainRefutation,
    ExplainGroups,
    Margins,
    GroupMargins,
    Tidy,
    Folder,
    Canonical,
}

pub const COMMANDS: [Command; 17] = [
    Command::Read,
    Command::Prices,
    Command::Violation,
    Command::Refutation,
    Command::StableRefutation,
    Command::GroupsByCost,
    Command::GroupsByCount,
    Command::Both,
    Command::ExplainPrices,
    Command::ExplainViolation,
    Command::ExplainRefutation,
    Command::ExplainGroups,
    Command::Margins,
    Command::GroupMargins,
    Command::Tidy,
    Command::Folder,
    Command::Canonical,
];

/// The stable form with Cover.
const STABLE_AND_COVERED: Mode = Mode {
    cover: true,
    ..Mode::STABLE
};

/// What the unfair election funds.
const UNFAIR_OUTCOME: &str = "pb-outcome,1\nproject,y\n";

/// The violation of the unfair election explained.
const EXPLAINED_VIOLATION: &str = "\
violation

V1          holds      2 of 4 voters are in the group
V2          holds      each member approves each demanded project
V3          holds      the group's share of the limit is 4.00; the demanded projects cost 4.00
V4          holds      by count the demanded projects are worth 2, and each member gets at most 0
";

/// Two voters want both projects, with a limit of 10, of which a is to be funded.
const SHARING_ELECTION: &str = "\
META
key;value
budget;10
vote_type;approval
PROJECTS
project_id;cost
a;4
c;1
VOTES
voter_id;vote
1;a,c
2;a,c
";

const SHARING_OUTCOME: &str = "pb-outcome,1\nproject,a\n";

/// Each voter offers at least half of its budget, and so much of a is paid: a refutation of stable prices alone.
const SHARING_WEIGHTS: &str = "\
pb-refutation,1
cover,0
role,project,weight
least,a,1
left,c,1
";

/// It explained: each budget counts twice, but once where an offer makes up for a payment.
const EXPLAINED_REFUTATION: &str = "\
unpriceable stable

U1          holds      each row fits whether its project is funded; rows of least: 1, of most: 0, of left: 1
U2          holds      the weights count at most 2 voter budgets if prices are stable, and take 2; for all prices they count at most 4
U3          holds      costs times weights come to 4.00 for least and Cover, whose weight is 0, and to 1.00 for most and left
";

/// The same as an object.
const REFUTATION_OBJECT: &str = "{\"answer\":\"yes\",\"election\":{\"declared_projects\":null,\
    \"declared_voters\":null,\"funded\":null,\"limit\":\"10000000\",\"other_selected\":0,\"projects\":2,\
    \"unused_columns\":[],\"voters\":2},\"failed\":null,\"kind\":\"refutation\",\
    \"outcome\":{\"cost\":\"4000000\",\"funded\":1},\"proves\":\"unpriceable stable\",\"stable\":true,\"tests\":[\
    {\"culprits\":0,\"first\":null,\"holds\":true,\"name\":\"U1\"},\
    {\"counted\":\"4\",\"counted_stable\":\"2\",\"holds\":true,\"name\":\"U2\",\"taken\":\"2\"},\
    {\"at_least\":\"4000000\",\"at_most\":\"1000000\",\"cover\":0,\"holds\":true,\"name\":\"U3\"}],\
    \"version\":1}\n";

/// Both voters got 4, and need 5 of their share of 10.
const GROUPS_OBJECT: &str = "{\"answer\":\"no\",\"election\":{\"declared_projects\":null,\
    \"declared_voters\":null,\"funded\":null,\"limit\":\"10000000\",\"other_selected\":0,\"projects\":2,\
    \"unused_columns\":[],\"voters\":2},\"failed\":{\"name\":\"EJR+\",\"project\":\"c\",\"voter\":null},\"group\":{\
    \"cost\":\"1000000\",\"missing\":{\"denominator\":2,\"numerator\":\"-10000000\"},\"most\":\"4000000\",\
    \"need\":\"5000000\",\"number\":2,\"project\":\"c\",\"share\":{\"denominator\":2,\"numerator\":\"20000000\"},\
    \"supporters\":2,\"voters\":2},\"kind\":\"groups\",\"measure\":\"cost\",\
    \"outcome\":{\"cost\":\"4000000\",\"funded\":1},\"version\":1}\n";

/// Of the sample prices: what each project costs and what is paid for it, and what its supporters have left, of whom each
/// could also offer what it pays for one.
const MARGINS_OBJECT: &str = "{\"answer\":\"yes\",\"election\":{\"declared_projects\":3,\
    \"declared_voters\":3,\"funded\":2,\"limit\":\"10000000\",\"other_selected\":0,\"projects\":3,\
    \"unused_columns\":[],\"voters\":3},\"grains_per_unit\":1000000,\"kind\":\"margins\",\
    \"outcome\":{\"cost\":\"10000000\",\"funded\":2},\"projects\":[\
    {\"cost\":\"6000000\",\"funded\":true,\"left\":\"0\",\"number\":1,\"offer\":\"6000000\",\
    \"paid\":\"6000000\",\"project\":\"a\",\"supporters\":2},\
    {\"cost\":\"4000000\",\"funded\":true,\"left\":\"2000000\",\"number\":2,\"offer\":\"4000000\",\
    \"paid\":\"4000000\",\"project\":\"b\",\"supporters\":2},\
    {\"cost\":\"9000000\",\"funded\":false,\"left\":\"2000000\",\"number\":3,\"offer\":\"2000000\",\
    \"paid\":\"0\",\"project\":\"c\",\"supporters\":1}],\"version\":1}\n";

/// The third voter got one project, so the pool for 9 takes twice 9, and a third of 10 falls to it.
const GROUP_MARGINS_OBJECT: &str = "{\"answer\":\"yes\",\"election\":{\"declared_projects\":3,\
    \"declared_voters\":3,\"funded\":2,\"limit\":\"10000000\",\"other_selected\":0,\"projects\":3,\
    \"unused_columns\":[],\"voters\":3},\"groups\":[{\
    \"cost\":\"9000000\",\"missing\":{\"denominator\":3,\"numerator\":\"44000000\"},\"most\":\"1\",\
    \"need\":\"18000000\",\"number\":3,\"project\":\"c\",\"share\":{\"denominator\":3,\"numerator\":\"10000000\"},\
    \"supporters\":1,\"voters\":1}],\"kind\":\"group_margins\",\"measure\":\"count\",\
    \"outcome\":{\"cost\":\"10000000\",\"funded\":2},\"version\":1}\n";

/// The answer on them explained: of the share of 10 all is over that isn't needed.
const EXPLAINED_GROUPS: &str = "\
failed EJR+ by cost voters 2 project c

Project     2 of 2 voters approve project c, which costs 1.00
Group       2 of these: all who got at most 4.00 by cost
Need        5.00: the cost of the project and the most that a member got
Share       10.00: the equal part of the limit for so many voters
Over        5.00: the share is enough, so the group falls short
";

/// The margins of groups of the sample election by count: the third voter got one project, and has a third of 10.
const GROUP_MARGINS: &str = "\
pb-groups,1
satisfaction,count
denominator,3
project,voters,most,need,share,missing
c,1,1,54000000,10000000,44000000
";

impl Command {
    /// The texts of the election, the outcome file and the certificates, empty where it takes no such input.
    pub fn texts(self) -> [&'static str; 4] {
        match self {
            Command::Read => [ELECTION, "", "", ""],
            Command::Prices => [ELECTION, OUTCOME, PRICES, ""],
            Command::Violation => [UNFAIR_ELECTION, UNFAIR_OUTCOME, VIOLATION, ""],
            Command::Refutation => [ELECTION, OUTCOME, REFUTATION, ""],
            Command::StableRefutation | Command::ExplainRefutation => {
                [SHARING_ELECTION, SHARING_OUTCOME, SHARING_WEIGHTS, ""]
            }
            Command::GroupsByCost | Command::ExplainGroups => {
                [SHARING_ELECTION, SHARING_OUTCOME, "", ""]
            }
            Command::GroupsByCount | Command::GroupMargins => [ELECTION, OUTCOME, "", ""],
            Command::Both => [ELECTION, OUTCOME, PRICES, FAIR_VIOLATION],
            Command::ExplainPrices => [ELECTION, OUTCOME, PRICES, ""],
            Command::ExplainViolation => [UNFAIR_ELECTION, UNFAIR_OUTCOME, VIOLATION, ""],
            Command::Margins => [ELECTION, OUTCOME, PRICES, ""],
            Command::Tidy => [ELECTION, "", UNTIDY_PRICES, ""],
            Command::Folder | Command::Canonical => [""; 4],
        }
    }

    /// What it answers on them.
    pub fn answer(self) -> &'static str {
        match self {
            Command::Read => "read 3 voters 3 projects 2 funded\n",
            Command::Prices => "supported priceable\n",
            Command::Violation => "violation\n",
            Command::Refutation => "failed U2\n",
            Command::StableRefutation => "unpriceable stable\n",
            Command::GroupsByCost => "failed EJR+ by cost voters 2 project c\n",
            Command::GroupsByCount => "satisfied ejr+ by count\n",
            Command::Both => "supported stable\nfailed V4 voter 1\n",
            Command::ExplainPrices => EXPLAINED,
            Command::ExplainViolation => EXPLAINED_VIOLATION,
            Command::ExplainRefutation => EXPLAINED_REFUTATION,
            Command::ExplainGroups => EXPLAINED_GROUPS,
            Command::Margins => MARGINS,
            Command::GroupMargins => GROUP_MARGINS,
            Command::Tidy | Command::Canonical => PRICES,
            Command::Folder => "total 0 elections 0 yes 0 no 0 refused\n",
        }
    }

    /// How that ends.
    pub fn status(self) -> Status {
        match self {
            Command::Both => Status::No(Unmet::Violation(ViolationFailure::V4(1))),
            Command::Refutation => Status::No(Unmet::Refutation(RefutationFailure::U2)),
            Command::GroupsByCost | Command::ExplainGroups => Status::No(Unmet::Groups {
                project: 2,
                voters: 2,
            }),
            _ => Status::Yes,
        }
    }

    /// What it asks, where it asks something.
    fn question(self) -> Option<Question> {
        Some(match self {
            Command::Read => Question::Read,
            Command::Prices => Question::Prices(Mode::PLAIN),
            Command::Violation => Question::Violation,
            Command::Refutation => Question::Refutation(false),
            Command::StableRefutation => Question::Refutation(true),
            Command::GroupsByCost => Question::Groups(Measure::ByCost),
            Command::GroupsByCount => Question::Groups(Measure::ByCount),
            Command::Both => Question::Both(STABLE_AND_COVERED),
            Command::ExplainPrices | Command::ExplainViolation => Question::Explain(Mode::PLAIN),
            Command::ExplainRefutation => Question::Explain(Mode::STABLE),
            Command::ExplainGroups => Question::ExplainGroups(Measure::ByCost),
            Command::Margins => Question::Margins,
            Command::GroupMargins => Question::GroupMargins(Measure::ByCount),
            Command::Tidy => Question::Tidy,
            Command::Folder | Command::Canonical => return None,
        })
    }

    /// How it ends on these inputs, of which it takes those that it needs, and on this writer.
    pub fn run<R: Read + Drop, W: Write>(
        self,
        alloc: Global,
        inputs: (R, R, R, R),
        out: &mut Output<W>,
    ) -> Result<Status, Fault> {
        let (election, outcome, first, second) = inputs;
        let mut election = Input::new(election);
        let mut outcome = Some(Input::new(outcome));
        let mut first = Input::new(first);
        let mut second = Input::new(second);
        let (e, o) = (&mut election, &mut outcome);
        let (c, v) = (&mut first, &mut second);
        match (self, self.question()) {
            (Command::Read, _) => run_read(alloc, e, out),
            (Command::Prices, _) => run_prices(alloc, e, o, c, Mode::PLAIN, out),
            (Command::Violation, _) => run_violation(alloc, e, o, c, out),
            (Command::Refutation, _) => run_refutation(alloc, e, o, c, false, out),
            (Command::StableRefutation, _) => run_refutation(alloc, e, o, c, true, out),
            (Command::GroupsByCost, _) => run_groups(alloc, e, o, Measure::ByCost, out),
            (Command::GroupsByCount, _) => run_groups(alloc, e, o, Measure::ByCount, out),
            (Command::Both, _) => run_both(alloc, e, o, c, v, STABLE_AND_COVERED, out),
            (Command::Tidy, _) => run_tidy(alloc, e, c, out),
            (Command::Folder, _) => write_report(alloc, out),
            (_, Some(question)) => {
                let mut notes = Vec::new(alloc);
                answer(alloc, Format::Lines, question, e, o, c, v, &mut notes)?.write(out)
            }
            (_, None) => write_canonical(alloc, out),
        }
    }

    /// How the text begins that it answers as an object. Canonical texts stay what they are.
    pub fn object(self) -> &'static str {
        match self {
            Command::Read => {
                "{\"answer\":\"yes\",\"election\":{\"declared_projects\":3,\"declared_voters\":3,\
                 \"funded\":2,\"limit\":\"10000000\",\"other_selected\":0,\"projects\":3,\
                 \"unused_columns\":[],\"voters\":3},\"kind\":\"election\",\"version\":1}\n"
            }
            Command::Prices | Command::ExplainPrices => {
                "{\"answer\":\"yes\",\"budgets\":\"12000000\",\"conditions\":[{\"asked\":true,"
            }
            Command::Violation | Command::ExplainViolation => {
                "{\"answer\":\"yes\",\"election\":{"
            }
            Command::Refutation => "{\"answer\":\"no\",\"election\":{",
            Command::StableRefutation | Command::ExplainRefutation => REFUTATION_OBJECT,
            Command::GroupsByCost | Command::ExplainGroups => GROUPS_OBJECT,
            Command::GroupsByCount => "{\"answer\":\"yes\",\"election\":{",
            Command::Both => "{\"answer\":\"no\",\"kind\":\"both\",\"prices\":{\"answer\":\"yes\",",
            Command::Margins => MARGINS_OBJECT,
            Command::GroupMargins => GROUP_MARGINS_OBJECT,
            _ => self.answer(),
        }
    }

    /// What it answers in a format on its texts as files in memory, where it asks something.
    pub fn answer_in_memory(
        self,
        alloc: Global,
        format: Format,
    ) -> Result<Option<Answer<Status>>, AllocError> {
        let Some(question) = self.question() else {
            return Ok(None);
        };
        let [election, outcome, first, second] = self.texts();
        let mut outcome = Some(File::in_memory(outcome.as_bytes()));
        let mut notes = Vec::new(alloc);
        let answer = answer(
            alloc,
            format,
            question,
            &mut File::in_memory(election.as_bytes()),
            &mut outcome,
            &mut File::in_memory(first.as_bytes()),
            &mut File::in_memory(second.as_bytes()),
            &mut notes,
        )?;
        Ok(Some(answer))
    }
}

/// How it ends to write the report on an empty folder.
fn write_report<W: Write>(alloc: Global, out: &mut Output<W>) -> Result<Status, Fault> {
    let Ok(report) = folder_text(alloc, &[], Mode::PLAIN) else {
        return Err(Fault::Memory);
    };
    match report.write(out)? {
        FolderStatus::AllYes => Ok(Status::Yes),
        _ => Err(Fault::Memory),
    }
}

/// How it ends to write the sample prices by the call of the library.
fn write_canonical<W: Write>(alloc: Global, out: &mut Output<W>) -> Result<Status, Fault> {
    let Ok(election) = Election::read(alloc, ELECTION.as_bytes()) else {
        return Err(Fault::Memory);
    };
    match Prices::read(alloc, PRICES.as_bytes(), &election) {
        Ok(prices) if prices.fits(&election) => match prices.write(alloc, &election, out) {
            Ok(()) => Ok(Status::Yes),
            Err(WriteFault::Write) => Err(Fault::Write),
            Err(WriteFault::Memory) => Err(Fault::Memory),
        },
        _ => Err(Fault::Memory),
    }
}
