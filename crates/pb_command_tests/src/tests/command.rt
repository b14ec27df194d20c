//! Lines of words, and what each asks for.
use pb_command::{UsageFault, task_of};
use std::alloc::{AllocError, Global};
use std::test::Fail;

fn words(alloc: Global, line: &str) -> Result<Vec<String>, AllocError> {
    let mut list = Vec::new(alloc);
    for word in line.split(' ') {
        list.push(String::from_str(alloc, word)?)?;
    }
    Ok(list)
}

/// The task, or the fault's name and text.
fn shown(alloc: Global, line: &str) -> Result<String, AllocError> {
    match task_of(alloc, words(alloc, line)?) {
        Ok(task) => format!(in alloc; "{task:?}"),
        Err(UsageFault::Help(text)) => format!(in alloc; "help\n{text}"),
        Err(UsageFault::Usage(text)) => format!(in alloc; "usage\n{text}"),
        Err(UsageFault::Memory) => Err(AllocError {}),
    }
}

#[test]
fn gives_each_task(rt: HostRuntime) -> Result<(), Fail> {
    let alloc = rt.alloc();
    for (line, want) in [
        ("pbaudit", "Read { election: None, json: false }"),
        (
            "pbaudit read e.pb",
            "Read { election: Some(\"e.pb\"), json: false }",
        ),
        (
            "pbaudit read -- -e.pb",
            "Read { election: Some(\"-e.pb\"), json: false }",
        ),
        (
            "pbaudit prices e.pb c.csv --stable",
            "Prices { inputs: Inputs { election: \"e.pb\", certificate: \"c.csv\", outcome: None, json: false }, mode: Mode { stable: true, exhaustive: true, cover: false } }",
        ),
        (
            "pbaudit prices e.pb c.csv --cover",
            "Prices { inputs: Inputs { election: \"e.pb\", certificate: \"c.csv\", outcome: None, json: false }, mode: Mode { stable: false, exhaustive: true, cover: true } }",
        ),
        (
            "pbaudit prices --no-exhaustive --outcome o.csv -- -e.pb -c.csv",
            "Prices { inputs: Inputs { election: \"-e.pb\", certificate: \"-c.csv\", outcome: Some(\"o.csv\"), json: false }, mode: Mode { stable: false, exhaustive: false, cover: false } }",
        ),
        (
            "pbaudit violation e.pb v.csv --outcome=o.csv",
            "Violation(Inputs { election: \"e.pb\", certificate: \"v.csv\", outcome: Some(\"o.csv\"), json: false })",
        ),
        (
            "pbaudit refutation e.pb r.csv",
            "Refutation { inputs: Inputs { election: \"e.pb\", certificate: \"r.csv\", outcome: None, json: false }, stable: false }",
        ),
        (
            "pbaudit refutation --outcome o.csv -- -e.pb -r.csv",
            "Refutation { inputs: Inputs { election: \"-e.pb\", certificate: \"-r.csv\", outcome: Some(\"o.csv\"), json: false }, stable: false }",
        ),
        (
            "pbaudit refutation e.pb --stable r.csv --json",
            "Refutation { inputs: Inputs { election: \"e.pb\", certificate: \"r.csv\", outcome: None, json: true }, stable: true }",
        ),
        (
            "pbaudit groups e.pb",
            "Groups { inputs: OutcomeInputs { election: \"e.pb\", outcome: None, json: false }, measure: ByCost }",
        ),
        (
            "pbaudit groups e.pb --satisfaction cost --outcome o.csv",
            "Groups { inputs: OutcomeInputs { election: \"e.pb\", outcome: Some(\"o.csv\"), json: false }, measure: ByCost }",
        ),
        (
            "pbaudit groups --json --satisfaction=count -- -e.pb",
            "Groups { inputs: OutcomeInputs { election: \"-e.pb\", outcome: None, json: true }, measure: ByCount }",
        ),
        (
            "pbaudit both e.pb p.csv v.csv --stable --cover",
            "Both { inputs: Inputs { election: \"e.pb\", certificate: \"p.csv\", outcome: None, json: false }, violation: \"v.csv\", mode: Mode { stable: true, exhaustive: true, cover: true } }",
        ),
        (
            "pbaudit both --no-exhaustive --outcome o.csv -- -e.pb -p.csv -v.csv",
            "Both { inputs: Inputs { election: \"-e.pb\", certificate: \"-p.csv\", outcome: Some(\"o.csv\"), json: false }, violation: \"-v.csv\", mode: Mode { stable: false, exhaustive: false, cover: false } }",
        ),
        (
            "pbaudit explain e.pb c.csv --stable --outcome=o.csv",
            "Explain { inputs: Inputs { election: \"e.pb\", certificate: \"c.csv\", outcome: Some(\"o.csv\"), json: false }, mode: Mode { stable: true, exhaustive: true, cover: false } }",
        ),
        (
            "pbaudit explain --no-exhaustive --cover -- -e.pb -c.csv",
            "Explain { inputs: Inputs { election: \"-e.pb\", certificate: \"-c.csv\", outcome: None, json: false }, mode: Mode { stable: false, exhaustive: false, cover: true } }",
        ),
        (
            "pbaudit explain e.pb --groups",
            "ExplainGroups { inputs: OutcomeInputs { election: \"e.pb\", outcome: None, json: false }, measure: ByCost }",
        ),
        (
            "pbaudit explain --groups --satisfaction count --outcome o.csv --json -- -e.pb",
            "ExplainGroups { inputs: OutcomeInputs { election: \"-e.pb\", outcome: Some(\"o.csv\"), json: true }, measure: ByCount }",
        ),
        (
            "pbaudit margins --groups e.pb",
            "GroupMargins { inputs: OutcomeInputs { election: \"e.pb\", outcome: None, json: false }, measure: ByCost }",
        ),
        (
            "pbaudit margins e.pb --groups --satisfaction=count --outcome o.csv",
            "GroupMargins { inputs: OutcomeInputs { election: \"e.pb\", outcome: Some(\"o.csv\"), json: false }, measure: ByCount }",
        ),
        (
            "pbaudit page e.pb c.csv --cover",
            "Page { inputs: Inputs { election: \"e.pb\", certificate: \"c.csv\", outcome: None, json: false }, mode: Mode { stable: false, exhaustive: true, cover: true }, language: English }",
        ),
        (
            "pbaudit page e.pb c.csv --language de --outcome o.csv",
            "Page { inputs: Inputs { election: \"e.pb\", certificate: \"c.csv\", outcome: Some(\"o.csv\"), json: false }, mode: Mode { stable: false, exhaustive: true, cover: false }, language: German }",
        ),
        (
            "pbaudit page e.pb --groups",
            "GroupsPage { inputs: OutcomeInputs { election: \"e.pb\", outcome: None, json: false }, measure: ByCost, language: English }",
        ),
        (
            "pbaudit page --groups --satisfaction count --language fr --outcome o.csv -- -e.pb",
            "GroupsPage { inputs: OutcomeInputs { election: \"-e.pb\", outcome: Some(\"o.csv\"), json: false }, measure: ByCount, language: French }",
        ),
        (
            "pbaudit page e.pb --language=pl --satisfaction=cost --groups",
            "GroupsPage { inputs: OutcomeInputs { election: \"e.pb\", outcome: None, json: false }, measure: ByCost, language: Polish }",
        ),
        (
            "pbaudit read e.pb --json",
            "Read { election: Some(\"e.pb\"), json: true }",
        ),
        (
            "pbaudit violation --json e.pb v.csv",
            "Violation(Inputs { election: \"e.pb\", certificate: \"v.csv\", outcome: None, json: true })",
        ),
        (
            "pbaudit margins e.pb c.csv --outcome o.csv",
            "Margins(Inputs { election: \"e.pb\", certificate: \"c.csv\", outcome: Some(\"o.csv\"), json: false })",
        ),
        (
            "pbaudit margins e.pb --json c.csv",
            "Margins(Inputs { election: \"e.pb\", certificate: \"c.csv\", outcome: None, json: true })",
        ),
        (
            "pbaudit margins --json e.pb --groups",
            "GroupMargins { inputs: OutcomeInputs { election: \"e.pb\", outcome: None, json: true }, measure: ByCost }",
        ),
        (
            "pbaudit tidy e.pb c.csv",
            "Tidy(Inputs { election: \"e.pb\", certificate: \"c.csv\", outcome: None, json: false })",
        ),
        (
            "pbaudit folder town",
            "Folder { folder: \"town\", mode: Mode { stable: false, exhaustive: true, cover: false }, json: false }",
        ),
        (
            "pbaudit folder --stable --no-exhaustive --json --cover -- -town",
            "Folder { folder: \"-town\", mode: Mode { stable: true, exhaustive: false, cover: true }, json: true }",
        ),
    ] {
        let got = shown(alloc, line)?;
        assert!(rt; got.as_str() == want, "{line}: {got}");
    }
    Ok(())
}

#[test]
fn tells_help_from_usage(rt: HostRuntime) -> Result<(), Fail> {
    let alloc = rt.alloc();
    for (line, start) in [
        ("pbaudit --help", "help\n"),
        ("pbaudit help read", "help\n"),
        ("pbaudit read --help", "help\n"),
        ("pbaudit --version", "help\npbaudit "),
        ("pbaudit read", "usage\n"),
        ("pbaudit read e.pb f.pb", "usage\n"),
        ("pbaudit prices e.pb", "usage\n"),
        ("pbaudit violation e.pb v.csv --cover", "usage\n"),
        ("pbaudit prices e.pb c.csv --outcome", "usage\n"),
        ("pbaudit violation e.pb v.csv --stable", "usage\n"),
        ("pbaudit tidy e.pb c.csv --json", "usage\n"),
        ("pbaudit page e.pb c.csv --json", "usage\n"),
        ("pbaudit refutation e.pb", "usage\n"),
        ("pbaudit refutation e.pb r.csv --cover", "usage\n"),
        ("pbaudit refutation e.pb r.csv --stable --stable", "usage\n"),
        ("pbaudit help groups", "help\n"),
        ("pbaudit groups", "usage\n"),
        ("pbaudit groups e.pb c.csv", "usage\n"),
        ("pbaudit groups e.pb --stable", "usage\n"),
        ("pbaudit groups e.pb --cover", "usage\n"),
        ("pbaudit groups e.pb --no-exhaustive", "usage\n"),
        ("pbaudit groups e.pb --outcome", "usage\n"),
        ("pbaudit groups e.pb --satisfaction", "usage\n"),
        (
            "pbaudit groups e.pb --satisfaction cost --satisfaction count",
            "usage\n",
        ),
        (
            "pbaudit groups e.pb --satisfaction votes",
            "usage\nerror: the satisfaction has to be cost or count\n",
        ),
        (
            "pbaudit groups e.pb --satisfaction Cost",
            "usage\nerror: the satisfaction has to be cost or count\n",
        ),
        ("pbaudit groups e.pb --satisfaction=", "usage\n"),
        (
            "pbaudit violation e.pb v.csv --satisfaction cost",
            "usage\n",
        ),
        ("pbaudit both e.pb p.csv", "usage\n"),
        ("pbaudit both e.pb p.csv v.csv w.csv", "usage\n"),
        (
            "pbaudit explain e.pb",
            "usage\nerror: a certificate is needed, or --groups in its place\n",
        ),
        (
            "pbaudit explain e.pb --stable",
            "usage\nerror: a certificate is needed, or --groups in its place\n",
        ),
        (
            "pbaudit explain e.pb c.csv --groups",
            "usage\nerror: --groups stands in the certificate's place: give one of the two\n",
        ),
        // An empty word is a path.
        (
            "pbaudit explain e.pb  --groups",
            "usage\nerror: --groups stands in the certificate's place: give one of the two\n",
        ),
        (
            "pbaudit explain e.pb --groups --stable",
            "usage\nerror: --stable, --no-exhaustive and --cover are about prices, and don't go with --groups\n",
        ),
        (
            "pbaudit explain e.pb --groups --no-exhaustive",
            "usage\nerror: --stable, --no-exhaustive and --cover are about prices, and don't go with --groups\n",
        ),
        (
            "pbaudit explain e.pb --groups --cover",
            "usage\nerror: --stable, --no-exhaustive and --cover are about prices, and don't go with --groups\n",
        ),
        (
            "pbaudit explain e.pb --groups --satisfaction size",
            "usage\nerror: the satisfaction has to be cost or count\n",
        ),
        (
            "pbaudit explain e.pb c.csv --satisfaction cost",
            "usage\nerror: --satisfaction needs --groups\n",
        ),
        ("pbaudit explain --groups", "usage\n"),
        ("pbaudit explain e.pb --groups --groups", "usage\n"),
        ("pbaudit margins e.pb --groups --json=yes", "usage\n"),
        ("pbaudit margins e.pb --groups --cover", "usage\n"),
        (
            "pbaudit margins e.pb c.csv --groups",
            "usage\nerror: --groups stands in the certificate's place: give one of the two\n",
        ),
        (
            "pbaudit margins e.pb --satisfaction count",
            "usage\nerror: --satisfaction needs --groups\n",
        ),
        ("pbaudit prices e.pb --groups", "usage\n"),
        ("pbaudit tidy e.pb --groups", "usage\n"),
        (
            "pbaudit page e.pb c.csv --language xx",
            "usage\nerror: the language of a page has to be en, pl, de or fr\n",
        ),
        (
            "pbaudit page e.pb",
            "usage\nerror: a certificate is needed, or --groups in its place\n",
        ),
        (
            "pbaudit page e.pb c.csv --groups",
            "usage\nerror: --groups stands in the certificate's place: give one of the two\n",
        ),
        (
            "pbaudit page e.pb  --groups",
            "usage\nerror: --groups stands in the certificate's place: give one of the two\n",
        ),
        (
            "pbaudit page e.pb --groups --stable",
            "usage\nerror: --stable, --no-exhaustive and --cover are about prices, and don't go with --groups\n",
        ),
        (
            "pbaudit page e.pb --groups --no-exhaustive",
            "usage\nerror: --stable, --no-exhaustive and --cover are about prices, and don't go with --groups\n",
        ),
        (
            "pbaudit page e.pb --groups --cover",
            "usage\nerror: --stable, --no-exhaustive and --cover are about prices, and don't go with --groups\n",
        ),
        (
            "pbaudit page e.pb --groups --satisfaction votes",
            "usage\nerror: the satisfaction has to be cost or count\n",
        ),
        (
            "pbaudit page e.pb --groups --language xx",
            "usage\nerror: the language of a page has to be en, pl, de or fr\n",
        ),
        (
            "pbaudit page e.pb c.csv --satisfaction count",
            "usage\nerror: --satisfaction needs --groups\n",
        ),
        ("pbaudit page e.pb --groups --json", "usage\n"),
        ("pbaudit page --groups", "usage\n"),
        ("pbaudit page e.pb --groups --groups", "usage\n"),
        (
            "pbaudit margins e.pb",
            "usage\nerror: a certificate is needed, or --groups in its place\n",
        ),
        ("pbaudit margins e.pb c.csv --stable", "usage\n"),
        ("pbaudit tidy e.pb", "usage\n"),
        ("pbaudit folder", "usage\n"),
        ("pbaudit folder one two", "usage\n"),
        ("pbaudit folder town --outcome o.csv", "usage\n"),
        ("pbaudit read -e.pb", "usage\n"),
        ("pbaudit e.pb", "usage\n"),
    ] {
        let got = shown(alloc, line)?;
        assert!(rt; got.as_str().starts_with(start), "{line}: {got}");
    }
    Ok(())
}
