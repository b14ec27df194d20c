//! What the definitions give on sample records.

ghost use Rattle.std.specs.Prelude.{true, false, ◌≡◌, ◌∷◌, ◌++◌, [], Some, None, codes, map};
ghost use Rattle.pb_election.specs.Instance.{all_voters};
ghost use Rattle.pb_certificate.specs.Prices.Canon.{Canon, line, line_end};
ghost use Rattle.pb_certificate.specs.Faults.{outcome_form, price_form, refutation_form, violation_form};
ghost use Rattle.pb_records.specs.FirstFault.{IsFirstFault};
ghost use Rattle.pb_certificate.specs.NamedRows.{named_of};
ghost use Rattle.pb_certificate.specs.NamedRows.Named.{Voter};
ghost use Rattle.pb_certificate.specs.Violations.Text.{IsViolationText};
ghost use Rattle.pb_certificate.specs.Outcomes.Text.{IsOutcomeText};
ghost use Rattle.pb_certificate.specs.Refutations.Text.{IsRefutationText, refutation_columns, refutation_name};
ghost use Rattle.pb_certificate.specs.Prices.Text.{IsPriceText, payment_of, payments_stated};
ghost use Rattle.pb_definition_tests.specs.Samples.{demand_x1, demand_x2, first_refusal, least_a, left_c, lenient_records, lenient_refutation, measured_records, member_1, most_b, outcome_records, price_records, row_1a, row_1b, row_2a, row_3b, refutation_records, sample_election, sample_prices, sample_text, sample_weights, three, two, unfair_election, unordered_payments, violation_records};

use pb_certificate::{CertFault, Measure};

/// A price certificate and its canonical text.
pub fn sample_certificate()
    ensures accepted { first_refusal (price_form sample_election) (price_records (row_1a ∷ row_1b ∷ row_2a ∷ row_3b ∷ [])) ≡ None }
    ensures payment { payment_of sample_election row_1b ≡ Some (record { voter = 1; project = 2; numerator = 2 }) }
    ensures payments { map (payments_stated sample_election unordered_payments) (all_voters sample_election) ≡ sample_prices.payments }
    ensures canonical { Canon sample_election sample_prices ≡ sample_text }
    // An id with a quote.
    ensures quoted { line (codes "1" ∷ (97 ∷ 34 ∷ 49 ∷ []) ∷ codes "2" ∷ []) ≡ codes "1," ++ (34 ∷ 97 ∷ 34 ∷ 34 ∷ 49 ∷ 34 ∷ []) ++ codes ",2" ++ (line_end ∷ []) }
{}

/// A fault in the head of a price certificate.
pub fn faults_of_the_head()
    ensures no_record { first_refusal (price_form sample_election) [] ≡ Some (CertFault.BadHead, 1) }
    ensures version { first_refusal (price_form sample_election) (two (codes "pb-prices") (codes "2") ∷ []) ≡ Some (CertFault.BadHead, 1) }
    ensures cut { first_refusal (price_form sample_election) (two (codes "pb-prices") (codes "1") ∷ two (codes "denominator") (codes "1") ∷ two (codes "voter_budget") (codes "4") ∷ []) ≡ Some (CertFault.BadHead, 4) }
    ensures zero { first_refusal (price_form sample_election) (two (codes "pb-prices") (codes "1") ∷ two (codes "denominator") (codes "0") ∷ []) ≡ Some (CertFault.BadNumber, 2) }
    ensures large { first_refusal (price_form sample_election) (two (codes "pb-prices") (codes "1") ∷ two (codes "denominator") (codes "1000000001") ∷ []) ≡ Some (CertFault.BadNumber, 2) }
{}

/// A fault in a row of a price certificate.
pub fn faults_of_price_rows()
    ensures short { first_refusal (price_form sample_election) (price_records (two (codes "1") (codes "a") ∷ [])) ≡ Some (CertFault.BadRow, 5) }
    ensures long { first_refusal (price_form sample_election) (price_records ((row_1a ++ (codes "3" ∷ [])) ∷ [])) ≡ Some (CertFault.BadRow, 5) }
    ensures negative { first_refusal (price_form sample_election) (price_records (three (codes "1") (codes "a") (codes "-2") ∷ [])) ≡ Some (CertFault.BadNumber, 5) }
    ensures no_number { first_refusal (price_form sample_election) (price_records (three (codes "x") (codes "a") (codes "2") ∷ [])) ≡ Some (CertFault.BadNumber, 5) }
    ensures no_project { first_refusal (price_form sample_election) (price_records (three (codes "1") (codes "d") (codes "2") ∷ [])) ≡ Some (CertFault.UnknownProject, 5) }
    ensures lowest { first_refusal (price_form sample_election) (price_records (row_1a ∷ three (codes "0") (codes "d") (codes "2") ∷ [])) ≡ Some (CertFault.UnknownVoter, 6) }
    ensures not_text { first_refusal (price_form sample_election) (price_records (three (codes "1") (255 ∷ []) (codes "2") ∷ [])) ≡ Some (CertFault.NotUtf8, 5) }
    ensures repeated { first_refusal (price_form sample_election) (price_records (row_1a ∷ row_1a ∷ row_1b ∷ row_2a ∷ row_3b ∷ [])) ≡ Some (CertFault.Repeated, 6) }
    ensures order { first_refusal (price_form sample_election) (price_records (row_2a ∷ row_1a ∷ row_1b ∷ row_3b ∷ [])) ≡ Some (CertFault.OutOfOrder, 6) }
    ensures voter_0 { first_refusal (price_form sample_election) (price_records (three (codes "0") (codes "a") (codes "2") ∷ row_1b ∷ [])) ≡ Some (CertFault.UnknownVoter, 5) }
    ensures voter_4 { first_refusal (price_form sample_election) (price_records (three (codes "4") (codes "a") (codes "2") ∷ row_1b ∷ [])) ≡ Some (CertFault.UnknownVoter, 5) }
    ensures too_large { first_refusal (price_form sample_election) (price_records (three (codes "1") (codes "a") (codes "1000000000000000000001") ∷ [])) ≡ Some (CertFault.BadNumber, 5) }
    // Blanks, and empty fields at the end, don't count.
    ensures lenient { first_refusal (price_form sample_election) lenient_records ≡ None }
{}

/// Violation certificates.
pub fn violation_certificates()
    ensures accepted { first_refusal (violation_form unfair_election) (violation_records (demand_x1 ∷ demand_x2 ∷ member_1 ∷ two (codes "voter") (codes "2") ∷ [])) ≡ None }
    ensures members { named_of unfair_election member_1 ≡ Some (Voter 1) }
    ensures repeated { first_refusal (violation_form unfair_election) (violation_records (demand_x1 ∷ demand_x2 ∷ member_1 ∷ two (codes "voter") (codes "2") ∷ member_1 ∷ [])) ≡ Some (CertFault.Repeated, 6) }
    ensures version { first_refusal (violation_form unfair_election) (two (codes "pb-violation") (codes "3") ∷ demand_x1 ∷ []) ≡ Some (CertFault.BadHead, 1) }
    ensures by_cost { first_refusal (violation_form unfair_election) (measured_records (codes "cost") (demand_x1 ∷ demand_x2 ∷ member_1 ∷ [])) ≡ None }
    ensures no_measure { first_refusal (violation_form unfair_election) (two (codes "pb-violation") (codes "2") ∷ demand_x1 ∷ []) ≡ Some (CertFault.BadHead, 2) }
    ensures end { first_refusal (violation_form unfair_election) (two (codes "pb-violation") (codes "2") ∷ []) ≡ Some (CertFault.BadHead, 2) }
    ensures another { first_refusal (violation_form unfair_election) (measured_records (codes "share") (demand_x1 ∷ [])) ≡ Some (CertFault.BadHead, 2) }
    ensures measured { first_refusal (violation_form unfair_election) (violation_records (two (codes "satisfaction") (codes "count") ∷ demand_x1 ∷ [])) ≡ Some (CertFault.BadRow, 2) }
    ensures measured_twice { first_refusal (violation_form unfair_election) (measured_records (codes "cost") (two (codes "satisfaction") (codes "cost") ∷ demand_x1 ∷ [])) ≡ Some (CertFault.BadRow, 3) }
    ensures voter_5 { first_refusal (violation_form unfair_election) (violation_records (demand_x1 ∷ demand_x2 ∷ two (codes "voter") (codes "5") ∷ [])) ≡ Some (CertFault.UnknownVoter, 4) }
    ensures voter_x { first_refusal (violation_form unfair_election) (violation_records (demand_x1 ∷ demand_x2 ∷ two (codes "voter") (codes "x") ∷ [])) ≡ Some (CertFault.BadNumber, 4) }
    ensures voter_empty { first_refusal (violation_form unfair_election) (violation_records (demand_x1 ∷ demand_x2 ∷ two (codes "voter") [] ∷ [])) ≡ Some (CertFault.BadRow, 4) }
    ensures group { first_refusal (violation_form unfair_election) (violation_records (demand_x1 ∷ demand_x2 ∷ two (codes "group") (codes "1") ∷ [])) ≡ Some (CertFault.BadRow, 4) }
    ensures project_z { first_refusal (violation_form unfair_election) (violation_records (two (codes "project") (codes "z") ∷ [])) ≡ Some (CertFault.UnknownProject, 2) }
{}

/// Outcome files.
pub fn outcome_files()
    ensures accepted { first_refusal (outcome_form sample_election) (outcome_records (two (codes "project") (codes "b") ∷ two (codes "project") (codes "a") ∷ [])) ≡ None }
    ensures no_record { first_refusal (outcome_form sample_election) [] ≡ Some (CertFault.BadHead, 1) }
    ensures voter { first_refusal (outcome_form sample_election) (outcome_records (member_1 ∷ [])) ≡ Some (CertFault.BadRow, 2) }
    ensures unknown { first_refusal (outcome_form sample_election) (outcome_records (two (codes "project") (codes "d") ∷ [])) ≡ Some (CertFault.UnknownProject, 2) }
    ensures repeated { first_refusal (outcome_form sample_election) (outcome_records (two (codes "project") (codes "a") ∷ two (codes "project") (codes "a") ∷ [])) ≡ Some (CertFault.Repeated, 3) }
{}

/// Refutations.
pub fn refutations()
    ensures accepted { first_refusal (refutation_form sample_election) (refutation_records (codes "0") (least_a ∷ most_b ∷ left_c ∷ [])) ≡ None }
    ensures no_row { first_refusal (refutation_form sample_election) (refutation_records (codes "1000000000000") []) ≡ None }
    // Blanks, zeros in front, and empty fields at the end don't count.
    ensures lenient { first_refusal (refutation_form sample_election) lenient_refutation ≡ None }
    ensures no_record { first_refusal (refutation_form sample_election) [] ≡ Some (CertFault.BadHead, 1) }
    ensures version { first_refusal (refutation_form sample_election) (two (codes "pb-refutation") (codes "2") ∷ two (codes "cover") (codes "0") ∷ refutation_columns ∷ []) ≡ Some (CertFault.BadHead, 1) }
    ensures no_cover { first_refusal (refutation_form sample_election) (refutation_name ∷ (codes "cover" ∷ []) ∷ refutation_columns ∷ []) ≡ Some (CertFault.BadHead, 2) }
    ensures large_cover { first_refusal (refutation_form sample_election) (refutation_records (codes "1000000000001") (least_a ∷ [])) ≡ Some (CertFault.BadNumber, 2) }
    ensures columns { first_refusal (refutation_form sample_election) (refutation_name ∷ two (codes "cover") (codes "0") ∷ three (codes "Role") (codes "project") (codes "weight") ∷ []) ≡ Some (CertFault.BadHead, 3) }
    ensures end { first_refusal (refutation_form sample_election) (refutation_name ∷ two (codes "cover") (codes "0") ∷ []) ≡ Some (CertFault.BadHead, 3) }
    ensures short { first_refusal (refutation_form sample_election) (refutation_records (codes "0") (two (codes "least") (codes "a") ∷ [])) ≡ Some (CertFault.BadRow, 4) }
    ensures upper_case { first_refusal (refutation_form sample_election) (refutation_records (codes "0") (three (codes "Least") (codes "q") (codes "-1") ∷ [])) ≡ Some (CertFault.BadRow, 4) }
    ensures negative { first_refusal (refutation_form sample_election) (refutation_records (codes "0") (three (codes "least") (codes "q") (codes "-1") ∷ [])) ≡ Some (CertFault.BadNumber, 4) }
    ensures unknown { first_refusal (refutation_form sample_election) (refutation_records (codes "0") (three (codes "least") (codes "q") (codes "1") ∷ [])) ≡ Some (CertFault.UnknownProject, 4) }
    ensures repeated { first_refusal (refutation_form sample_election) (refutation_records (codes "0") (least_a ∷ most_b ∷ left_c ∷ three (codes "left") (codes "a") (codes "1") ∷ [])) ≡ Some (CertFault.Repeated, 7) }
{}

/// The sample certificates are texts of what they should be.
pub fn sample_texts()
    ensures prices { IsPriceText (price_records (row_1a ∷ row_1b ∷ row_2a ∷ row_3b ∷ [])) sample_election sample_prices }
    ensures group { IsViolationText (violation_records (demand_x1 ∷ demand_x2 ∷ member_1 ∷ two (codes "voter") (codes "2") ∷ [])) unfair_election Measure.ByCount (1 ∷ 2 ∷ []) (1 ∷ 2 ∷ []) }
    ensures by_cost { IsViolationText (measured_records (codes "cost") (demand_x1 ∷ demand_x2 ∷ member_1 ∷ [])) unfair_election Measure.ByCost (1 ∷ []) (1 ∷ 2 ∷ []) }
    ensures outcome { IsOutcomeText (outcome_records (two (codes "project") (codes "b") ∷ two (codes "project") (codes "a") ∷ [])) sample_election (true ∷ true ∷ false ∷ []) }
    ensures weights { IsRefutationText (refutation_records (codes "0") (least_a ∷ most_b ∷ left_c ∷ [])) sample_election sample_weights }
    ensures lenient { IsRefutationText lenient_refutation sample_election sample_weights }
{}

/// What other records are refused for, and where.
pub fn sample_refusals()
    ensures prices { IsFirstFault (price_form sample_election) (price_records (row_1a ∷ row_1a ∷ row_2a ∷ [])) 6 CertFault.Repeated }
    ensures group { IsFirstFault (violation_form unfair_election) (violation_records (demand_x1 ∷ two (codes "voter") (codes "5") ∷ [])) 3 CertFault.UnknownVoter }
    ensures outcome { IsFirstFault (outcome_form sample_election) (outcome_records (member_1 ∷ [])) 2 CertFault.BadRow }
{}
