//! Laws on certificates, whatever the election and the records are.

ghost use Rattle.std.specs.Prelude.{◌≡◌, ◌⊎◌, ℕ, Bool, List, length};
ghost use Rattle.pb_election.specs.Instance.{Instance, IsProject, IsSet, IsVoter, projects, voters};
ghost use Rattle.pb_records.specs.Records.{Rec};
ghost use Rattle.pb_records.specs.FirstFault.{IsFirstFault};
ghost use Rattle.pb_election.specs.Text.{IsElection};
ghost use Rattle.pb_certificate.specs.Prices.Canon.{Canon};
ghost use Rattle.pb_certificate.specs.Prices.{ArePrices, Prices, payment};
ghost use Rattle.pb_certificate.specs.Prices.Text.{IsPriceText, stated};
ghost use Rattle.pb_certificate.specs.Faults.{certificate_records, outcome_form, price_form, refutation_form, violation_form};
ghost use Rattle.pb_certificate.specs.declared.violations.measure.Measure.{Measure};
ghost use Rattle.pb_certificate.specs.declared.refusal.CertFault.{CertFault};
ghost use Rattle.pb_certificate.specs.Violations.Text.{IsViolationText};
ghost use Rattle.pb_certificate.specs.Outcomes.Text.{IsOutcomeText};
ghost use Rattle.pb_certificate.specs.Refutations.{AreWeights, Weights, WeightsFit};
ghost use Rattle.pb_certificate.specs.Refutations.Text.{IsRefutationText};

/// The text of a price certificate states prices for the election, and they are what its rows state.
pub fn texts_state_prices()
    ensures prices { (recs : List Rec) (e : Instance) (p : Prices) → IsPriceText recs e p → ArePrices e p }
    ensures payments { (recs : List Rec) (e : Instance) (p : Prices) (t : IsPriceText recs e p) (i j : ℕ) → IsVoter e i → IsProject e j → payment p i j ≡ stated t.payments i j }
{}

/// Records are either the text of one price system for the election, or refused at one place for one fault, and never
/// both.
pub fn one_answer_on_prices()
    ensures answered { (recs : List Rec) (e : Instance) → ((p : Prices) × IsPriceText recs e p) ⊎ ((record_number : ℕ) × (f : CertFault) × IsFirstFault (price_form e) recs record_number f) }
    ensures apart { (recs : List Rec) (e : Instance) (p : Prices) (record_number : ℕ) (f : CertFault) → IsPriceText recs e p → IsFirstFault (price_form e) recs record_number f → ⊥ }
    ensures alone { (recs : List Rec) (e : Instance) (p q : Prices) → IsPriceText recs e p → IsPriceText recs e q → p ≡ q }
    ensures first { (recs : List Rec) (e : Instance) (k j : ℕ) (f g : CertFault) → IsFirstFault (price_form e) recs k f → IsFirstFault (price_form e) recs j g → (k ≡ j) × (f ≡ g) }
{}

/// Records are either the text of one measure, one group and one demand, or refused at one place for one fault, and
/// never both.
pub fn one_answer_on_violations()
    ensures answered { (recs : List Rec) (e : Instance) → ((m : Measure) × (s : List ℕ) × (t : List ℕ) × IsViolationText recs e m s t) ⊎ ((record_number : ℕ) × (f : CertFault) × IsFirstFault (violation_form e) recs record_number f) }
    ensures apart { (recs : List Rec) (e : Instance) (m : Measure) (s t : List ℕ) (record_number : ℕ) (f : CertFault) → IsViolationText recs e m s t → IsFirstFault (violation_form e) recs record_number f → ⊥ }
    ensures alone { (recs : List Rec) (e : Instance) (m m' : Measure) (s t s' t' : List ℕ) → IsViolationText recs e m s t → IsViolationText recs e m' s' t' → (m ≡ m') × (s ≡ s') × (t ≡ t') }
    ensures first { (recs : List Rec) (e : Instance) (k j : ℕ) (f g : CertFault) → IsFirstFault (violation_form e) recs k f → IsFirstFault (violation_form e) recs j g → (k ≡ j) × (f ≡ g) }
{}

/// Records are either the text of one outcome, or refused at one place for one fault, and never both.
pub fn one_answer_on_outcomes()
    ensures answered { (recs : List Rec) (e : Instance) → ((w : List Bool) × IsOutcomeText recs e w) ⊎ ((record_number : ℕ) × (f : CertFault) × IsFirstFault (outcome_form e) recs record_number f) }
    ensures apart { (recs : List Rec) (e : Instance) (w : List Bool) (record_number : ℕ) (f : CertFault) → IsOutcomeText recs e w → IsFirstFault (outcome_form e) recs record_number f → ⊥ }
    ensures alone { (recs : List Rec) (e : Instance) (w w' : List Bool) → IsOutcomeText recs e w → IsOutcomeText recs e w' → w ≡ w' }
    ensures first { (recs : List Rec) (e : Instance) (k j : ℕ) (f g : CertFault) → IsFirstFault (outcome_form e) recs k f → IsFirstFault (outcome_form e) recs j g → (k ≡ j) × (f ≡ g) }
{}

/// Records are either the text of one refutation, or refused at one place for one fault, and never both.
pub fn one_answer_on_refutations()
    ensures answered { (recs : List Rec) (e : Instance) → ((w : Weights) × IsRefutationText recs e w) ⊎ ((record_number : ℕ) × (f : CertFault) × IsFirstFault (refutation_form e) recs record_number f) }
    ensures apart { (recs : List Rec) (e : Instance) (w : Weights) (record_number : ℕ) (f : CertFault) → IsRefutationText recs e w → IsFirstFault (refutation_form e) recs record_number f → ⊥ }
    ensures alone { (recs : List Rec) (e : Instance) (w w' : Weights) → IsRefutationText recs e w → IsRefutationText recs e w' → w ≡ w' }
    ensures first { (recs : List Rec) (e : Instance) (k j : ℕ) (f g : CertFault) → IsFirstFault (refutation_form e) recs k f → IsFirstFault (refutation_form e) recs j g → (k ≡ j) × (f ≡ g) }
{}

/// A group and a demand that a text states are sets of voters and of projects, an outcome speaks of each project, and
/// so do the weights of a refutation, each of which is at most 10^12.
pub fn texts_fit_the_election()
    ensures groups { (recs : List Rec) (e : Instance) (m : Measure) (s t : List ℕ) → IsViolationText recs e m s t → IsSet 1 (voters e) s × IsSet 1 (projects e) t }
    ensures outcomes { (recs : List Rec) (e : Instance) (w : List Bool) → IsOutcomeText recs e w → length w ≡ projects e }
    ensures weights { (recs : List Rec) (e : Instance) (w : Weights) → IsRefutationText recs e w → AreWeights w × WeightsFit w e }
{}

/// The canonical text of prices for an election is a text of those prices, and of no others.
pub fn canonical_texts_read_back()
    ensures states { (e : Instance) (p : Prices) → IsElection e → ArePrices e p → IsPriceText (certificate_records (Canon e p)) e p }
    ensures no_other { (e : Instance) (p q : Prices) → IsElection e → ArePrices e p → IsPriceText (certificate_records (Canon e p)) e q → q ≡ p }
{}
