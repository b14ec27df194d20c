//! Laws on the texts of elections, over the definitions alone: they hold of every list of records.

ghost use Rattle.std.specs.Prelude.{◌≡◌, ◌⊎◌, ℕ, List};
ghost use Rattle.pb_election.specs.Faults.{PbFault};
ghost use Rattle.pb_election.specs.Instance.{Instance};
ghost use Rattle.pb_records.specs.Records.{Rec};
ghost use Rattle.pb_election.specs.Text.{IsElection, PbText};
ghost use Rattle.pb_election.specs.declared.refusal.ElectionFault.{ElectionFault};

/// Records are either the text of one election, which is within the limits, or refused at one place for one fault, and
/// never both.
pub fn one_answer()
    ensures answered { (recs : List Rec) → ((e : Instance) × PbText recs e) ⊎ ((record_number : ℕ) × (f : ElectionFault) × PbFault recs record_number f) }
    ensures apart { (recs : List Rec) (e : Instance) (record_number : ℕ) (f : ElectionFault) → PbText recs e → PbFault recs record_number f → ⊥ }
    ensures alone { (recs : List Rec) (e d : Instance) → PbText recs e → PbText recs d → e ≡ d }
    ensures first { (recs : List Rec) (k j : ℕ) (f g : ElectionFault) → PbFault recs k f → PbFault recs j g → (k ≡ j) × (f ≡ g) }
    ensures sound { (recs : List Rec) (e : Instance) → PbText recs e → IsElection e }
{}
