//! Laws on what commands answer, over the definitions alone.

ghost use Rattle.std.specs.Prelude.{◌≡◌, ◌∷◌, [], Bool, IsFalse, IsTrue, List, Option, codes, flat_map, map};
ghost use Rattle.pb_records.specs.Loading.{Delivery};
ghost use Rattle.pb_cohesion.specs.declared.Mode.{Mode};
ghost use Rattle.pb_audit.specs.Answers.{AnswersPrices, AnswersRefutation};
ghost use Rattle.pb_audit.specs.OneAnswer.{JustOne};
ghost use Rattle.pb_audit.specs.Questions.{Answers};
ghost use Rattle.pb_audit.specs.Reports.{EntryFiles, Found, ReportOf, endings_of, together, total_of};
ghost use Rattle.pb_audit.specs.declared.question.Question.{Question};
ghost use Rattle.pb_reply.specs.Replies.{Reply};
ghost use Rattle.pb_reply.specs.Turns.{gives, gives_file};
ghost use Rattle.pb_reply.specs.declared.answer.Format.{Format};
ghost use Rattle.pb_reply.specs.declared.status.Status.TheVariants.{Yes};

/// Each question has just one answer on what is delivered of its inputs, an input that failed or is too long among it;
/// and so have the entries of a folder.
pub fn one_answer()
    ensures question { (format : Format) (q : Question) (election : Delivery) (outcome : Option Delivery) (certificate violation : Delivery) → JustOne (Answers format q (gives election) (gives_file outcome) (gives certificate) (gives violation)) }
    ensures folder { (as_json : Bool) (m : Mode) (entries : List EntryFiles) → JustOne (ReportOf as_json m entries) }
{}

/// The total of a folder is that of its entries together, so that whoever has each by itself has the whole.
pub fn totals_add_up()
    ensures { (found : List Found) → total_of (flat_map endings_of found) ≡ together (map (λ f. total_of (endings_of f)) found) }
{}

/// For one election and one outcome, a price certificate and a refutation are never both answered by a yes where the
/// line of the refutation is `unpriceable`, nor where Cover is asked of the prices and all prices of the refutation,
/// whatever the certificates are. So it is with stable prices, also where these are asked of the refutation.
pub fn never_both()
    ensures whatever { (m : Mode) (stable : Bool) (election : Delivery) (outcome : Option Delivery) (prices weights : Delivery) (p r : Reply) → AnswersPrices m election outcome prices p → AnswersRefutation stable election outcome weights r → p.status ≡ Yes → r.status ≡ Yes → r.lines ≡ codes "unpriceable" ∷ [] → ⊥ }
    ensures told_under_cover { (m : Mode) (stable : Bool) (election : Delivery) (outcome : Option Delivery) (prices weights : Delivery) (p r : Reply) → AnswersPrices m election outcome prices p → AnswersRefutation stable election outcome weights r → IsTrue m.cover → p.status ≡ Yes → r.status ≡ Yes → r.lines ≡ codes "unpriceable cover" ∷ [] → ⊥ }
    ensures under_cover { (m : Mode) (stable : Bool) (election : Delivery) (outcome : Option Delivery) (prices weights : Delivery) (p r : Reply) → AnswersPrices m election outcome prices p → AnswersRefutation stable election outcome weights r → IsFalse stable → IsTrue m.cover → p.status ≡ Yes → r.status ≡ Yes → ⊥ }
    ensures told_stable { (m : Mode) (stable : Bool) (election : Delivery) (outcome : Option Delivery) (prices weights : Delivery) (p r : Reply) → AnswersPrices m election outcome prices p → AnswersRefutation stable election outcome weights r → IsTrue m.stable → p.status ≡ Yes → r.status ≡ Yes → r.lines ≡ codes "unpriceable stable" ∷ [] → ⊥ }
    ensures stable_under_cover { (m : Mode) (stable : Bool) (election : Delivery) (outcome : Option Delivery) (prices weights : Delivery) (p r : Reply) → AnswersPrices m election outcome prices p → AnswersRefutation stable election outcome weights r → IsTrue m.stable → IsTrue m.cover → p.status ≡ Yes → r.status ≡ Yes → ⊥ }
{}
