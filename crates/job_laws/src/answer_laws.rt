//! What follows from the definitions of the stages of a job, and of its text.

ghost use Rattle.std.specs.Prelude.{◌≡◌, ◌≢◌, ◌⊎◌, ℕ, true, List, ◌++◌, Option, Result, Ok, Err};
ghost use Rattle.ar_base.specs.Breach.{IsBroken};
ghost use Rattle.ar_base.specs.Stages.{Then};
ghost use Rattle.ar_base.specs.declared.faults.RuleFault.{RuleFault};
ghost use Rattle.ar_base.specs.declared.places.Place.{Place};
ghost use Rattle.source_laws.specs.Answers.{SameAnswer};
ghost use Rattle.source_laws.specs.Tables.{AreSeenAlike};
ghost use Rattle.source_laws.specs.Units.{SameUnfolded};
ghost use Rattle.class_table.specs.Declaring.{Declared, IsDeclared};
ghost use Rattle.class_table.specs.Rules.{BreaksTextRule, text_rules};
ghost use Rattle.hierarchy.specs.Models.{RootedModel};
ghost use Rattle.hierarchy.specs.Listing.{Unfolded};
ghost use Rattle.instantiate.specs.Unfolding.{Instantiates};
ghost use Rattle.ar_grammar.specs.Texts.{FitsNesting, Viable};
ghost use Rattle.expression_grammar.specs.Words.{Tokens};
ghost use Rattle.ar_io.specs.Outside.{Told};
ghost use Rattle.ar_parser.specs.Models.{AreLexemes, Reads};
ghost use Rattle.parser_laws.specs.Models.{SameModel};
ghost use Rattle.ar_syntax.specs.declared.items.Model.{Model};
ghost use Rattle.gts_flatten.specs.Elaborating.{Elaborated};
ghost use Rattle.run_words.specs.declared.jobs.Asked.{Asked};
ghost use Rattle.run_words.specs.declared.verbs.Verb.TheVariants.{Modules};
ghost use Rattle.run_words.specs.Jobs.{IsAsked};
ghost use Rattle.job_stages.specs.Elaborates.{Parses, Ruled, Tables};
ghost use Rattle.job_stages.specs.Files.{files_of, Loaded, IsText};
ghost use Rattle.altarica_run.specs.Follows.{Call, Gave, IsKnown, IsQuiet, Wrote};
ghost use Rattle.job_stages.specs.Refusals.{line_of, status_of};
ghost use Rattle.job_stages.specs.Stages.{Ready, Asks, Readies, Passes, lists_cuts};
ghost use Rattle.job_stages.specs.Tells.{Tells};
ghost use Rattle.job_stages.specs.declared.refusals.Refusal.{Refusal};
ghost use Rattle.job_stages.specs.declared.refusals.Refusal.TheVariants.{Rule};
ghost use Rattle.job_stages.specs.declared.status.Status.{Status};
ghost use Rattle.job_stages.specs.declared.status.Status.TheVariants as status;
ghost use Rattle.job_laws.specs.Definite.{IsDefinite, SaysOf, AgreeButNodes};
ghost use Rattle.job_laws.specs.Findings.{AreModulesOf, IsConflictOf};

use crate::one_answer::{causes_are_told, one_passing};
use altarica_run::laws::{one_job, one_loading};
use job_inputs::laws::one_list;
use module_text::laws::combinations_are_cuts;
use parser_laws::readings::one_reading;
use source_laws::laws::{texts_are_seen_alike, texts_break_the_same_rules};
use source_laws::units::one_tree_of_a_text;

/// However a text is read, each stage of its model has at most one answer.
///
/// - `one_reading_or_refusal`: A text is never both read and refused: two readings of it agree, and it is
///   refused for one cause, at one place.
/// - `one_table_or_refusal`: However a text is read, the stage of the rules L1 to L5 has at most one answer:
///   the text is seen alike from the main block that is asked for, or it is refused with one rule at one place,
///   never both.
/// - `one_unfolding_or_refusal`: However a text is read, the stages of the rules L1 to L5 and of its units have
///   at most one answer: the text has the same units in models that agree, or it is refused for one limit, or
///   with one rule at one place.
pub fn one_stage_each()
    ensures one_reading_or_refusal { (text : List ℕ) (x y : Result Model Refusal) → Parses text x → Parses text y
        → SameAnswer SameModel x y }
    ensures one_table_or_refusal { (text : List ℕ) (main : Option (List ℕ)) (x y : Model)
        (a b : Result RootedModel RuleFault) → Reads text x → Reads text y → Tables main x a
        → Tables main y b → SameAnswer (AreSeenAlike main) a b }
    ensures one_unfolding_or_refusal { (text : List ℕ) (main : Option (List ℕ)) (x y : Model)
        (a b : Result Unfolded RuleFault) → Reads text x → Reads text y
        → Then (Tables main) Instantiates x a → Then (Tables main) Instantiates y b
        → SameAnswer SameUnfolded a b }
{
    one_reading();
    texts_are_seen_alike();
    texts_break_the_same_rules();
    one_tree_of_a_text();
}

/// What a job asks of a definite source, and what it then says, is at most one thing.
///
/// - `one_request`: What the words, the script and the list of cuts of a job ask of a source is at most one
///   thing, or they are refused in one way.
/// - `one_readiness`: All stages of a job that come after its source have at most one answer: a job that passes
///   them is not refused as well, and it is refused for one reason.
/// - `one_saying`: Of one source the words of a job say at most one text and end in one way, save that, where
///   cuts are asked for, the line `nodes: N` may stand beside it.
/// - `one_text`: A job that has passed its stages tells at most one text and ends in one way, save that, where
///   cuts are asked for, the line `nodes: N` may stand beside it.
/// - `fitting_fronts_are_viable`: First tokens of a text fit where they open no production inside so many
///   others and begin a text in which a production too deep is one token. Where they fit, some text of the
///   grammar begins with them, of some nesting. So a text that is refused for its syntax is refused at the
///   first token with which no text goes on, and its tokens before that one begin some text.
pub fn one_asking()
    ensures one_request { (x : Elaborated) → IsDefinite x → (asked : Asked) (texts : List (List ℕ))
        (a b : Result Ready Refusal) → Asks asked texts x a → Asks asked texts x b → a ≡ b }
    ensures one_readiness { (x : Elaborated) → IsDefinite x → (asked : Asked) (texts : List (List ℕ))
        (a b : Result Ready Refusal) → Readies asked texts x a → Readies asked texts x b → a ≡ b }
    ensures one_saying { (x : Elaborated) → IsDefinite x → (asked : Asked) (texts : List (List ℕ))
        (s t : List ℕ) (a b : Status) → SaysOf asked texts x s a → SaysOf asked texts x t b
        → AgreeButNodes asked s a t b }
    ensures one_text { (x : Elaborated) → IsDefinite x → (asked : Asked) (texts : List (List ℕ)) (w : Ready)
        → Readies asked texts x (Ok w) → (s t : List ℕ) (a b : Status)
        → Tells asked w s a → Tells asked w t b → AgreeButNodes asked s a t b }
    ensures fitting_fronts_are_viable { (text : List ℕ) (front rest : Tokens) (names : List (List ℕ)) (end : Place)
        → AreLexemes text (front ++ rest) names end → (n : ℕ) → FitsNesting n front
        → Viable front }
{
    one_list();
}

/// A text without a tree, and a rule that a text or its units break, are told.
///
/// - `unread_text_refused`, `unread_texts_are_refused`: A text that has no tokens, no reading, or a production
///   inside too many others is refused for that, with its line and status, by the stages of each job whose text
///   it is, and by each call of such words over files of which something is told, unless something of the
///   outside fails or memory is refused.
/// - `broken_rule_refused`, `broken_rules_are_told`: A text that is read and breaks a rule of L1 to L5 is
///   refused with the least such rule at its earliest place, by the stages of each job whose text it is, and by
///   each call of such words over files of which something is told, unless something of the outside fails or
///   memory is refused.
/// - `broken_unit_rule_refused`, `broken_unit_rules_are_told`: A text that is read, keeps the rules L1 to L5
///   and passes a limit of its units, or breaks a rule of L6 to L9, is refused for that limit, or with the
///   least such rule at its earliest place, by the stages of each job whose text it is, and by each call of
///   such words over files of which something is told, unless something of the outside fails or memory is
///   refused.
pub fn first_causes_are_told()
    ensures unread_text_refused { (files : List ℕ → Told) → ((name : List ℕ) → IsKnown (files name))
        → (asked : Asked) (texts : List (List ℕ)) (text : List ℕ) (r : Refusal)
        → Loaded files (files_of asked) (Ok texts) → IsText asked texts text → Parses text (Err r)
        → (x : Result Ready Refusal) → Passes files asked x → x ≡ Err r }
    ensures unread_texts_are_refused { (c : Call) (s : Status) (asked : Asked) (texts : List (List ℕ)) (text : List ℕ)
        (r : Refusal) → Gave c s → IsQuiet c → ((name : List ℕ) → IsKnown (c.files name))
        → IsAsked c.words asked → Loaded c.files (files_of asked) (Ok texts) → IsText asked texts text
        → Parses text (Err r)
        → ((s ≡ status_of r) × Wrote c (line_of r)) ⊎ (s ≡ status.Memory) }
    ensures broken_rule_refused { (files : List ℕ → Told) → ((name : List ℕ) → IsKnown (files name))
        → (asked : Asked) (texts : List (List ℕ)) (text : List ℕ) (m : Model) (d : Declared) (r : ℕ)
        (p : Place) → Loaded files (files_of asked) (Ok texts) → IsText asked texts text → Reads text m
        → IsDeclared m d → IsBroken text_rules (BreaksTextRule m asked.job.main d) r p
        → (x : Result Ready Refusal) → Passes files asked x → x ≡ Err (Rule r p) }
    ensures broken_rules_are_told { (c : Call) (s : Status) (asked : Asked) (texts : List (List ℕ)) (text : List ℕ)
        (m : Model) (d : Declared) (r : ℕ) (p : Place) → Gave c s → IsQuiet c
        → ((name : List ℕ) → IsKnown (c.files name)) → IsAsked c.words asked
        → Loaded c.files (files_of asked) (Ok texts) → IsText asked texts text → Reads text m
        → IsDeclared m d → IsBroken text_rules (BreaksTextRule m asked.job.main d) r p
        → ((s ≡ status.Rule) × Wrote c (line_of (Rule r p))) ⊎ (s ≡ status.Memory) }
    ensures broken_unit_rule_refused { (files : List ℕ → Told) → ((name : List ℕ) → IsKnown (files name))
        → (asked : Asked) (texts : List (List ℕ)) (text : List ℕ) (m : Model) (n : RootedModel)
        (r : Refusal) → Loaded files (files_of asked) (Ok texts) → IsText asked texts text
        → Reads text m → Tables asked.job.main m (Ok n) → Ruled Instantiates n (Err r)
        → (x : Result Ready Refusal) → Passes files asked x → x ≡ Err r }
    ensures broken_unit_rules_are_told { (c : Call) (s : Status) (asked : Asked) (texts : List (List ℕ)) (text : List ℕ)
        (m : Model) (n : RootedModel) (r : Refusal) → Gave c s → IsQuiet c
        → ((name : List ℕ) → IsKnown (c.files name)) → IsAsked c.words asked
        → Loaded c.files (files_of asked) (Ok texts) → IsText asked texts text → Reads text m
        → Tables asked.job.main m (Ok n) → Ruled Instantiates n (Err r)
        → ((s ≡ status_of r) × Wrote c (line_of r)) ⊎ (s ≡ status.Memory) }
{
    one_passing();
    causes_are_told();
}

/// A text that the grammar reads, and that is loaded from files of which something is told, is never
/// answered with Syntax.
pub fn read_texts_are_no_syntax_errors()
    ensures { (c : Call) (s : Status) (asked : Asked) (texts : List (List ℕ)) (text : List ℕ) (m : Model)
        → Gave c s → ((name : List ℕ) → IsKnown (c.files name)) → IsAsked c.words asked
        → Loaded c.files (files_of asked) (Ok texts) → IsText asked texts text → Reads text m
        → s ≢ status.Syntax }
{
    one_job();
    one_loading();
    one_reading();
}

/// What a listing shows stands in the source.
///
/// - `modules_stand_for_cuts`: A call of `modules` that ends well writes short forms that stand for the cuts:
///   each choice of one set of the module for each unit of a form makes a cut with the form's events, and each
///   cut comes from just one form and one choice.
/// - `conflicts_are_met`: A line `fault: ..` of a job that tells of cuts meets its fault: its labels are those
///   of a least set that meets a conflict, and fired as they stand in the whole model, dropped events included,
///   they meet this flow fault at the last of them, and none before.
pub fn cuts_are_cuts()
    ensures modules_stand_for_cuts { (c : Call) (asked : Asked) → Gave c status.Done → IsAsked c.words asked
        → asked.job.command ≡ Modules → AreModulesOf c asked }
    ensures conflicts_are_met { (c : Call) (asked : Asked) → Gave c status.Fault → IsAsked c.words asked
        → lists_cuts asked.job.command ≡ true → IsConflictOf c asked }
{
    one_job();
    one_reading();
    combinations_are_cuts();
}
