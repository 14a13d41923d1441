//! Each cause of a refusal, the other way round: a text, or words, with that cause and none before
//! it are answered with that refusal and its place.
//!
//! Each law is of a call whose words give a job, over files of which something is told and which
//! are not longer than they may be: the model's, and the script or the list where the job has one.
//! A call is stopped where a file is not read, the sink fails or memory is refused.

ghost use Rattle.std.specs.Prelude.{◌≡◌, ◌<◌, ◌≤◌, ◌+◌, ℕ, true, List, [], ◌∷◌, length, Some};
ghost use Rattle.std.specs.Prelude.{Ok, Err};
ghost use Rattle.ar_base.specs.Breach.{IsBroken, AreKept};
ghost use Rattle.ar_base.specs.Counts.{limit_of};
ghost use Rattle.ar_base.specs.Stages.{Where};
ghost use Rattle.ar_base.specs.declared.counts.Count.{Count};
ghost use Rattle.ar_base.specs.declared.counts.Count.TheVariants as count;
ghost use Rattle.ar_base.specs.declared.faults.RuleFault.TheVariants as fault;
ghost use Rattle.ar_base.specs.declared.places.Place.{Place};
ghost use Rattle.ar_firing.specs.Rules.{Rule as StaticRule, rule_number, Spot, IsFirstBroken, IsAskedUpTo};
ghost use Rattle.ar_firing.specs.Rules.{KeepsUpTo};
ghost use Rattle.ar_meaning.specs.Runs.{Command};
ghost use Rattle.ar_parser.specs.Models.{Reads};
ghost use Rattle.ar_syntax.specs.declared.items.Model.{Model};
ghost use Rattle.eq_core.specs.Gates.{Table};
ghost use Rattle.gts_flatten.specs.Elaborating.{Elaborated, BreaksWayRule, HasSystem};
ghost use Rattle.gts_flatten.specs.Elaborating.{most_ways_counted, way_parts_counted};
ghost use Rattle.gts_flatten.specs.Elaborating.{nodes_counted};
ghost use Rattle.hierarchy.specs.Listing.{Unfolded, AreFirstUnits};
ghost use Rattle.hierarchy.specs.Models.{RootedModel};
ghost use Rattle.hierarchy.specs.Units.{UnitPath};
ghost use Rattle.instantiate.specs.Unfolding.{Instantiates, unit_rules, unit_breaks};
ghost use Rattle.job_inputs.specs.CutLists.{CutLine, ListsCutLines, IsFirstBadCut};
ghost use Rattle.job_inputs.specs.Lines.{lines_of};
ghost use Rattle.job_inputs.specs.Naming.{HasUnknown};
ghost use Rattle.job_inputs.specs.Scripts.{Why, GivesCommands, IsFirstBad};
ghost use Rattle.job_inputs.specs.Wanting.{NamesNone, WantsNone};
ghost use Rattle.job_inputs.specs.declared.wanting.Wanted.{Wanted};
ghost use Rattle.run_words.specs.Commands.{shape_of, is_script, is_list};
ghost use Rattle.run_words.specs.declared.jobs.Asked.{Asked};
ghost use Rattle.run_words.specs.Jobs.{IsAsked};
ghost use Rattle.source_meaning.specs.Rules.{name_rules};
ghost use Rattle.source_meaning.specs.Systems.{Declarations, Binds, name_breaks};
ghost use Rattle.sync_expand.specs.Counting.{way_rules};
ghost use Rattle.unit_rules.specs.Limits.{FitsLimits, variables_counted, events_counted};
ghost use Rattle.unit_rules.specs.Limits.{unfolded_nodes};
ghost use Rattle.unit_walks.specs.Unfolding.{Unfolds, IsFirstOver};
ghost use Rattle.job_stages.specs.Elaborates.{Elaborates, Systems, Tables};
ghost use Rattle.job_stages.specs.Files.{files_of, Loaded, IsText};
ghost use Rattle.altarica_run.specs.Follows.{Call, Gave, IsKnown};
ghost use Rattle.job_stages.specs.Stages.{Ready, bare, Asks, ListsCuts, Drops, IsTableOf};
ghost use Rattle.job_stages.specs.Stages.{line_refused, cut_refused, spot_path};
ghost use Rattle.job_stages.specs.Stages.{has_table, observer_asked, is_static};
ghost use Rattle.job_stages.specs.declared.refusals.Refusal.{Refusal};
ghost use Rattle.job_stages.specs.declared.refusals.Refusal.TheVariants.{Rule, Size, NoDropped};
ghost use Rattle.job_stages.specs.declared.refusals.Refusal.TheVariants.{NoObserver, NoValue};
ghost use Rattle.job_stages.specs.declared.refusals.Refusal.TheVariants.{Outside};
ghost use Rattle.job_stages.specs.declared.status.Status.{Status};
ghost use Rattle.job_laws.specs.Told.{IsToldAs};

use crate::told::refusals_are_told;

/// Causes in the model: each rule of units, names and ways that it breaks is told.
///
/// - `refused_rule`, `refused_limit`: A text that is read, and whose model is refused on its way to a system,
///   is answered with the rule and its place, or with the limit, or the call is stopped.
/// - `broken_rules_of_units_are_told`: A text that is read, that keeps the rules L1 to L5, whose main block
///   unfolds into units, variables, events and nodes within their limits, and that breaks a rule of L6 to L9,
///   is answered with the least such rule at its earliest place, or the call is stopped.
/// - `broken_rules_of_names_are_told`: A text that is read, that keeps the rules L1 to L9 within the limits of
///   its units, and that breaks a rule of L10 to L13, is answered with the least such rule at its earliest
///   place, or the call is stopped.
/// - `broken_rules_of_ways_are_told`: A text that is read, that keeps the rules L1 to L13 within the limits of
///   its units, and that has a synchronisation of an event from which that event is reached again, is answered
///   with L14 at the earliest such one, or the call is stopped.
pub fn broken_rules_of_models_are_told()
    ensures refused_rule { (c : Call) (s : Status) (asked : Asked) (texts : List (List ℕ)) (text : List ℕ)
        (m : Model) (r : ℕ) (p : Place) → Gave c s
        → ((name : List ℕ) → IsKnown (c.files name)) → IsAsked c.words asked
        → Loaded c.files (files_of asked) (Ok texts) → IsText asked texts text → Reads text m
        → Systems asked.job.main m (Err (fault.Rule r p))
        → IsToldAs c s (Rule r p) }
    ensures refused_limit { (c : Call) (s : Status) (asked : Asked) (texts : List (List ℕ)) (text : List ℕ)
        (m : Model) (count : Count) → Gave c s
        → ((name : List ℕ) → IsKnown (c.files name)) → IsAsked c.words asked
        → Loaded c.files (files_of asked) (Ok texts) → IsText asked texts text → Reads text m
        → Systems asked.job.main m (Err (fault.Limit count))
        → IsToldAs c s (Size count) }
    ensures broken_rules_of_units_are_told { (c : Call) (s : Status) (asked : Asked) (texts : List (List ℕ)) (text : List ℕ)
        (m : Model) (root : RootedModel) (t : Unfolded) (r : ℕ) (p : Place) → Gave c s
        → ((name : List ℕ) → IsKnown (c.files name)) → IsAsked c.words asked
        → Loaded c.files (files_of asked) (Ok texts) → IsText asked texts text → Reads text m
        → Tables asked.job.main m (Ok root) → Unfolds root (Ok t) → FitsLimits t (Ok t)
        → IsBroken unit_rules (unit_breaks t) r p
        → IsToldAs c s (Rule r p) }
    ensures broken_rules_of_names_are_told { (c : Call) (s : Status) (asked : Asked) (texts : List (List ℕ)) (text : List ℕ)
        (m : Model) (root : RootedModel) (t : Unfolded) (r : ℕ) (p : Place) → Gave c s
        → ((name : List ℕ) → IsKnown (c.files name)) → IsAsked c.words asked
        → Loaded c.files (files_of asked) (Ok texts) → IsText asked texts text → Reads text m
        → Tables asked.job.main m (Ok root) → Instantiates root (Ok t)
        → IsBroken name_rules (name_breaks t) r p
        → IsToldAs c s (Rule r p) }
    ensures broken_rules_of_ways_are_told { (c : Call) (s : Status) (asked : Asked) (texts : List (List ℕ)) (text : List ℕ)
        (m : Model) (root : RootedModel) (t : Unfolded) (d : Declarations) (p : Place) → Gave c s
        → ((name : List ℕ) → IsKnown (c.files name)) → IsAsked c.words asked
        → Loaded c.files (files_of asked) (Ok texts) → IsText asked texts text → Reads text m
        → Tables asked.job.main m (Ok root) → Instantiates root (Ok t) → Binds t (Ok d)
        → IsBroken way_rules (BreaksWayRule d) 14 p
        → IsToldAs c s (Rule 14 p) }
{
    refusals_are_told();
}

/// Causes in the size: each limit that is passed is told.
///
/// - `passed_limits_of_units_are_told`: A text that is read, that keeps the rules L1 to L5, and whose main
///   block has a unit that is too deep, or more units than there may be, is answered with the limit that its
///   units, in their order, pass first, or the call is stopped.
/// - `passed_limit_of_variables`, `passed_limit_of_events`, `passed_limit_of_tree_nodes`: A text that is read,
///   that keeps the rules L1 to L5, whose main block unfolds into units within their limits, and that has more
///   variables, events or nodes than there may be, is answered with the first of these limits, in this order,
///   that it passes, or the call is stopped.
/// - `passed_limits_of_ways_are_told`: A text that is read, that keeps the rules L1 to L14 within the limits of
///   its units, and whose system has an event with more ways than there may be, is answered with that limit, or
///   the call is stopped.
/// - `passed_limit_of_parts`, `passed_limit_of_expression_nodes`: A text that is read, that keeps the rules L1
///   to L14 within the limits of its units, whose system has no event with too many ways, but more parts of
///   ways, or more nodes of expressions, than there may be, is answered with the first of these limits, in this
///   order, that it passes, or the call is stopped.
/// - `passed_limits_of_gates_are_told`: A command about the gate table, over a text that means a system which
///   has what the words ask for and which keeps the rules S1 to S8, S1 and S7 with the dropped events and the
///   others without them, but whose table has more gates than there may be, is answered with that limit, or the
///   call is stopped.
pub fn passed_limits_are_told()
    ensures passed_limits_of_units_are_told { (c : Call) (s : Status) (asked : Asked) (texts : List (List ℕ)) (text : List ℕ)
        (m : Model) (root : RootedModel) (units : List UnitPath) (count : Count) → Gave c s
        → ((name : List ℕ) → IsKnown (c.files name)) → IsAsked c.words asked
        → Loaded c.files (files_of asked) (Ok texts) → IsText asked texts text → Reads text m
        → Tables asked.job.main m (Ok root) → AreFirstUnits root units → IsFirstOver count units
        → IsToldAs c s (Size count) }
    ensures passed_limit_of_variables { (c : Call) (s : Status) (asked : Asked) (texts : List (List ℕ)) (text : List ℕ)
        (m : Model) (root : RootedModel) (t : Unfolded) → Gave c s
        → ((name : List ℕ) → IsKnown (c.files name)) → IsAsked c.words asked
        → Loaded c.files (files_of asked) (Ok texts) → IsText asked texts text → Reads text m
        → Tables asked.job.main m (Ok root) → Unfolds root (Ok t)
        → limit_of count.Variables < variables_counted t
        → IsToldAs c s (Size count.Variables) }
    ensures passed_limit_of_events { (c : Call) (s : Status) (asked : Asked) (texts : List (List ℕ)) (text : List ℕ)
        (m : Model) (root : RootedModel) (t : Unfolded) → Gave c s
        → ((name : List ℕ) → IsKnown (c.files name)) → IsAsked c.words asked
        → Loaded c.files (files_of asked) (Ok texts) → IsText asked texts text → Reads text m
        → Tables asked.job.main m (Ok root) → Unfolds root (Ok t)
        → variables_counted t ≤ limit_of count.Variables
        → limit_of count.Events < events_counted t
        → IsToldAs c s (Size count.Events) }
    ensures passed_limit_of_tree_nodes { (c : Call) (s : Status) (asked : Asked) (texts : List (List ℕ)) (text : List ℕ)
        (m : Model) (root : RootedModel) (t : Unfolded) → Gave c s
        → ((name : List ℕ) → IsKnown (c.files name)) → IsAsked c.words asked
        → Loaded c.files (files_of asked) (Ok texts) → IsText asked texts text → Reads text m
        → Tables asked.job.main m (Ok root) → Unfolds root (Ok t)
        → variables_counted t ≤ limit_of count.Variables
        → events_counted t ≤ limit_of count.Events
        → limit_of count.TreeNodes < unfolded_nodes t
        → IsToldAs c s (Size count.TreeNodes) }
    ensures passed_limits_of_ways_are_told { (c : Call) (s : Status) (asked : Asked) (texts : List (List ℕ)) (text : List ℕ)
        (m : Model) (root : RootedModel) (t : Unfolded) (d : Declarations) (x : Elaborated)
        → Gave c s → ((name : List ℕ) → IsKnown (c.files name)) → IsAsked c.words asked
        → Loaded c.files (files_of asked) (Ok texts) → IsText asked texts text → Reads text m
        → Tables asked.job.main m (Ok root) → Instantiates root (Ok t) → Binds t (Ok d)
        → AreKept way_rules (BreaksWayRule d) → HasSystem d (Ok x)
        → limit_of count.Ways < most_ways_counted x
        → IsToldAs c s (Size count.Ways) }
    ensures passed_limit_of_parts { (c : Call) (s : Status) (asked : Asked) (texts : List (List ℕ)) (text : List ℕ)
        (m : Model) (root : RootedModel) (t : Unfolded) (d : Declarations) (x : Elaborated)
        → Gave c s → ((name : List ℕ) → IsKnown (c.files name)) → IsAsked c.words asked
        → Loaded c.files (files_of asked) (Ok texts) → IsText asked texts text → Reads text m
        → Tables asked.job.main m (Ok root) → Instantiates root (Ok t) → Binds t (Ok d)
        → AreKept way_rules (BreaksWayRule d) → HasSystem d (Ok x)
        → most_ways_counted x ≤ limit_of count.Ways
        → limit_of count.WayParts < way_parts_counted x
        → IsToldAs c s (Size count.WayParts) }
    ensures passed_limit_of_expression_nodes { (c : Call) (s : Status) (asked : Asked) (texts : List (List ℕ)) (text : List ℕ)
        (m : Model) (root : RootedModel) (t : Unfolded) (d : Declarations) (x : Elaborated)
        → Gave c s → ((name : List ℕ) → IsKnown (c.files name)) → IsAsked c.words asked
        → Loaded c.files (files_of asked) (Ok texts) → IsText asked texts text → Reads text m
        → Tables asked.job.main m (Ok root) → Instantiates root (Ok t) → Binds t (Ok d)
        → AreKept way_rules (BreaksWayRule d) → HasSystem d (Ok x)
        → most_ways_counted x ≤ limit_of count.Ways
        → way_parts_counted x ≤ limit_of count.WayParts
        → limit_of count.ExpressionNodes < nodes_counted x
        → IsToldAs c s (Size count.ExpressionNodes) }
    ensures passed_limits_of_gates_are_told { (c : Call) (s : Status) (asked : Asked) (texts : List (List ℕ)) (text : List ℕ)
        (x : Elaborated) (w : Ready) (wanted : Wanted) (table : Table) → Gave c s
        → ((name : List ℕ) → IsKnown (c.files name)) → IsAsked c.words asked
        → Loaded c.files (files_of asked) (Ok texts) → IsText asked texts text
        → Elaborates asked.job.main text (Ok x) → Asks asked texts x (Ok w)
        → has_table asked.job.command ≡ true → KeepsUpTo w.order x.system w.dropped → w.wanted ≡ Some wanted
        → IsTableOf x w.dropped wanted table → limit_of count.Gates < length table.gates
        → IsToldAs c s (Size count.Gates) }
{
    refusals_are_told();
}

/// Causes in what is asked for: each wrong line, name and value, and a system outside the static fragment, is told.
///
/// - `refused_requests_are_told`: Words over a text that means a system, which ask it, by themselves, by their
///   script or by their list, for what it has not, are answered with that refusal, or the call is stopped.
/// - `bad_lines_of_scripts_are_told`: Words with a script over a text that means a system, where a line of the
///   script is no command, needs a way or names no event, are answered with the number of the first such line,
///   counted from 1, and with what is wrong with it, or the call is stopped.
/// - `bad_line_of_cuts`, `too_many_lines_of_cuts`: Words with a list of cuts over a text that means a system,
///   where a line of the list is no cut, needs a way or names no event, are answered with the number of the
///   first such line, counted from 1, and with what is wrong with it. Where no line is bad, but there are more
///   cuts than there may be, they are answered with that limit. Both hold unless the call is stopped.
/// - `unknown_dropped_events_are_told`: Words over a text that means a system, and over a list of cuts, if they
///   have one, that is passed, where a part of the list of dropped events names no event, are answered with
///   that, or the call is stopped.
/// - `unknown_observer_asked`, `unknown_observer_shown`: Words over a text that means a system, where the path
///   of the observer names none, are answered with that, or the call is stopped: where they ask for a value,
///   and the list of cuts and the dropped events are passed, and where they explain, and the script is passed.
/// - `unknown_values_are_told`: Words over a text that means a system, which ask for a value of an observer,
///   where the list of cuts and the dropped events are passed and the path names an observer, but the word
///   writes no value of its type, or is missing where the type is not Boolean, are answered with that, or the
///   call is stopped.
/// - `systems_outside_are_told`: A command for the static fragment, over a text that means a system which has
///   what the words ask for, but which breaks a rule of S1 to S8, S1 and S7 with the dropped events and the
///   others without them, is answered with the least such rule and the path of the first thing that shows it,
///   or the call is stopped.
pub fn wrong_requests_are_told()
    ensures refused_requests_are_told { (c : Call) (s : Status) (asked : Asked) (texts : List (List ℕ)) (text : List ℕ)
        (x : Elaborated) (r : Refusal) → Gave c s
        → ((name : List ℕ) → IsKnown (c.files name)) → IsAsked c.words asked
        → Loaded c.files (files_of asked) (Ok texts) → IsText asked texts text
        → Elaborates asked.job.main text (Ok x) → Asks asked texts x (Err r)
        → IsToldAs c s r }
    ensures bad_lines_of_scripts_are_told { (c : Call) (s : Status) (asked : Asked) (text script : List ℕ) (x : Elaborated) (n : ℕ)
        (why : Why) → Gave c s → ((name : List ℕ) → IsKnown (c.files name))
        → IsAsked c.words asked → Loaded c.files (files_of asked) (Ok (text ∷ script ∷ []))
        → is_script (shape_of asked.job.command).files ≡ true → Elaborates asked.job.main text (Ok x)
        → IsFirstBad x (lines_of script) n why
        → IsToldAs c s (line_refused why (n + 1)) }
    ensures bad_line_of_cuts { (c : Call) (s : Status) (asked : Asked) (text list : List ℕ) (x : Elaborated) (n : ℕ)
        (why : Why) → Gave c s → ((name : List ℕ) → IsKnown (c.files name))
        → IsAsked c.words asked → Loaded c.files (files_of asked) (Ok (text ∷ list ∷ []))
        → is_list (shape_of asked.job.command).files ≡ true → Elaborates asked.job.main text (Ok x)
        → IsFirstBadCut x (lines_of list) n why
        → IsToldAs c s (cut_refused why (n + 1)) }
    ensures too_many_lines_of_cuts { (c : Call) (s : Status) (asked : Asked) (text list : List ℕ) (x : Elaborated)
        (cuts : List CutLine) → Gave c s → ((name : List ℕ) → IsKnown (c.files name))
        → IsAsked c.words asked → Loaded c.files (files_of asked) (Ok (text ∷ list ∷ []))
        → is_list (shape_of asked.job.command).files ≡ true → Elaborates asked.job.main text (Ok x)
        → ListsCutLines x 1 (lines_of list) cuts → limit_of count.CutLines < length cuts
        → IsToldAs c s (Size count.CutLines) }
    ensures unknown_dropped_events_are_told { (c : Call) (s : Status) (asked : Asked) (texts : List (List ℕ)) (text dropped : List ℕ)
        (x : Elaborated) (w : Ready) → Gave c s
        → ((name : List ℕ) → IsKnown (c.files name)) → IsAsked c.words asked
        → Loaded c.files (files_of asked) (Ok texts) → IsText asked texts text
        → Elaborates asked.job.main text (Ok x)
        → Where (is_list (shape_of asked.job.command).files) (ListsCuts texts) (bare asked.order x) (Ok w)
        → asked.job.dropped ≡ Some dropped → HasUnknown x dropped
        → IsToldAs c s NoDropped }
    ensures unknown_observer_asked { (c : Call) (s : Status) (asked : Asked) (texts : List (List ℕ)) (text path : List ℕ)
        (x : Elaborated) (w v : Ready) → Gave c s
        → ((name : List ℕ) → IsKnown (c.files name)) → IsAsked c.words asked
        → Loaded c.files (files_of asked) (Ok texts) → IsText asked texts text
        → Elaborates asked.job.main text (Ok x)
        → Where (is_list (shape_of asked.job.command).files) (ListsCuts texts) (bare asked.order x) (Ok w)
        → Drops asked.job.dropped w (Ok v) → has_table asked.job.command ≡ true
        → observer_asked asked ≡ Some path → NamesNone x path
        → IsToldAs c s NoObserver }
    ensures unknown_observer_shown { (c : Call) (s : Status) (asked : Asked) (text script path : List ℕ)
        (x : Elaborated) (commands : List Command) → Gave c s
        → ((name : List ℕ) → IsKnown (c.files name)) → IsAsked c.words asked
        → Loaded c.files (files_of asked) (Ok (text ∷ script ∷ []))
        → (shape_of asked.job.command).explains ≡ true → Elaborates asked.job.main text (Ok x)
        → GivesCommands x (lines_of script) commands → asked.job.observer ≡ Some path
        → NamesNone x path
        → IsToldAs c s NoObserver }
    ensures unknown_values_are_told { (c : Call) (s : Status) (asked : Asked) (texts : List (List ℕ)) (text path : List ℕ)
        (x : Elaborated) (w v : Ready) → Gave c s
        → ((name : List ℕ) → IsKnown (c.files name)) → IsAsked c.words asked
        → Loaded c.files (files_of asked) (Ok texts) → IsText asked texts text
        → Elaborates asked.job.main text (Ok x)
        → Where (is_list (shape_of asked.job.command).files) (ListsCuts texts) (bare asked.order x) (Ok w)
        → Drops asked.job.dropped w (Ok v) → has_table asked.job.command ≡ true
        → observer_asked asked ≡ Some path → WantsNone x path asked.job.value
        → IsToldAs c s NoValue }
    ensures systems_outside_are_told { (c : Call) (s : Status) (asked : Asked) (texts : List (List ℕ)) (text : List ℕ)
        (x : Elaborated) (w : Ready) (rule : StaticRule) (spot : Spot) → Gave c s
        → ((name : List ℕ) → IsKnown (c.files name)) → IsAsked c.words asked
        → Loaded c.files (files_of asked) (Ok texts) → IsText asked texts text
        → Elaborates asked.job.main text (Ok x) → Asks asked texts x (Ok w)
        → is_static asked.job.command ≡ true → IsAskedUpTo w.order rule
        → IsFirstBroken x.system w.dropped rule spot
        → IsToldAs c s (Outside (rule_number rule) (spot_path x spot)) }
{
    refusals_are_told();
}
