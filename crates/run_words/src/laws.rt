//! Laws of the words, and of the models that the generator makes.

ghost use Rattle.std.specs.Prelude.{◌≡◌, ◌≤◌, ℕ, false, List, None, length};
ghost use Rattle.ar_base.specs.Counts.{limit_of};
ghost use Rattle.ar_base.specs.declared.counts.Count.TheVariants.{ModelBytes};
ghost use Rattle.run_words.specs.declared.jobs.Asked.{Asked};
ghost use Rattle.run_words.specs.declared.jobs.Job.{Job};
ghost use Rattle.run_words.specs.Generator.{generated};
ghost use Rattle.run_words.specs.Jobs.{IsAsked};
ghost use Rattle.run_words.specs.JobsInside.{IsJob};
ghost use Rattle.run_words.specs.Commands.{shape_of};

/// Words give at most one job, and generated models are short.
///
/// - `one_job`, `one_asked`: Words give at most one job, and ask for at most one thing.
/// - `job_is_asked`, `asked_is_job`: Words that give a job ask for it without an order, and the other way round.
/// - `order_is_taken`: Where there is an order, the command takes one.
/// - `generated_models_are_short`: The text of a generated model is within the limit of a model's bytes.
pub fn one_job()
    ensures one_job { (words : List (List ℕ)) (a b : Job) → IsJob words a → IsJob words b → a ≡ b }
    ensures one_asked { (words : List (List ℕ)) (a b : Asked) → IsAsked words a → IsAsked words b → a ≡ b }
    ensures job_is_asked { (words : List (List ℕ)) (job : Job) → IsJob words job
        → IsAsked words (record { job = job; order = None }) }
    ensures asked_is_job { (words : List (List ℕ)) (asked : Asked) → IsAsked words asked → asked.order ≡ None
        → IsJob words asked.job }
    ensures order_is_taken { (words : List (List ℕ)) (asked : Asked) → IsAsked words asked
        → (shape_of asked.job.command).order ≡ false → asked.order ≡ None }
    ensures generated_models_are_short { (number : ℕ) → number ≤ 200 → length (generated number) ≤ limit_of ModelBytes }
{}
