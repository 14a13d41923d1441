//! What stands behind the command.

ghost use Rattle.std.specs.Prelude.{◌≡◌, ℕ, List, Option, map, option_map, IfOk, IfErr};
ghost use Rattle.run_words.specs.declared.jobs.JobFault.TheVariants.{Usage, Memory as OutOfMemory};
ghost use Rattle.run_words.specs.declared.shapes.Form.TheVariants.{Number};
ghost use Rattle.run_words.specs.Jobs.{NamesFiles};
ghost use Rattle.run_words.specs.Lines.{or_none};

use crate::jobs::JobFault;
use crate::numbers::number;
use crate::shapes::Form;
use ar_base::Text;
use std::alloc::Global;

// The least and the most components of a generated model.
const LEAST_COMPONENTS: u32 = 1;

const MOST_COMPONENTS: u32 = 200;

// The files, or the number of components.
#[derive(Drop)]
pub struct Named {
    pub model: Text,
    pub script: Option<Text>,
    pub number: u32,
}

// What the words behind the command name.
pub(crate) fn named_files(
    alloc: Global,
    form: Form,
    files: Option<&[&str]>,
) -> Result<Named, JobFault>
    ensures found { IfOk result (λ n.
        NamesFiles form (or_none (option_map (λ s. map (λ w. w.now) s.now) files.entry)) n.model
        n.script n.number) }
    ensures usage { result ≡ Err Usage → (model : List ℕ) (script : Option (List ℕ)) (number : ℕ)
        → NamesFiles form (or_none (option_map (λ s. map (λ w. w.now) s.now) files.entry)) model
        script number → ⊥ }
{
    match form {
        Form::Model => match files {
            Some([model]) => Ok(Named {
                model: text(alloc, model)?,
                script: None,
                number: 0,
            }),
            _ => Err(JobFault::Usage),
        },
        Form::ModelAndScript | Form::ModelAndList => match files {
            Some([model, second]) => Ok(Named {
                model: text(alloc, model)?,
                script: Some(text(alloc, second)?),
                number: 0,
            }),
            _ => Err(JobFault::Usage),
        },
        Form::Number => components(alloc, files),
    }
}

// The text of a word.
pub(crate) fn text(alloc: Global, word: &str) -> Result<Text, JobFault>
    ensures found { IfOk result (λ t. t ≡ word.now) }
    ensures memory { IfErr result (λ e. e ≡ OutOfMemory) }
{
    let text = String::from_str(alloc, word)?;
    Ok(Text::new(text))
}

fn components(alloc: Global, files: Option<&[&str]>) -> Result<Named, JobFault>
    ensures found { IfOk result (λ n.
        NamesFiles Number (or_none (option_map (λ s. map (λ w. w.now) s.now) files.entry)) n.model
        n.script n.number) }
    ensures usage { result ≡ Err Usage → (model : List ℕ) (script : Option (List ℕ)) (number : ℕ)
        → NamesFiles Number (or_none (option_map (λ s. map (λ w. w.now) s.now) files.entry)) model
        script number → ⊥ }
{
    match files {
        Some([word]) => match number(word, LEAST_COMPONENTS, MOST_COMPONENTS) {
            Some(number) => Ok(Named {
                model: text(alloc, "")?,
                script: None,
                number,
            }),
            None => Err(JobFault::Usage),
        },
        _ => Err(JobFault::Usage),
    }
}
