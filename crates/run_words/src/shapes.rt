//! The table of the commands: what each takes, and how far it goes.

ghost use Rattle.std.specs.Prelude.{◌≡◌};
ghost use Rattle.run_words.specs.Commands.{shape_of, is_made};

use crate::verbs::Verb;

/// What stands behind a command.
#[derive(Clone, Copy)]
pub enum Form {
    /// The name of the model's file.
    Model,
    /// The names of the model's file and of the script's.
    ModelAndScript,
    /// The names of the model's file and of the file with a list of cuts.
    ModelAndList,
    /// How many components, from 1 to 200, the model has that the command makes.
    Number,
}

/// How a command takes an option.
#[derive(Clone, Copy)]
pub enum Takes {
    /// It does not take it.
    Never,
    /// It takes it, and does without.
    May,
    /// It takes it, and cannot do without.
    Must,
}

/// How far a command goes behind the flat system.
#[derive(Clone, Copy)]
pub enum Reach {
    /// No further.
    System,
    /// To the trees of modes, for systems of the static fragment.
    Forest,
    /// To the gate table of an observer's value, by the trees.
    Table,
    /// To the cuts of the value, by diagrams of the gates.
    Cuts,
}

/// What a command takes, and how far it goes.
#[derive(Clone, Copy)]
pub struct Shape {
    /// What stands behind it.
    pub files: Form,
    /// Whether it takes `--main`.
    pub main: bool,
    /// How it takes `--observer`.
    pub observer: Takes,
    /// Whether it takes `--value`.
    pub value: bool,
    /// Whether it takes `--nodes`.
    pub nodes: bool,
    /// Whether it takes `--max-order`.
    pub order: bool,
    /// Whether it takes `--drop`.
    pub dropped: bool,
    /// How far it goes.
    pub reach: Reach,
    /// Whether it explains the values of flows: all of them, or those of the observer's cone.
    pub explains: bool,
    /// Whether it speaks of the units of the model.
    pub units: bool,
}

impl Form {
    /// Whether there is no file, and the command makes its model.
    pub fn is_made(self) -> bool
        ensures { result ≡ is_made self }
    {
        matches!(self, Form::Number)
    }
}

// A command about the flat system.
const OF_SYSTEM: Shape = Shape {
    files: Form::Model,
    main: true,
    observer: Takes::Never,
    value: false,
    nodes: false,
    order: false,
    dropped: false,
    reach: Reach::System,
    explains: false,
    units: false,
};

// A command about the trees of modes.
const OF_FOREST: Shape = Shape {
    dropped: true,
    reach: Reach::Forest,
    ..OF_SYSTEM
};

// A command about the gate table.
const OF_TABLE: Shape = Shape {
    observer: Takes::Must,
    value: true,
    reach: Reach::Table,
    ..OF_FOREST
};

// A command about the cuts.
const OF_CUTS: Shape = Shape {
    nodes: true,
    reach: Reach::Cuts,
    ..OF_TABLE
};

// A command about cuts, or about those of at most so many events alone.
const OF_LISTED_CUTS: Shape = Shape {
    order: true,
    ..OF_CUTS
};

impl Verb {
    /// The command's row of the table.
    pub fn shape(self) -> Shape
        ensures { result ≡ shape_of self }
    {
        match self {
            Verb::Check | Verb::Flat => OF_SYSTEM,
            Verb::Replay => Shape {
                files: Form::ModelAndScript,
                ..OF_SYSTEM
            },
            Verb::Explain => Shape {
                files: Form::ModelAndScript,
                observer: Takes::May,
                explains: true,
                ..OF_SYSTEM
            },
            Verb::Fragment => OF_FOREST,
            Verb::Equations => OF_TABLE,
            Verb::Cuts => OF_LISTED_CUTS,
            Verb::CheckCuts => Shape {
                files: Form::ModelAndList,
                ..OF_LISTED_CUTS
            },
            Verb::Modules => Shape {
                units: true,
                ..OF_CUTS
            },
            Verb::Make => Shape {
                files: Form::Number,
                reach: Reach::Cuts,
                main: false,
                ..OF_SYSTEM
            },
        }
    }
}
