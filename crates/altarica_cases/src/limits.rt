//! The limits of texts, of units, of flat systems and of events with an edge, each at its number and one past it.

use crate::made::{Part, text_of};
use crate::{end_of_job, run_job};
use std::io;

/// A limit: a name, a job, and the texts that it names `model` and `script`.
struct Limit {
    name: &'static str,
    job: &'static str,
    model: &'static [Part],
    script: &'static [Part],
    /// Whether the last line alone of what the job writes is printed.
    is_long: bool,
}

/// The limits. A part that ends at 1 and at 1 stands there once, and one that ends at 0 and at 1 only past the limit.
const LIMITS: [Limit; 13] = [
    Limit {
        name: "model-bytes",
        job: "check model",
        model: &[("block B end", 0, 1, 1), (" ", 11, 4_194_304, 4_194_305)],
        script: &[],
        is_long: false,
    },
    Limit {
        name: "script-bytes",
        job: "replay model script",
        model: &[("block B end", 0, 1, 1)],
        script: &[(" ", 0, 1_048_576, 1_048_577)],
        is_long: false,
    },
    // Blocks, each inside the one before.
    Limit {
        name: "depth",
        job: "check model",
        model: &[
            ("block B", 0, 1, 1),
            (" block C", 0, 63, 64),
            (" end", 0, 63, 64),
            (" end", 0, 1, 1),
        ],
        script: &[],
        is_long: false,
    },
    Limit {
        name: "units",
        job: "check model",
        model: &[
            ("class C end block B C u0", 0, 1, 1),
            (", u#", 1, 16_383, 16_384),
            ("; end", 0, 1, 1),
        ],
        script: &[],
        is_long: false,
    },
    // 1,024 units of 32 variables each, and a variable.
    Limit {
        name: "variables",
        job: "check model",
        model: &[
            ("class C Boolean v0", 0, 1, 1),
            (", v#", 1, 32, 32),
            (" (init = true); end block B C u0", 0, 1, 1),
            (", u#", 1, 1_024, 1_024),
            ("; ", 0, 1, 1),
            ("Boolean w (init = true); ", 0, 0, 1),
            ("end", 0, 1, 1),
        ],
        script: &[],
        is_long: false,
    },
    // 512 units of 32 events each, and an event.
    Limit {
        name: "events",
        job: "check model",
        model: &[
            ("class C event v0", 0, 1, 1),
            (", v#", 1, 32, 32),
            ("; end block B C u0", 0, 1, 1),
            (", u#", 1, 512, 512),
            ("; ", 0, 1, 1),
            ("event w; ", 0, 0, 1),
            ("end", 0, 1, 1),
        ],
        script: &[],
        is_long: false,
    },
    // The nodes of the tree: 71 units of 28,168 and one of 72.
    Limit {
        name: "tree-nodes",
        job: "check model",
        model: &[
            ("class C parameter Boolean o = true", 0, 1, 1),
            (" and true", 1, 28_166, 28_166),
            ("; end block B C u0", 0, 1, 1),
            (", u#", 1, 71, 71),
            ("; ", 0, 1, 1),
            ("event e; ", 0, 0, 1),
            ("end", 0, 1, 1),
        ],
        script: &[],
        is_long: false,
    },
    // The ways of an event.
    Limit {
        name: "ways",
        job: "check model",
        model: &[
            ("block B event e; transition", 0, 1, 1),
            (" e: true -> skip;", 0, 256, 257),
            (" end", 0, 1, 1),
        ],
        script: &[],
        is_long: false,
    },
    // Four synchronisations, each of an event with 250 ways and of 999 events with one.
    Limit {
        name: "way-parts",
        job: "check model",
        model: &[
            ("block B event a, s, t, u, v; transition", 0, 1, 1),
            (" a: true -> skip;", 0, 250, 250),
            (" event e#; transition e#: true -> skip;", 1, 1_000, 1_000),
            (" transition s: !a", 0, 1, 1),
            (" & !e#", 1, 1_000, 1_000),
            ("; t: !a", 0, 1, 1),
            (" & !e#", 1, 1_000, 1_000),
            ("; u: !a", 0, 1, 1),
            (" & !e#", 1, 1_000, 1_000),
            ("; v: !a", 0, 1, 1),
            (" & !e#", 1, 1_000, 1_000),
            (";", 0, 1, 1),
            (" event w; transition w: !e1;", 0, 0, 1),
            (" end", 0, 1, 1),
        ],
        script: &[],
        is_long: false,
    },
    // 1,000 observers of 1,000 nodes each.
    Limit {
        name: "expression-nodes",
        job: "check model",
        model: &[
            ("class C observer Boolean o = true", 0, 1, 1),
            (" and true", 1, 999, 999),
            ("; end block B C u0", 0, 1, 1),
            (", u#", 1, 1_000, 1_000),
            ("; ", 0, 1, 1),
            ("observer Boolean z = true; ", 0, 0, 1),
            ("end", 0, 1, 1),
        ],
        script: &[],
        is_long: false,
    },
    // The events that have an edge that is live: eight units have 255 in a row, each of which leads from a value of a
    // state to the next, and the main block some more.
    Limit {
        name: "live-events",
        job: "fragment model",
        model: &[
            ("domain N [0, 255] class C N n (init = 0);", 0, 1, 1),
            (" event e@; transition e@: n == @ -> n := #;", 1, 256, 256),
            (
                " end block B C u0, u1, u2, u3, u4, u5, u6, u7; N m (init = 0);",
                0,
                1,
                1,
            ),
            (" event f@; transition f@: m == @ -> m := #;", 1, 9, 10),
            (" end", 0, 1, 1),
        ],
        script: &[],
        is_long: true,
    },
    // The gates of a table: those of 122 flows that count 60 states each, and of some that count fewer: 34, 1 and 1, or
    // 33, 5, 3, 3, 3 and 3.
    Limit {
        name: "gates",
        job: "cuts model --observer o --nodes 1",
        model: &[
            ("domain N [0, 60] block B N f0", 0, 1, 1),
            (", f#", 1, 125, 128),
            (" (reset = 0); observer Boolean o = s1;", 0, 1, 1),
            (" Boolean s# (init = true); event e#;", 1, 61, 61),
            (" transition", 0, 1, 1),
            (" e#: s# -> s# := false;", 1, 61, 61),
            (" assertion", 0, 1, 1),
            (
                " f# := count(s1, s2, s3, s4, s5, s6, s7, s8, s9, s10, s11, s12, s13, s14, s15, \
                s16, s17, s18, s19, s20, s21, s22, s23, s24, s25, s26, s27, s28, s29, s30, \
                s31, s32, s33, s34, s35, s36, s37, s38, s39, s40, s41, s42, s43, s44, s45, \
                s46, s47, s48, s49, s50, s51, s52, s53, s54, s55, s56, s57, s58, s59, s60);",
                0,
                122,
                122,
            ),
            (" f122 := count(s1", 0, 1, 1),
            (", s#", 2, 35, 34),
            ("); f123 := count(s1", 0, 1, 1),
            (", s#", 2, 2, 6),
            ("); f124 := count(s1", 0, 1, 1),
            (", s#", 2, 2, 4),
            (");", 0, 1, 1),
            (" f# := count(s1, s2, s3);", 125, 125, 128),
            (" end", 0, 1, 1),
        ],
        script: &[],
        is_long: false,
    },
    // The cut lines of a list.
    Limit {
        name: "cut-lines",
        job: "checkcuts model script --observer o",
        model: &[
            ("block B Boolean s (init = true); event e;", 0, 1, 1),
            (" transition e: s -> s := false;", 0, 1, 1),
            (" observer Boolean o = not s; end", 0, 1, 1),
        ],
        script: &[("{e}\n", 0, 4_096, 4_097)],
        is_long: true,
    },
];

/// Runs the job of each limit.
pub(crate) fn run_limits(rt: &HostRuntime) -> io::Result<()> {
    for limit in &LIMITS {
        run_limit(rt, limit, false)?;
        run_limit(rt, limit, true)?;
    }
    Ok(())
}

// Runs the job of a limit over the texts at its number, or over those one past it.
fn run_limit(rt: &HostRuntime, limit: &Limit, is_past: bool) -> io::Result<()> {
    let model = text_of(rt.alloc(), limit.model, is_past)?;
    let script = text_of(rt.alloc(), limit.script, is_past)?;
    let texts = [model.as_str(), script.as_str()];
    if limit.is_long {
        return end_of_job(rt, limit.name, texts, limit.job);
    }
    run_job(rt, limit.name, texts, limit.job)
}
