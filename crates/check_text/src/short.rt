//! The lines of a list that are checked where the cuts of at most so many events are meant.

ghost use Rattle.std.specs.Prelude.{◌≡◌, IfOk, map};
ghost use Rattle.check_text.specs.Printed.{chains_within, chain_parts};
ghost use Rattle.check_text.specs.Texts.{is_above};

use ar_base::Memory;
use gts_core::Chain;
use std::alloc::Global;

/// The lines with at most so many labels, in their order, or all of them where no number is given.
pub fn short_chains(
    alloc: Global,
    order: Option<u32>,
    chains: &[Chain],
) -> Result<Vec<Chain>, Memory>
    ensures { IfOk result (λ short.
        map chain_parts short.items ≡ map chain_parts (chains_within order chains.now)) }
{
    let mut short = Vec::new(alloc);
    for chain in chains {
        if !is_above(order, chain.ways.len()) {
            short.push(copied(chain)?)?;
        }
    }
    Ok(short)
}

/// Whether a line of so many labels has more than are asked for.
pub(crate) fn is_above(order: Option<u32>, labels: usize) -> bool
    ensures { result ≡ is_above order labels }
{
    match order {
        Some(most) => (most as usize) < labels,
        None => false,
    }
}

// A chain of the same line and ways.
fn copied(chain: &Chain) -> Result<Chain, Memory>
    ensures { IfOk result (λ copy. chain_parts copy ≡ chain_parts chain.now) }
{
    let ways = chain.ways.clone()?;
    Ok(Chain {
        line: chain.line,
        ways,
    })
}
