//! The macros, each with the numbers of those that it names.
ghost use Rattle.std.specs.Prelude.{◌≡◌, ◌∷◌, ◌++◌, ◌+◌, ◌≤◌, [], Some, IfOk, OnOk, MatchOption, length, reverse};
ghost use Rattle.attr_stack.specs.Links.{links_of, frame_pairs, left_of, AreLinks};
ghost use Rattle.attr_stack.specs.Numbers.{number_at, number_pairs};

use crate::macros::{Macros, meaning_of, number_of};
use attr_line::Pair;
use std::alloc::{AllocError, Global};
use std::marker::Model;

/// The number of the macro that each pair of a list names.
type Links = Vec<Option<usize>>;

/// The number of the macro that each of these pairs names.
fn links_of(alloc: Global, macros: &Macros, pairs: &[Pair]) -> Result<Links, AllocError>
    ensures { IfOk result (λ links. links.items ≡ links_of macros.now pairs.now) }
{
    let mut links = Vec::with_capacity(alloc, pairs.len())?;
    for pair in pairs {
        links.push_reserved(number_of(macros, pair.name.as_slice()));
    }
    Ok(links)
}

/// The numbers that the pairs of each macro name.
fn all_links(alloc: Global, macros: &Macros) -> Result<Vec<Links>, AllocError>
    ensures { IfOk result (λ links. AreLinks macros.now links.items) }
{
    let bodies = macros.bodies.as_slice();
    let mut links = Vec::with_capacity(alloc, bodies.len())?;
    for body in bodies {
        links.push_reserved(links_of(alloc, macros, body.pairs.as_slice())?);
    }
    Ok(links)
}

/// A macro that is read from its last pair on.
#[derive(Clone, Copy)]
pub struct Frame {
    pub number: usize,
    /// How many of its pairs are left.
    pub left: usize,
}

/// The last pair that is left of a macro.
#[derive(Clone, Copy)]
pub struct Last<'a> {
    pub pair: &'a Pair,
    /// The number of the macro that the pair names.
    pub number: Option<usize>,
    /// The macro without the pair.
    pub rest: Frame,
}

/// The macros with the numbers that their pairs name, so that a pair is looked up by name once, and not at each path.
#[derive(Drop)]
pub struct LinkedMacros {
    pub macros: Macros,
    links: Vec<Links>,
    ghost linked: { AreLinks macros links.items },
}

impl LinkedMacros {
    /// Looks up the name of each pair once.
    pub fn of(alloc: Global, macros: Macros) -> Result<LinkedMacros, AllocError>
        ensures { IfOk result (λ linked. linked.macros ≡ macros) }
    {
        let links = all_links(alloc, &macros)?;
        Ok(LinkedMacros { macros, links })
    }

    /// How many macros there are.
    pub fn len(&self) -> usize {
        self.links.len()
    }

    /// The number of a macro.
    pub fn number_of(&self, name: &[u8]) -> Option<usize>
        ensures { result ≡ number_at self.now.macros name.now }
    {
        number_of(&self.macros, name)
    }

    /// What the macro with a number stands for.
    fn pairs_at(&self, number: usize) -> &[Pair]
        ensures { result.now ≡ number_pairs self.now.macros (Some number) }
    {
        meaning_of(&self.macros, Some(number))
    }

    /// The numbers that its pairs name.
    fn links_at(&self, number: usize) -> &[Option<usize>]
        ensures { result.now ≡ links_of self.now.macros (number_pairs self.now.macros (Some number)) }
    {
        match self.links.get(number) {
            Some(links) => links.as_slice(),
            None => &[],
        }
    }

    /// The last pair that is left of a macro.
    pub fn last_of(&self, frame: Frame) -> Option<Last<'_>>
        ensures { MatchOption result (frame_pairs self.now.macros frame ≡ []) (λ last.
            (frame_pairs self.now.macros frame ≡ last.pair.now ∷ frame_pairs self.now.macros last.rest)
            × (last.number ≡ number_at self.now.macros last.pair.now.name)) }
    {
        let Frame { number, left } = frame;
        let pairs = self.pairs_at(number);
        let links = self.links_at(number);
        let left = left.min(pairs.len());
        if left == 0 {
            return None;
        }
        let left = left - 1;
        Some(Last {
            pair: &pairs[left],
            number: links[left],
            rest: Frame { number, left },
        })
    }
}

/// Puts the macro with a number, if there is one, behind those that are read.
pub fn push_frame(
    frames: &mut Vec<Frame>,
    macros: &LinkedMacros,
    number: Option<usize>,
) -> Result<(), AllocError>
    ensures len { OnOk result (length frames.new.items ≤ length frames.old.items + 1) }
    ensures left { OnOk result (left_of macros.now.macros frames.new.items
        ≡ reverse (number_pairs macros.now.macros number) ++ left_of macros.now.macros frames.old.items) }
{
    let Some(number) = number else {
        return Ok(());
    };
    let left = macros.pairs_at(number).len();
    frames.push(Frame { number, left })?;
    Ok(())
}
