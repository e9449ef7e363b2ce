//! What is decided so far of the attributes of a path.
ghost use Rattle.std.specs.Bool.{OnTrue};
ghost use Rattle.std.specs.Prelude.{◌≡◌, ◌<◌, ℕ, true, List, None, Some};
ghost use Rattle.std.specs.Prelude.{IfOk, OnOk, MatchOption, is_some, length, set};
ghost use Rattle.std.specs.Option.{option_map};
ghost use Rattle.attr_stack.specs.declared.noted.Decided.{Decided};
ghost use Rattle.attr_stack.specs.Numbers.{number_at};
ghost use Rattle.attr_stack.specs.Seen.{mark_at, other_at, said_by, state_at, with_state, AreKnown, Notes};

use crate::linked_macros::LinkedMacros;
use attr_line::{AttrState, Pair};
use std::alloc::{AllocError, Global};
use std::collections::BTreeMap;

/// The states of names that are no macros.
pub type Others<'a> = BTreeMap<&'a [u8], &'a AttrState>;

/// What is decided so far: of a macro at its number, and of another name that is asked for by its bytes.
#[derive(Drop)]
pub struct Decided<'a> {
    pub macros: &'a LinkedMacros,
    pub marks: Vec<Option<&'a AttrState>>,
    pub others: Others<'a>,
}

/// What is decided of a name that isn't a macro.
fn other_of<'a>(others: &Others<'a>, name: &[u8]) -> Option<&'a AttrState>
    ensures { option_map (λ s. s.now) result ≡ other_at others.now name.now }
{
    match others.get(name) {
        Some(state) => Some(*state),
        None => None,
    }
}

/// Adds the state of a name that isn't a macro.
fn put_other<'a>(others: &mut Others<'a>, pair: &'a Pair) -> Result<(), AllocError>
    ensures { OnOk result ((name : List ℕ)
        → other_at others.new name ≡ with_state pair.now (other_at others.old) name) }
{
    others.insert(pair.name.as_slice(), &pair.state)?;
    Ok(())
}

/// Sets the mark of a macro.
fn set_mark<'a>(marks: &mut Vec<Option<&'a AttrState>>, place: usize, state: &'a AttrState)
    requires { place < length marks.old.items }
    ensures { marks.new.items ≡ set marks.old.items place (Some state.entry) }
{
    marks[place] = Some(state);
}

impl<'a> Decided<'a> {
    /// What is decided of a name with this number, if it is a macro.
    fn at(&self, number: Option<usize>, name: &[u8]) -> Option<&'a AttrState>
        ensures { option_map (λ s. s.now) result ≡ said_by self.now name.now number }
    {
        let Some(number) = number else {
            return other_of(&self.others, name);
        };
        match self.marks.get(number) {
            Some(mark) => *mark,
            None => other_of(&self.others, name),
        }
    }

    /// What is decided of a name.
    fn get(&self, name: &[u8]) -> Option<&'a AttrState>
        ensures { option_map (λ s. s.now) result ≡ state_at self.now name.now }
    {
        self.at(self.macros.number_of(name), name)
    }

    /// Whether something is decided of the macro with this number, if there is one.
    fn is_marked(&self, number: Option<usize>) -> bool
        ensures { OnTrue result ((name : List ℕ) → is_some (said_by self.now name number) ≡ true) }
    {
        let Some(number) = number else {
            return false;
        };
        match self.marks.get(number) {
            Some(mark) => mark.is_some(),
            None => false,
        }
    }

    /// The place of the mark of a macro with this number.
    fn place_of(&self, number: Option<usize>) -> Option<usize>
        ensures { MatchOption result (mark_at self.now.marks.items number ≡ None)
            (λ place. (number ≡ Some place) × (place < length self.now.marks.items)) }
    {
        let number = number?;
        if number < self.marks.len() {
            Some(number)
        } else {
            None
        }
    }

    /// Adds what a pair says, whose name has this number if it is a macro.
    fn put(&mut self, pair: &'a Pair, number: Option<usize>) -> Result<(), AllocError>
        requires { number ≡ number_at self.old.macros.now.macros pair.now.name }
        ensures macros { self.new.macros ≡ self.old.macros }
        ensures state { OnOk result ((name : List ℕ)
            → state_at self.new name ≡ with_state pair.now (state_at self.old) name) }
    {
        match self.place_of(number) {
            Some(place) => set_mark(&mut self.marks, place, &pair.state),
            None => put_other(&mut self.others, pair)?,
        }
        Ok(())
    }

    /// Whether a pair decides. What it says is noted then.
    fn note(&mut self, pair: &'a Pair, number: Option<usize>) -> Result<bool, AllocError>
        requires { number ≡ number_at self.old.macros.now.macros pair.now.name }
        ensures macros { self.new.macros ≡ self.old.macros }
        ensures decides { IfOk result (λ decides. Notes pair.now (state_at self.old) (state_at self.new) decides) }
    {
        if self.at(number, pair.name.as_slice()).is_some() {
            return Ok(false);
        }
        self.put(pair, number)?;
        Ok(true)
    }
}

/// Some names of which something is decided, each at one of the two places that its bytes tell.
type Recent<'a> = Vec<Option<&'a [u8]>>;

/// What a hash begins with, and what it is multiplied by for each byte (FNV-1a).
const SEED: u64 = 0xcbf2_9ce4_8422_2325;

const PRIME: u64 = 0x0100_0000_01b3;

/// How many places there are for each macro. Of two names few then have a place in common.
const ROOM: usize = 16;

/// The most places of recent names.
const MOST: usize = 65_536;

fn hash_of(name: &[u8]) -> u64 {
    let mut hash = SEED;
    for byte in name {
        hash = (hash ^ u64::from(*byte)).wrapping_mul(PRIME);
    }
    hash
}

/// How many places there are for so many macros: a power of two.
fn room_for(macros: usize) -> usize {
    macros.saturating_mul(ROOM).min(MOST).next_power_of_two()
}

/// The two places of a name among so many, a power of two.
fn places_of(name: &[u8], count: usize) -> (usize, usize) {
    let mask = (count as u64).saturating_sub(1);
    let hash = hash_of(name);
    ((hash & mask) as usize, ((hash / 65_536) & mask) as usize)
}

/// Whether a name stands at a place.
fn stands_at(recent: &[Option<&[u8]>], place: usize, name: &[u8]) -> bool
    ensures { (states : Decided) → AreKnown recent.now states
        → OnTrue result (is_some (state_at states name.now) ≡ true) }
{
    match recent.get(place) {
        Some(Some(there)) => *there == name,
        _ => false,
    }
}

fn is_free(recent: &[Option<&[u8]>], place: usize) -> bool {
    match recent.get(place) {
        Some(None) => true,
        _ => false,
    }
}

/// Puts a name of which something is decided at its first place, or at its second one if another name has that.
fn remember<'a>(recent: &mut Recent<'a>, name: &'a [u8])
    ensures { (states : Decided) → AreKnown recent.old.items states → is_some (state_at states name.now) ≡ true
        → AreKnown recent.new.items states }
{
    let (first, second) = places_of(name, recent.len());
    let place = if is_free(recent.as_slice(), first) {
        first
    } else {
        second
    };
    if place < recent.len() {
        recent[place] = Some(name);
    }
}

/// What is decided of the names that are asked for and of macros. No other name stands here.
///
/// Most names that come again are found among the recent ones, at the cost of their bytes.
#[derive(Drop)]
pub struct States<'a> {
    pub decided: Decided<'a>,
    /// How many names are decided.
    count: usize,
    recent: Recent<'a>,
    ghost known: { AreKnown recent.items decided },
}

impl<'a> States<'a> {
    /// Nothing is decided yet.
    pub fn new(alloc: Global, macros: &'a LinkedMacros) -> Result<States<'a>, AllocError>
        ensures macros { IfOk result (λ states. states.decided.macros ≡ macros.entry) }
        ensures none { IfOk result (λ states. (name : List ℕ) → state_at states.decided name ≡ None) }
    {
        let count = macros.len();
        let decided = Decided {
            macros,
            marks: Vec::from_elem(alloc, None, count)?,
            others: BTreeMap::new(alloc),
        };
        Ok(States {
            decided,
            count: 0,
            recent: Vec::from_elem(alloc, None, room_for(count))?,
        })
    }

    /// Whether something is decided of a name, if it is seen at once. It may be `false` all the same, where other names
    /// have its places.
    pub fn is_recent(&self, name: &[u8]) -> bool
        ensures { OnTrue result (is_some (state_at self.now.decided name.now) ≡ true) }
    {
        let recent = self.recent.as_slice();
        let (first, second) = places_of(name, recent.len());
        if stands_at(recent, first, name) {
            return true;
        }
        stands_at(recent, second, name)
    }

    /// Whether something is decided of the macro with this number, if there is one.
    pub fn is_marked(&self, number: Option<usize>) -> bool
        ensures { OnTrue result ((name : List ℕ) → is_some (said_by self.now.decided name number) ≡ true) }
    {
        self.decided.is_marked(number)
    }

    /// Whether something is decided of a name.
    pub fn is_known(&self, name: &[u8]) -> bool
        ensures { result ≡ is_some (state_at self.now.decided name.now) }
    {
        self.decided.get(name).is_some()
    }

    /// Whether a pair decides, whose name has this number if it is a macro. What it says is noted then.
    pub fn note(&mut self, pair: &'a Pair, number: Option<usize>) -> Result<bool, AllocError>
        requires { number ≡ number_at self.old.decided.macros.now.macros pair.now.name }
        ensures macros { self.new.decided.macros ≡ self.old.decided.macros }
        ensures decides { IfOk result (λ decides. Notes pair.now
            (state_at self.old.decided) (state_at self.new.decided) decides) }
    {
        match self.decided.note(pair, number) {
            Ok(decides) => {
                self.count = self.count.saturating_add(usize::from(decides));
                remember(&mut self.recent, pair.name.as_slice());
                Ok(decides)
            }
            Err(AllocError) => {
                self.recent.clear();
                Err(AllocError)
            }
        }
    }

    /// How many names are decided.
    pub fn len(&self) -> usize {
        self.count
    }

    /// What is decided of a name.
    pub fn get(&self, name: &[u8]) -> Option<&AttrState>
        ensures { option_map (λ s. s.now) result ≡ state_at self.now.decided name.now }
    {
        self.decided.get(name)
    }
}
