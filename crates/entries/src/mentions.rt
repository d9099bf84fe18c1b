//! For each number, the statements that mention it, each with the mention that was active beneath
//! it.
ghost use Rattle.std.specs.Prelude.{◌≡◌, ℕ, ◌≤◌, ◌<◌, ◌++◌, ◌∷◌, [], length, take, IsTrue, IfSome};
ghost use Rattle.std.specs.Prelude.{IfNone, OnOk, OnErr};
ghost use Rattle.entries.specs.Mentions.{AreKeptUntil, AreMentions, AreSame, AreUntil, AreWith};
ghost use Rattle.entries.specs.Mentions.{IsFront, IsLast, IsPoppedAfter, IsUntil, before};
ghost use Rattle.entries.specs.Mentions.{mentions_of, positions_of};

use crate::room::give_back;
use std::alloc::{AllocError, Global};
use std::marker::Model;

/// That the statement at a position mentions a number.
#[derive(Clone, Copy, Drop)]
pub struct Mention {
    /// The position of the statement.
    pub position: u32,
    /// The mention of the number that was active beneath it, counted from 1; 0 if none was.
    pub beneath: u32,
}

/// The mentions of one number, in the order of their positions. Contracts see the list of them.
#[derive(Drop)]
pub struct MentionList {
    mentions: Vec<Mention>,
}

impl Model for MentionList {
    ghost use Rattle.std.specs.Prelude.{List};
    ghost use Rattle.entries.specs.declared.mentions.Mention.{Mention};
    ghost use Rattle.entries.specs.Mentions.{AreMentions};

    ghost Value = { List Mention };

    ghost view = { λ a. a.mentions.items };

    ghost invariant = { λ a. AreMentions a.mentions.items };
}

impl MentionList {
    /// Returns a list without mentions.
    fn new(alloc: Global) -> MentionList
        ensures { result ≡ [] }
    {
        MentionList {
            mentions: Vec::new(alloc),
        }
    }

    /// Appends a mention.
    ///
    /// Errors: an allocation fails; the list is then unchanged.
    fn push(&mut self, mention: Mention) -> Result<(), AllocError>
        requires linked { mention.beneath ≤ length self.old }
        requires until { IsUntil mention.position self.old }
        ensures pushed { OnOk result (self.new ≡ self.old ++ mention ∷ []) }
        ensures same { OnErr result (self.new ≡ self.old) }
    {
        self.mentions.push(mention)?;
        Ok(())
    }

    /// Removes the last mention if it is after `last`, and frees unused memory as `give_back` does.
    /// Returns whether it removed a mention.
    fn pop_after(&mut self, last: u32) -> bool
        ensures { IsPoppedAfter last result self.old self.new }
    {
        let Some(mention) = self.mentions.last() else {
            return false;
        };
        if mention.position <= last {
            return false;
        }
        self.mentions.truncate(self.mentions.len() - 1);
        give_back(&mut self.mentions);
        true
    }

    /// Returns whether there are no mentions.
    fn is_empty(&self) -> bool
        ensures { IsTrue result → self.now ≡ [] }
    {
        self.mentions.is_empty()
    }

    /// Returns the mentions before `at`.
    ///
    /// Cost: that of `count_before`.
    fn before(&self, at: usize) -> MentionStack<'_>
        ensures before { result ≡ before at self.now }
        ensures front { (n : ℕ) × (result ≡ take n self.now) }
    {
        let count = count_before(&self.mentions, at);
        MentionStack {
            mentions: &self.mentions[..count],
        }
    }
}

/// A view of the last of some mentions of a number and of those beneath it.
///
/// Contracts see the list of the mentions up to the last one. `positions_of` of it has the
/// positions from the last one down.
#[derive(Drop)]
pub struct MentionStack<'a> {
    mentions: &'a [Mention],
}

impl<'a> Model for MentionStack<'a> {
    ghost use Rattle.std.specs.Prelude.{List};
    ghost use Rattle.entries.specs.declared.mentions.Mention.{Mention};
    ghost use Rattle.entries.specs.Mentions.{AreMentions};

    ghost Value = { List Mention };

    ghost view = { λ a. a.mentions.now };

    ghost invariant = { λ a. AreMentions a.mentions.now };
}

impl<'a> MentionStack<'a> {
    /// Returns a view of no mentions.
    pub fn empty() -> MentionStack<'a>
        ensures { result ≡ [] }
    {
        MentionStack { mentions: &[] }
    }

    /// Returns which mention of the number the last one is, counted from 1; 0 if there is none.
    pub fn count(&self) -> usize
        ensures { result ≡ length self.now }
    {
        self.mentions.len()
    }

    /// Returns the last mention.
    pub fn last(&self) -> Option<Mention>
        ensures some { IfSome result (IsLast self.now) }
        ensures none { IfNone result (self.now ≡ []) }
    {
        self.mentions.last().copied()
    }

    /// Goes down to the mention beneath the last one, and returns the last one's position, or
    /// `None` if there is none.
    ///
    /// Cost: a constant.
    pub fn pop(&mut self) -> Option<u32>
        ensures some { IfSome result (λ p. positions_of self.old ≡ p ∷ positions_of self.new) }
        ensures front { IfSome result (λ p. IsFront self.old self.new) }
        ensures none { IfNone result ((self.old ≡ []) × (self.new ≡ [])) }
    {
        let last = self.last()?;
        self.mentions = &self.mentions[..last.beneath as usize];
        Some(last.position)
    }
}

/// The mentions of each number.
///
/// Contracts see a list that has, by number, the list of its mentions. A number past its end has
/// none.
#[derive(Drop)]
pub struct Mentions {
    alloc: Global,
    lists: Vec<MentionList>,
    /// For each mention of any number, in the order in which they were appended, the number.
    log: Vec<u32>,
}

impl Model for Mentions {
    ghost use Rattle.std.specs.Prelude.{List};
    ghost use Rattle.entries.specs.declared.mentions.Mention.{Mention};
    ghost use Rattle.entries.specs.Stored.MentionLog.{AreLogged};

    ghost Value = { List (List Mention) };

    ghost view = { λ a. a.lists.items };

    ghost invariant = { λ a. AreLogged a.log.items a.lists.items };
}

impl Mentions {
    /// Returns no mentions. Does not allocate.
    pub fn new(alloc: Global) -> Mentions
        ensures { result ≡ [] }
    {
        Mentions {
            alloc,
            lists: Vec::new(alloc),
            log: Vec::new(alloc),
        }
    }

    /// Appends a mention of a number.
    ///
    /// Errors: an allocation fails; the mentions are then unchanged. Cost: amortized, a constant;
    /// for a number greater than all earlier ones, the difference to them.
    pub fn push(&mut self, number: u32, mention: Mention) -> Result<(), AllocError>
        requires linked { mention.beneath ≤ length (mentions_of self.old number) }
        requires until { AreUntil mention.position self.old }
        ensures pushed { OnOk result (AreWith self.old number (mentions_of self.old number ++ mention ∷ []) self.new) }
        ensures same { OnErr result (AreSame self.old self.new) }
    {
        append_until(self.alloc, &mut self.lists, number as usize)?;
        self.log.push(number)?;
        let pushed = self.lists[number as usize].push(mention);
        if pushed.is_err() {
            let _ = self.log.pop();
        }
        pushed
    }

    /// Removes the mentions after `last`. Does not allocate.
    ///
    /// Frees the unused memory of these lists, as `give_back` does. Cost: amortized, the number of
    /// mentions removed.
    pub fn truncate(&mut self, last: u32)
        ensures { AreKeptUntil last self.old self.new }
    {
        while let Some(number) = self.log.last().copied() {
            if !self.lists[number as usize].pop_after(last) {
                return;
            }
            self.log.truncate(self.log.len() - 1);
        }
    }

    /// Returns the mentions of a number before `at`.
    ///
    /// Cost: a constant if all are before `at`, else a binary search.
    pub fn stack(&self, number: u32, at: usize) -> MentionStack<'_>
        ensures before { result ≡ before at (mentions_of self.now number) }
        ensures front { (n : ℕ) × (result ≡ take n (mentions_of self.now number)) }
    {
        match self.lists.get(number as usize) {
            Some(list) => list.before(at),
            None => MentionStack::empty(),
        }
    }

    /// Frees unused memory: removes the greatest numbers from the table as long as they have no
    /// mention and are not below `count`, and frees what `give_back` frees.
    ///
    /// Cost: the count of the numbers that are removed, and that of `give_back`.
    pub fn shrink(&mut self, count: usize)
        ensures { AreSame self.old self.new }
    {
        remove_empty(&mut self.lists, count);
        give_back(&mut self.lists);
        give_back(&mut self.log);
    }
}

/// Returns how many of the mentions are before `at`.
///
/// Cost: a constant if all are, else a binary search.
fn count_before(mentions: &[Mention], at: usize) -> usize
    requires { AreMentions mentions.now }
    ensures within { result ≤ length mentions.now }
    ensures first { take result mentions.now ≡ before at mentions.now }
{
    let Some(last) = mentions.last() else {
        return 0;
    };
    if (last.position as usize) < at {
        return mentions.len();
    }
    mentions.partition_point(|mention| (mention.position as usize) < at)
}

/// Removes the last list as long as it is empty and there are more than `count`.
fn remove_empty(lists: &mut Vec<MentionList>, count: usize)
    ensures { AreSame lists.old.items lists.new.items }
{
    while lists.len() > count {
        let last = lists.len() - 1;
        if !lists[last].is_empty() {
            return;
        }
        lists.truncate(last);
    }
}

/// Appends empty lists until `number` has one.
fn append_until(
    alloc: Global,
    lists: &mut Vec<MentionList>,
    number: usize,
) -> Result<(), AllocError>
    ensures same { AreSame lists.old.items lists.new.items }
    ensures within { OnOk result (number < length lists.new.items) }
{
    while lists.len() <= number {
        lists.push(MentionList::new(alloc))?;
    }
    Ok(())
}
