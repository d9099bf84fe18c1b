//! The account of a lock in the history.
ghost use Rattle.std.specs.Prelude.{◌≡◌, ◌+◌, ◌-◌, ◌<◌, None, IsTrue, true};
ghost use Rattle.nodes.specs.Words.{IsPrefixOf};
ghost use Rattle.nodes.specs.Moments.{count_of, lock_count, lock_of};
ghost use Rattle.nodes.specs.Runs.{IsRun};
ghost use Rattle.nodes.specs.Account.{MayRecord, Records};

use crate::book::{Front, Law, Naming};
use crate::moment::Moment;
use logbook::{Pens, Plain, Word};
use std::marker::Model;

/// What lies under a lock beside its value: how many moments were recorded under the lock, and what
/// was seen of the history when the last one was. Contracts see the number of the lock, that
/// history, and whether each moment under the lock was recorded.
#[derive(Drop)]
pub(crate) struct Account<J: Naming> {
    word: Word<Moment, u64, Law>,
    count: u64,
    front: Front<J>,
    belongs: bool,
}

impl<J: Naming> Model for Account<J> {
    ghost use Rattle.nodes.specs.Account.{AccountView, IsAccount};

    ghost Value = { AccountView };

    ghost view = { λ a. record { lock = a.word.key; belongs = a.belongs; history = a.front } };

    ghost invariant = { λ a. IsAccount J.book a.word a.count a.belongs a.front };
}

impl<J: Naming> Account<J> {
    /// Opens the account of the next lock, under which no moment was recorded yet.
    pub fn open(pens: &mut Pens, front: &Front<J>) -> Self
        requires pens { 0 < pens.old.left }
        requires book { pens.old.book ≡ J.book }
        requires lock { pens.old.next < lock_count }
        ensures lock { result.lock ≡ pens.old.next }
        ensures none { result.belongs ≡ true → count_of result.lock result.history ≡ 0 }
        ensures pens { (pens.new.book ≡ pens.old.book) × (pens.new.next ≡ pens.old.next + 1)
            × (pens.new.left ≡ pens.old.left - 1) }
    {
        let mut pen = pens.take();
        let word = Word::tracked(0, &mut pen);
        let mut front = front.again();
        let count = front.look(&word);
        Account {
            word,
            count,
            front,
            belongs: count == 0,
        }
    }

    /// Returns what was seen of the history when the last moment was recorded.
    pub fn front(&self) -> Front<J>
        ensures { result ≡ self.now.history }
    {
        self.front.again()
    }

    /// Returns whether each moment under the lock was recorded.
    pub fn belongs(&self) -> bool
        ensures { result ≡ self.now.belongs }
    {
        self.belongs
    }

    /// Records nothing under the lock from now on, unless this is so.
    pub fn leave_unless(&mut self, is_own: bool)
        ensures lock { self.new.lock ≡ self.old.lock }
        ensures history { self.new.history ≡ self.old.history }
        ensures belongs { self.new.belongs ≡ true → (self.old.belongs ≡ true) × IsTrue is_own }
    {
        if !is_own {
            self.belongs = false;
        }
    }

    /// Sees the history as it is, and returns whether it has just the moments of this lock that
    /// were recorded here. It has, since only who holds the lock records them; but no clause of a
    /// word says that nobody else writes it, so this is tested.
    pub fn look(&self, front: &mut Front<J>) -> bool
        ensures seen { IsPrefixOf front.old front.new }
        ensures account { IsPrefixOf self.now.history front.new }
        ensures run { IsRun front.new }
        ensures same { IsTrue result → (self.now.belongs ≡ true)
            × (count_of self.now.lock front.new ≡ count_of self.now.lock self.now.history) }
    {
        front.learn(&self.front);
        let count = front.look(&self.word);
        self.belongs && count == self.count
    }

    /// Records a moment under the lock, if all earlier ones were recorded, and returns whether it
    /// did.
    pub fn add<X, M: Plain<X, Moment, u64>>(&mut self, front: &mut Front<J>, about: &X) -> bool
        requires own { self.old.belongs ≡ true → lock_of (M.ask about.now) ≡ self.old.lock }
        requires plain { M.state about.now ≡ None }
        requires may { self.old.belongs ≡ true → MayRecord self.old front.old (M.ask about.now) }
        ensures lock { self.new.lock ≡ self.old.lock }
        ensures belongs { result ≡ self.new.belongs }
        ensures seen { IsPrefixOf front.old front.new }
        ensures run { IsRun self.new.history }
        ensures recorded { self.new.belongs ≡ true → Records self.old self.new front.old front.new (M.ask about.now) }
    {
        if !self.belongs || self.count == u64::MAX {
            self.belongs = false;
            return false;
        }
        front.learn(&self.front);
        if !front.add::<X, M>(&self.word, self.count, about) {
            self.belongs = false;
            return false;
        }
        self.front = front.again();
        self.count += 1;
        true
    }
}
