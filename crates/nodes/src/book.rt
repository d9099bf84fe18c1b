//! The one history of a cluster, which contracts alone see. The threads share its words: the number
//! of moments recorded under each lock.
ghost use Rattle.std.specs.Prelude.{◌≡◌, ◌<◌, [], MatchBool, None};
ghost use Rattle.nodes.specs.Words.{IsPrefixOf};
ghost use Rattle.nodes.specs.Moments.{count_of, lock_count, lock_of};
ghost use Rattle.nodes.specs.Runs.{IsRun};
ghost use Rattle.nodes.specs.Book.{word_of, AddsTo, MayAdd};

use crate::moment::Moment;
use cluster::{NodeCell, Switch};
use logbook::{Gain, Offer, Opening, Pens, Plain, Play, Rule, Seen, Start, Word};
use std::marker::{Brand, Model, PhantomData};
use synod::Keep;
use world::Carried;

/// The number of locks that a history tells apart: that of the switch, that of the senders, and one
/// for each number that a node can have.
const LOCKS: usize = 258;

/// The rule of the history.
pub struct Law;

impl Rule<Moment, u64> for Law {
    ghost use Rattle.std.specs.Prelude.{[]};
    ghost use base.Fml.{ftrue};
    ghost use Rattle.nodes.specs.Book.{IsKept};

    ghost holds = { λ cells log. IsKept cells log };

    ghost first = { [] };

    ghost hinted = { λ n log. Unit {0} };

    ghost shows = { λ log. [] };

    ghost keeps = { λ names log. ftrue };

    ghost moves = { λ ask before after answer. Unit {0} };
}

impl Opening<u8, Moment> for Law {
    ghost use Rattle.std.specs.Prelude.{[]};

    ghost log = { λ count about. [] };
}

/// Callers trade nothing.
pub struct Untraded;

impl Gain<Moment, u64> for Untraded {
    ghost use base.Fml.{ftrue};

    ghost after = { λ names about answer. ftrue };
}

/// A step that looks at the history.
pub struct Look;

impl Play<Moment, u64> for Look {
    ghost use Rattle.nodes.specs.Book.{Looks};

    ghost then = { Looks };
}

/// A step that adds a moment.
pub struct Add;

impl Play<Moment, u64> for Add {
    ghost use Rattle.nodes.specs.Book.{Adds};

    ghost then = { Adds };
}

/// What a step adds: that the switch is this one.
pub struct AsSwitch;

impl<K: Keep<Carried>> Plain<Switch<Carried, K>, Moment, u64> for AsSwitch {
    ghost use Rattle.std.specs.Prelude.{None};
    ghost use Rattle.nodes.specs.declared.moment.Moment.TheVariants.{SwitchIs};

    ghost ask = { λ switch. SwitchIs switch };

    ghost state = { λ _. None };
}

/// What a step adds: that the cell is this one.
pub struct AsCell;

impl Plain<NodeCell, Moment, u64> for AsCell {
    ghost use Rattle.std.specs.Prelude.{None};
    ghost use Rattle.nodes.specs.declared.moment.Moment.TheVariants.{CellIs};

    ghost ask = { λ cell. CellIs cell };

    ghost state = { λ _. None };
}

/// What a step adds: that the cluster is stopped.
pub struct AsEnded;

impl Plain<u8, Moment, u64> for AsEnded {
    ghost use Rattle.std.specs.Prelude.{None};
    ghost use Rattle.nodes.specs.declared.moment.Moment.TheVariants.{Ended};

    ghost ask = { λ _. Ended };

    ghost state = { λ _. None };
}

/// Which history it is. Each call of a program that starts nodes picks it.
pub trait Naming {
    ghost use Rattle.logbook.specs.Pages.{Book};

    ghost book: { Book };
}

impl Naming for Brand {
    ghost book = { record { number = 0; log_name = 0; cells_name = 0 } };
}

/// A history in which nothing has happened. Contracts see which one it is.
#[derive(Drop)]
pub struct Opened {
    seen: Seen<Moment, u64, Law>,
    pens: Pens,
}

impl Model for Opened {
    ghost use Rattle.std.specs.Prelude.{◌≡◌, []};
    ghost use Rattle.logbook.specs.Pages.{Book};
    ghost use Rattle.nodes.specs.Moments.{lock_count};

    ghost Value = { Book };

    ghost view = { λ o. o.seen.book };

    ghost invariant = { λ o. (o.seen.log ≡ []) × (o.pens.book ≡ o.seen.book)
        × (o.pens.next ≡ 0) × (o.pens.left ≡ lock_count) };
}

impl Opened {
    /// Opens a history. It does not allocate.
    pub fn new() -> Self {
        let (seen, pens) = Seen::open_row::<u8, Law>(&0, Start::alone(), LOCKS);
        Opened { seen, pens }
    }

    /// Returns what was seen of the history, and the rights to record under its locks.
    pub(crate) fn named<J: Naming>(self) -> (Front<J>, Pens)
        requires { self ≡ J.book }
        ensures front { result.0 ≡ [] }
        ensures pens { (result.1.book ≡ J.book) × (result.1.next ≡ 0) × (result.1.left ≡ lock_count) }
    {
        let Opened { seen, pens } = self;
        (
            Front {
                seen,
                of: PhantomData,
            },
            pens,
        )
    }
}

/// A prefix of the history that was seen. Contracts see it as its moments.
#[derive(Drop)]
pub struct Front<J: Naming> {
    seen: Seen<Moment, u64, Law>,
    of: PhantomData<J>,
}

impl<J: Naming> Model for Front<J> {
    ghost use Rattle.std.specs.Prelude.{◌≡◌, List};
    ghost use Rattle.nodes.specs.declared.moment.Moment.{Moment};
    ghost use Rattle.nodes.specs.Runs.{IsRun};

    ghost Value = { List Moment };

    ghost view = { λ f. f.seen.log };

    ghost invariant = { λ f. (f.seen.book ≡ J.book) × IsRun f.seen.log };
}

impl<J: Naming> Front<J> {
    /// Returns a copy.
    pub(crate) fn again(&self) -> Front<J>
        ensures same { result ≡ self.now }
        ensures run { IsRun result }
    {
        Front {
            seen: self.seen.again(),
            of: PhantomData,
        }
    }

    /// Learns what the other has seen.
    pub(crate) fn learn(&mut self, other: &Front<J>)
        ensures this { IsPrefixOf self.old self.new }
        ensures that { IsPrefixOf other.now self.new }
        ensures run { IsRun self.new }
    {
        self.seen.learn(&other.seen);
    }

    /// Sees the history as it is, and returns the number of its moments that were recorded under the
    /// lock of the word.
    pub(crate) fn look(&mut self, word: &Word<Moment, u64, Law>) -> u64
        requires word { word.now ≡ word_of J.book word.now.key }
        requires lock { word.now.key < lock_count }
        ensures seen { IsPrefixOf self.old self.new }
        ensures run { IsRun self.new }
        ensures count { count_of word.now.key self.new ≡ result }
    {
        let mut offer: Offer<Moment, u64, Law, Untraded> = self
            .seen
            .plain::<Untraded, u8, AsEnded>(&0);
        word.load::<Look, Untraded>(&mut self.seen, &mut offer)
    }

    /// Adds a moment, and returns whether it did. It did not if another number of moments was
    /// recorded under its lock.
    pub(crate) fn add<X, M: Plain<X, Moment, u64>>(
        &mut self,
        word: &Word<Moment, u64, Law>,
        count: u64,
        about: &X,
    ) -> bool
        requires word { word.now ≡ word_of J.book word.now.key }
        requires lock { word.now.key < lock_count }
        requires own { lock_of (M.ask about.now) ≡ word.now.key }
        requires plain { M.state about.now ≡ None }
        requires room { count < u64.MAX }
        requires may { MayAdd self.old word.now.key count (M.ask about.now) }
        ensures seen { IsPrefixOf self.old self.new }
        ensures run { IsRun self.new }
        ensures added { MatchBool result (AddsTo self.old word.now.key count (M.ask about.now) self.new) (Unit {0}) }
    {
        let mut offer: Offer<Moment, u64, Law, Untraded> = self.seen.plain::<Untraded, X, M>(about);
        let mut pen = self.seen.no_pen();
        let found = word.compare_exchange::<Add, Untraded>(
            count,
            count + 1,
            &mut self.seen,
            &mut offer,
            &mut pen,
        );
        found == count
    }
}
