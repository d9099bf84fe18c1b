//! The numbers of a statement's symbols, recorded while its rules are tested.
ghost use Rattle.std.specs.Prelude.{◌≡◌, None, Some, [], IfSome, is_some};
ghost use Rattle.scope.specs.Stored.SymbolNumbers.{IsAppended};

use std::alloc::Global;
use std::marker::Model;

/// The numbers of a statement's symbols, or nothing if they are not recorded. Contracts see an
/// option.
///
/// It saves a second look-up of each symbol. The buffer is reused from statement to statement.
#[derive(Drop)]
pub struct SymbolNumbers {
    numbers: Vec<u32>,
    is_recorded: bool,
}

impl Model for SymbolNumbers {
    ghost use Rattle.std.specs.Prelude.{ℕ, List, Option, Some, None, if◌then◌else◌};

    ghost Value = { Option (List ℕ) };

    ghost view = { λ a. if a.is_recorded then Some a.numbers.items else None };
}

impl SymbolNumbers {
    /// Returns an empty buffer. Nothing is recorded before `begin`.
    pub fn new(alloc: Global) -> SymbolNumbers
        ensures { result ≡ None }
    {
        SymbolNumbers {
            numbers: Vec::new(alloc),
            is_recorded: false,
        }
    }

    /// Starts to record, with no numbers yet.
    pub fn begin(&mut self)
        ensures { self.new ≡ Some [] }
    {
        self.numbers.clear();
        self.is_recorded = true;
    }

    /// Discards the recorded numbers.
    pub fn forget(&mut self)
        ensures { self.new ≡ None }
    {
        self.is_recorded = false;
    }

    /// Records one more number, if recording has begun. If an allocation fails, it discards the
    /// recorded numbers.
    ///
    /// Cost: amortized, a constant.
    #[inline(always)]
    pub fn record_number(&mut self, number: u32)
        ensures { IsAppended number self.old self.new }
    {
        if self.is_recorded && self.numbers.push(number).is_err() {
            self.is_recorded = false;
        }
    }

    /// Returns the numbers, if they were recorded.
    pub fn numbers(&self) -> Option<&[u32]>
        ensures some { is_some result ≡ is_some self.now }
        ensures numbers { IfSome result (λ numbers. self.now ≡ Some numbers.now) }
    {
        if self.is_recorded {
            Some(self.numbers.as_slice())
        } else {
            None
        }
    }
}
